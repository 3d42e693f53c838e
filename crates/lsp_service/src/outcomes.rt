//! What the client gets where a request has no result.
ghost use Rattle.std.specs.Prelude.{IfOk, Err, option_map};
ghost use Rattle.serde_json.specs.View.{view};
ghost use Rattle.lsp_session.specs.Outcomes.{outcome_view};
ghost use Rattle.lsp_service.specs.Answering.{GivesAnswer};
ghost use Rattle.lsp_service.specs.Failing.{TellsFailure};
ghost use Rattle.lsp_service.specs.declared.failure.Failure.TheVariants.{Asked};

use crate::desk::RequestDesk;
use crate::failure::Failure;
use lsp_message::ErrorCode;
use lsp_session::{ServiceAnswer, ServiceFault};
use lsp_told::{AskFault, code_of};
use std::alloc::{AllocError, Global};

/// What the client gets where a request has no result for its own reason.
fn told_asked<D: RequestDesk>(
    alloc: Global,
    desk: &mut D,
    prefix: &str,
    fault: &AskFault,
) -> Result<ServiceFault, AllocError>
    ensures { IfOk result (λ told. TellsFailure D.tells desk.old prefix.now (Asked fault.now) (outcome_view (Err told)) desk.new) }
{
    let code = code_of(fault);
    let words = desk.words(alloc, prefix, fault)?;
    Ok(ServiceFault { code, words })
}

/// What the client gets where a request has no result.
fn told_failure<D: RequestDesk>(
    alloc: Global,
    desk: &mut D,
    prefix: &str,
    failure: Failure,
) -> Result<ServiceFault, AllocError>
    ensures { IfOk result (λ told. TellsFailure D.tells desk.old prefix.now failure (outcome_view (Err told)) desk.new) }
{
    match failure {
        Failure::Asked(fault) => told_asked(alloc, desk, prefix, &fault),
        Failure::Folder(words) => Ok(ServiceFault {
            code: ErrorCode::RequestFailed,
            words,
        }),
    }
}

/// What the client gets: the answer, or what is told of the failure.
pub(crate) fn answer_given<D: RequestDesk>(
    alloc: Global,
    desk: &mut D,
    prefix: &str,
    came: Result<ServiceAnswer, Failure>,
) -> Result<ServiceAnswer, AllocError>
    ensures { IfOk result (λ answered. GivesAnswer D.tells came desk.old prefix.now (option_map view answered.edit) (outcome_view answered.outcome) desk.new) }
{
    match came {
        Ok(answered) => Ok(answered),
        Err(failure) => {
            let outcome = Err(told_failure(alloc, desk, prefix, failure)?);
            Ok(ServiceAnswer {
                edit: None,
                outcome,
            })
        }
    }
}
