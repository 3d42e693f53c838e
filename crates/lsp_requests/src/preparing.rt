//! Whether an identifier can be renamed.
ghost use Rattle.std.specs.Prelude.{◌≡◌, Err};
ghost use Rattle.refactor_preserve.specs.Planned.{change_in};
ghost use Rattle.lsp_requests.specs.Uses.{PreparesNamed, TellsPrepared, TellsWhether};

use crate::sight::Sight;
use base_files::Refusal;
use lsp_told::{AskFault, AskedByte, name_from, prepared_at};
use refactor_preserve::Planned;
use serde_json::Value;
use server_commands::{Desk, rename_plan};
use std::alloc::Global;

/// What is told of an identifier whose rename to its own name is refused.
fn told_refused(
    alloc: Global,
    sight: Sight<'_>,
    at: &AskedByte,
    refusal: Refusal,
) -> Result<Value, AskFault>
    ensures { TellsWhether sight.entry.telling sight.entry.view.now.snapshot.files at.now (Err refusal) result }
{
    match refusal {
        Refusal::Same => Ok(prepared_at(alloc, sight.telling, sight.files(), at)?),
        refusal => Err(AskFault::from(refusal)),
    }
}

/// What is told of an identifier by the plan of its rename to its own name.
fn told_whether(
    alloc: Global,
    sight: Sight<'_>,
    at: &AskedByte,
    planned: Result<Planned, Refusal>,
) -> Result<Value, AskFault>
    ensures { TellsWhether sight.entry.telling sight.entry.view.now.snapshot.files at.now (change_in planned) result }
{
    match planned {
        Ok(_) => Err(AskFault::Refused(Refusal::NotRenamable)),
        Err(refusal) => told_refused(alloc, sight, at, refusal),
    }
}

/// What is told of an identifier by its rename to a name.
fn prepare_named<D: Desk>(
    alloc: Global,
    desk: &mut D,
    sight: Sight<'_>,
    at: &AskedByte,
    name: &str,
) -> Result<Value, AskFault>
    requires { D.sees desk.old sight.view.now.snapshot.files }
    ensures told { PreparesNamed sight.entry.telling sight.entry.view.now.snapshot at.now name.now result }
    ensures same { desk.new ≡ desk.old }
{
    let planned = rename_plan(alloc, desk, sight.view, at.path.as_str(), at.offset, name);
    told_whether(alloc, sight, at, planned)
}

/// The range and the name of the identifier at a byte, where it can be renamed: where its rename to its own name is refused with `Same`.
pub(crate) fn prepare<D: Desk>(
    alloc: Global,
    desk: &mut D,
    sight: Sight<'_>,
    at: &AskedByte,
) -> Result<Value, AskFault>
    requires { D.sees desk.old sight.view.now.snapshot.files }
    ensures told { TellsPrepared sight.entry.telling sight.entry.view.now.snapshot at.now result }
    ensures same { desk.new ≡ desk.old }
{
    match name_from(alloc, sight.files(), at) {
        Ok(name) => prepare_named(alloc, desk, sight, at, name.as_str()),
        Err(_) => Err(AskFault::Memory),
    }
}
