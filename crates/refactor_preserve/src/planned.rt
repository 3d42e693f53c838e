//! A planned change, with what is known of the packages after it.
ghost use Rattle.std.specs.Prelude.{IfOk};
ghost use Rattle.workspace_check.specs.Found.{KnowsVerdicts};
ghost use Rattle.refactor_preserve.specs.Planned.{KeepsLimits, change_in};

use base_files::{Limits, Refusal};
use workspace_check::Known;
use workspace_snapshot::{MadeChange, fits_limits};

/// A change that preserves all bindings, and what is known of the packages after it.
#[derive(Drop)]
pub struct Planned {
    pub change: MadeChange,
    pub known: Known,
}

/// The planned change, or `TooLarge` where its files exceed a limit.
pub fn within_limits(limits: &Limits, change: MadeChange, known: Known) -> Result<Planned, Refusal>
    requires { KnowsVerdicts change.files known }
    ensures planned { KeepsLimits limits.now change (change_in result) }
    ensures known { IfOk result (λ p. KnowsVerdicts p.change.files p.known) }
{
    if fits_limits(limits, &change.get().files) {
        Ok(Planned { change, known })
    } else {
        Err(Refusal::TooLarge)
    }
}
