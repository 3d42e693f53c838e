//! Decides the outcome of a delivery.
ghost use Rattle.std.specs.Prelude.{◌≡◌, IfOk, Some, slice_get};
ghost use Rattle.base_files.specs.Packages.{package_paths};
ghost use Rattle.build_unit.specs.Inputs.{AreInputs};
ghost use Rattle.history_book.specs.CurrentInputs.{HasCurrentInputs};
ghost use Rattle.history_book.specs.Outcomes.{HasOutcome, FreshOutcome};

use crate::fresh::{fresh_number, number_of};
use build_carry::{Finished, learned};
use build_unit::{Built, Job};
use history_machine::State;
use std::alloc::{AllocError, Global};
use workspace_check::SharedKnown;

/// The outcome of a delivery.
#[derive(Drop)]
pub(crate) enum DeliveryOutcome {
    /// The Job, or what was built, is not of the state.
    Late,
    /// The package was finished before.
    Known,
    /// The delivery finishes the package: the new table of finished units, and what is known after it.
    Entered(Finished, SharedKnown),
}

/// The outcome of a delivery of the package of this number, whose inputs are known to be those that it was built from.
fn outcome_at(
    alloc: Global,
    state: &State,
    number: usize,
    built: &Built,
) -> Result<DeliveryOutcome, AllocError>
    requires number { slice_get (package_paths state.now.files) number ≡ Some built.now.package }
    requires inputs { AreInputs state.now.files built.now.package built.now.inputs }
    ensures { IfOk result (FreshOutcome state.now built.now) }
{
    if state.finished.get(number).is_some() {
        return Ok(DeliveryOutcome::Known);
    }
    built.is_right();
    let made = built.unit();
    let unit = made.clone()?;
    let finished = state.finished.with_unit(alloc, number, unit)?;
    let known = learned(alloc, &state.files, &state.known, built)?;
    Ok(DeliveryOutcome::Entered(finished, known))
}

/// The outcome of a delivery to a state. The texts of the package's closure are compared.
pub(crate) fn outcome_of(
    alloc: Global,
    state: &State,
    job: &Job,
    built: &Built,
) -> Result<DeliveryOutcome, AllocError>
    ensures { IfOk result (HasOutcome state.now job.now built.now) }
{
    let Some(number) = fresh_number(alloc, state, job, built)? else {
        return Ok(DeliveryOutcome::Late);
    };
    outcome_at(alloc, state, number, built)
}

/// The outcome of a delivery that is known to have the package's inputs. No text is compared.
pub(crate) fn outcome_on_current(
    alloc: Global,
    state: &State,
    job: &Job,
    built: &Built,
) -> Result<DeliveryOutcome, AllocError>
    requires { HasCurrentInputs state.now.files job.now built.now }
    ensures { IfOk result (HasOutcome state.now job.now built.now) }
{
    let Some(number) = number_of(state, job, built) else {
        return Ok(DeliveryOutcome::Late);
    };
    outcome_at(alloc, state, number, built)
}
