//! The answer to a Job that is handed in, and how the current state takes in a delivery.
ghost use Rattle.history_book.specs.Outcomes.{FitsState, TakesInOutcome};
ghost use Rattle.history_book.specs.Handed.{handed};

use crate::deliveries::DeliveryOutcome;
use base_files::Refusal;
use build_unit::{Built, Job};
use history_machine::State;

/// The answer to a Job that is handed in. The number of `Done` is that of the current state. `Back` returns the Job, and what was built:
/// for want of memory or of room in the journal, or since the Job is not out.
pub enum Handed {
    Done(u64),
    Refused(Refusal),
    Back(Refusal, Job, Option<Built>),
}

/// Lets the outcome of a delivery into the current state, and returns the answer.
pub(crate) fn take_in(current: &mut State, outcome: DeliveryOutcome) -> Handed
    requires { FitsState current.old outcome }
    ensures { TakesInOutcome current.old outcome (handed result) current.new }
{
    match outcome {
        DeliveryOutcome::Late => Handed::Refused(Refusal::Stale {
            current: current.number,
        }),
        DeliveryOutcome::Known => Handed::Refused(Refusal::Already),
        DeliveryOutcome::Entered(finished, known) => {
            current.finished = finished;
            current.known = known;
            Handed::Done(current.number)
        }
    }
}
