//! What an entry keeps of a refusal.
ghost use Rattle.std.specs.Prelude.{◌≡◌};
ghost use Rattle.std.specs.Option.{option_map};
ghost use Rattle.history_machine.specs.Journal.{reason_of};

use base_files::Refusal;
use history_machine::{Reason, Told};

/// The reason that an entry keeps of a refusal, or `None` where the refused event has no entry.
fn reason_of(refusal: &Refusal) -> Option<Reason>
    ensures { result ≡ reason_of refusal.now }
{
    match refusal {
        Refusal::Moved { current } => Some(Reason::Moved { current: *current }),
        Refusal::NothingToUndo => Some(Reason::NothingToUndo),
        Refusal::NothingToRedo => Some(Reason::NothingToRedo),
        Refusal::Stale { current } => Some(Reason::Stale { current: *current }),
        Refusal::Already => Some(Reason::Already),
        Refusal::NoJob => Some(Reason::NoJob),
        _ => None,
    }
}

/// The outcome that an entry keeps of a refusal, or `None` where the refused event has no entry.
pub(crate) fn refusal_told(refusal: &Refusal) -> Option<Told>
    ensures { result ≡ option_map (λ why. Told.Refused why) (reason_of refusal.now) }
{
    match reason_of(refusal) {
        Some(reason) => Some(Told::Refused(reason)),
        None => None,
    }
}
