//! Conflicts: identifiers that a change would lose or capture.
ghost use Rattle.std.specs.Prelude.{◌≡◌};
ghost use Rattle.refactor_conflict.specs.ConflictRefusal.{refusal_for};

use base_files::{Place, Refusal};

/// The declaration that would capture an identifier: a predeclared one, or the one at a place before the change. The place of an import is
/// that of its string literal.
#[derive(Drop)]
pub enum Capturer {
    Universe,
    At(Place),
}

/// An identifier, by its place before the change, that the change would lose (`by` is `None`) or bind to another declaration.
#[derive(Drop)]
pub struct Conflict {
    pub used: Place,
    pub by: Option<Capturer>,
}

/// The refusal that reports a conflict.
pub fn told(conflict: Conflict) -> Refusal
    ensures { result ≡ refusal_for conflict.by conflict.used }
{
    let Conflict { used, by } = conflict;
    match by {
        None => Refusal::Lost { used },
        Some(Capturer::Universe) => Refusal::Captured { used, by: None },
        Some(Capturer::At(place)) => Refusal::Captured {
            used,
            by: Some(place),
        },
    }
}
