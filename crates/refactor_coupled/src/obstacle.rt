//! What stands against a rename.
ghost use Rattle.std.specs.Prelude.{◌≡◌};
ghost use Rattle.refactor_coupled.specs.ObstacleRefusal.{refusal_of_obstacle};

use base_files::{Place, Refusal};
use refactor_conflict::Conflict;

/// Why a rename cannot be: it would lose or capture an identifier, or change the types that implement an interface. The place is the name of
/// the first type definition whose underlying type is such an interface.
#[derive(Drop)]
pub enum Obstacle {
    Conflict(Conflict),
    Coupled(Place),
}

/// The refusal that reports an obstacle.
pub fn told(obstacle: Obstacle) -> Refusal
    ensures { result ≡ refusal_of_obstacle obstacle }
{
    match obstacle {
        Obstacle::Conflict(conflict) => refactor_conflict::told(conflict),
        Obstacle::Coupled(place) => Refusal::Coupled { place },
    }
}
