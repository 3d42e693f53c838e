//! The seats of a server's threads. A thread owns its seat and returns it, and the type of what it returns says what was called there: so
//! it is known of the seats that come back from a scope, of whose threads no clause says what they write. It also says that what the seat
//! holds is accounted for, and stays so while its thread goes on.
ghost use Rattle.std.specs.Prelude.{◌≡◌, []};
ghost use Rattle.server_shared.specs.Working.{AccountsForTurns};
ghost use Rattle.server_socket.specs.Returned.{HasServed, HasWorked};
ghost use Rattle.server_socket.specs.Session.{AccountsForMessages};

use server_shared::{Opening, Seat};

/// A seat at which sessions alone were held, one after another.
#[derive(Drop)]
pub(crate) struct SessionSeat<L: Opening> {
    pub(crate) seat: Seat<L>,
    ghost served: { ∥ HasServed L.most seat ∥₁ },
    ghost fresh: { AccountsForMessages L.accounts L.most [] },
    ghost here: { AccountsForMessages L.accounts L.most seat },
}

/// A seat at which a worker alone took turns.
#[derive(Drop)]
pub(crate) struct WorkerSeat<L: Opening> {
    pub(crate) seat: Seat<L>,
    ghost worked: { ∥ HasWorked L.most seat ∥₁ },
    ghost fresh: { AccountsForTurns L.accounts L.most [] },
    ghost here: { AccountsForTurns L.accounts L.most seat },
}

impl<L: Opening> SessionSeat<L> {
    /// A seat at which nothing was called yet.
    pub(crate) fn new(seat: Seat<L>) -> SessionSeat<L>
        requires none { seat ≡ [] }
        requires fresh { AccountsForMessages L.accounts L.most [] }
    {
        SessionSeat { seat }
    }
}

impl<L: Opening> WorkerSeat<L> {
    /// A seat at which nothing was called yet.
    pub(crate) fn new(seat: Seat<L>) -> WorkerSeat<L>
        requires none { seat ≡ [] }
        requires fresh { AccountsForTurns L.accounts L.most [] }
    {
        WorkerSeat { seat }
    }
}
