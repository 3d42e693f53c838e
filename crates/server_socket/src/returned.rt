//! The seats that the threads of a server return, in one list.
ghost use Rattle.std.specs.Prelude.{◌≡◌, ◌+◌, ◌≤◌, All, List, [], vec_capacity, vec_len};
ghost use Rattle.server_shared.specs.declared.receipt.Receipt.{Receipt};
ghost use Rattle.server_socket.specs.Returned.{Adds, AreReturned, HasServed, HasWorked};

use crate::held_seats::{SessionSeat, WorkerSeat};
use server_shared::{Opening, Seat};

/// The seats of a server's threads.
#[derive(Drop)]
pub(crate) struct Seats<L: Opening> {
    pub(crate) workers: Vec<WorkerSeat<L>>,
    pub(crate) sessions: Vec<SessionSeat<L>>,
}

/// Adds the seats of workers to a list that has room for them.
fn add_workers<L: Opening>(all: &mut Vec<Seat<L>>, workers: Vec<WorkerSeat<L>>)
    requires room { vec_len all.old + vec_len workers ≤ vec_capacity all.old }
    requires known { All (λ (seat : List Receipt). ∥ L.accounts seat ∥₁) all.old.items }
    ensures added { Adds (HasWorked L.most) (vec_len workers) all.old.items all.new.items }
    ensures known { All (λ (seat : List Receipt). ∥ L.accounts seat ∥₁) all.new.items }
    ensures len { vec_len all.new ≡ vec_len all.old + vec_len workers }
    ensures room { vec_capacity all.new ≡ vec_capacity all.old }
{
    for held in workers {
        all.push_reserved(held.seat);
    }
}

/// Adds the seats of threads of sessions to a list that has room for them.
fn add_sessions<L: Opening>(all: &mut Vec<Seat<L>>, sessions: Vec<SessionSeat<L>>)
    requires room { vec_len all.old + vec_len sessions ≤ vec_capacity all.old }
    requires known { All (λ (seat : List Receipt). ∥ L.accounts seat ∥₁) all.old.items }
    ensures added { Adds (HasServed L.most) (vec_len sessions) all.old.items all.new.items }
    ensures known { All (λ (seat : List Receipt). ∥ L.accounts seat ∥₁) all.new.items }
{
    for held in sessions {
        all.push_reserved(held.seat);
    }
}

impl<L: Opening> Seats<L> {
    /// All seats, in an empty list that has room for them: those of the workers, and behind them those of the threads of sessions.
    pub(crate) fn all(self, list: Vec<Seat<L>>) -> Vec<Seat<L>>
        requires none { list.items ≡ [] }
        requires room { vec_len self.workers + vec_len self.sessions ≤ vec_capacity list }
        ensures returned { AreReturned L.most (vec_len self.workers) (vec_len self.sessions) result.items }
        ensures known { All (λ (seat : List Receipt). ∥ L.accounts seat ∥₁) result.items }
    {
        let Seats { workers, sessions } = self;
        let mut all = list;
        add_workers(&mut all, workers);
        add_sessions(&mut all, sessions);
        all
    }
}
