//! A desk at a seat of a shared book.
use base_files::Refusal;
use build_kept::KnownUnits;
use build_unit::{Built, Job};
use history_book::{Handed, Looking, LookingBack, Question, Taking};
use history_machine::{HistoryView, View};
use server_commands::{Desk, ServerNumbers, book_numbers, edit_bytes, kept_behind};
use server_shared::{Opening, Seat, Shared};
use server_versions::Versions;
use std::sync::Wait;
use workspace_check::Known;
use workspace_graph::Graph;
use workspace_snapshot::MadeChange;

/// A desk at a seat of a shared book. It borrows the seat, which keeps the receipts of the events, and what was seen of the log of files behind
/// the last event.
#[derive(Drop)]
pub struct SeatDesk<'a, L: Opening, R: Wait> {
    pub rt: &'a R,
    pub shared: &'a Shared<L>,
    pub seat: &'a mut Seat<L>,
    pub seen: &'a mut Option<Versions<Graph, L>>,
}

impl<'a, L: Opening, R: Wait> Desk for SeatDesk<'a, L, R> {
    ghost use Rattle.std.specs.Prelude.{◌≡◌, IfSome};
    ghost use Rattle.server_versions.specs.Growing.{IsLastVersion};
    ghost use Rattle.server_shared.specs.SeenFiles.{BringsInputs};
    ghost use Rattle.server_socket.specs.SeatStep.{CallsAtSeat};
    ghost use Rattle.server_socket.specs.SeatWait.{WaitsUntilBuilt};

    // The desk keeps its seat.
    ghost steps = { λ old event reply new. (new.seat.ghost_name ≡ old.seat.ghost_name) × CallsAtSeat L.most old.seat.now event reply new.seat.now };

    ghost waits = { λ old said new. (new.seat.ghost_name ≡ old.seat.ghost_name) × WaitsUntilBuilt L.most old.seat.now said new.seat.now };

    // Other seats change the book too. So of the files it is known only that what was seen of the log ends with them.
    ghost sees = { λ desk files. IfSome desk.seen.now (λ v. IsLastVersion v files) };

    ghost brings = { λ desk job. IfSome desk.seen.now (λ v. BringsInputs v job) };

    fn step<Q: Question>(&mut self, question: Q) -> Q::Answer {
        self.shared.call(self.rt, self.seat, question).0
    }

    fn look(&mut self) -> Result<View, Refusal> {
        let shared = self.shared;
        let (view, _index) = shared.call_and_see(self.rt, self.seat, Looking, self.seen);
        view
    }

    fn look_back(&mut self) -> Result<HistoryView, Refusal> {
        let shared = self.shared;
        let (view, _index) = shared.call_and_see(self.rt, self.seat, LookingBack, self.seen);
        view
    }

    /// Where the log still ends with what was seen where the files were looked at, no text is compared.
    fn commit(&mut self, basis: u64, change: MadeChange) -> Result<u64, Refusal> {
        let shared = self.shared;
        let bytes = edit_bytes(&change.get().edits);
        let (done, _index) = shared.commit(self.rt, self.seat, basis, change, self.seen);
        shared.keep(self.rt, kept_behind(0, bytes, &done));
        done
    }

    fn take(&mut self) -> Result<Job, Refusal> {
        let shared = self.shared;
        let (job, _index) = shared.call_and_see(self.rt, self.seat, Taking, self.seen);
        job
    }

    /// Where the log still ends with what was seen where the Job was taken, no text is compared.
    fn deliver(&mut self, job: Job, built: Built) -> Handed {
        let shared = self.shared;
        let (answer, _index) = shared.deliver(self.rt, self.seat, job, built, self.seen);
        answer
    }

    fn wait(&mut self) -> Result<u64, Refusal> {
        match self.shared.wait_built(self.rt, self.seat) {
            Ok(view) => Ok(view.snapshot.number()),
            Err(refusal) => Err(refusal),
        }
    }

    /// It is no event, so the seat gains no receipt.
    fn numbers(&self) -> Result<ServerNumbers, Refusal> {
        match self.shared.standing(self.rt) {
            Err(error) => Err(Refusal::from(error)),
            Ok(standing) => Ok(ServerNumbers {
                sessions: standing.sessions,
                workers: standing.workers,
                due: standing.due,
                kept: standing.kept,
                book: book_numbers(&standing.snapshot, standing.begun, standing.entries),
            }),
        }
    }

    /// It is no event, so the seat gains no receipt.
    fn learn(&mut self, files: &Graph, known: Known) {
        self.shared.learn(self.rt, files, known, self.seen);
    }

    /// It is no event, so the seat gains no receipt.
    fn known_units(&self, files: &Graph) -> Option<KnownUnits> {
        self.shared.known_units(self.rt, files, self.seen)
    }

    /// It is no event, so the seat gains no receipt.
    fn learn_units(&mut self, units: KnownUnits) {
        self.shared.learn_units(self.rt, units, self.seen);
    }
}
