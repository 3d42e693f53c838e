//! The threads of a server. Each owns its seat, and returns it at its end.
ghost use Rattle.std.specs.Prelude.{◌≡◌, ◌+◌, ◌≤◌, [], IsOk, MatchResult, vec_capacity, vec_len};
ghost use Rattle.server_shared.specs.Held.{WithHandedIn};
ghost use Rattle.server_socket.specs.Session.{AccountsForMessages, HoldsSession, HoldsSome};

use crate::held_seats::{SessionSeat, WorkerSeat};
use crate::returned::Seats;
use crate::session::{Connection, session_at_seat};
use crate::turns::Turns;
use base_files::{Limits, list_as_long};
use server_session::SessionFault;
use server_shared::{Gate, Opening, Seat, Shared, worker};
use std::alloc::{AllocError, Global};
use std::io::{BufReader, BufWriter};
use std::os::unix::net::UnixStream;
use std::sync::Wait;
use std::thread::{Builder, JoinHandle, Threads};
use std::time::Clock;
use std::{io, thread};

/// The stack of each thread, in bytes, whatever limit the server was started with. It is four times what a file at the limit of nesting
/// takes.
const STACK_BYTES: usize = 8_388_608;

/// Makes threads with a stack of `STACK_BYTES`.
fn sized() -> Builder {
    Builder::new().stack_size(STACK_BYTES)
}

/// Serves the session of one connection.
fn serve_connection<L: Opening, R: Wait>(
    rt: &R,
    alloc: Global,
    shared: &Shared<L>,
    seat: &mut Seat<L>,
    stream: &UnixStream,
) -> io::Result<Result<(), SessionFault>>
    requires fresh { AccountsForMessages L.accounts L.most [] }
    requires here { AccountsForMessages L.accounts L.most seat.old }
    ensures here { AccountsForMessages L.accounts L.most seat.new }
    ensures held { MatchResult result (λ _. WithHandedIn (HoldsSession L.most) seat.old seat.new) (λ _. seat.new ≡ seat.old) }
{
    let input = BufReader::new(alloc, stream)?;
    let output = BufWriter::new(alloc, stream)?;
    let connection = Connection { input, output };
    let (ended, _output) = session_at_seat(rt, alloc, shared, seat, connection, Limits::FULL);
    Ok(ended)
}

/// Serves one connection after another, until no more are accepted.
fn take_turns<L: Opening, R: Wait + Clock>(
    rt: &R,
    alloc: Global,
    shared: &Shared<L>,
    seat: &mut Seat<L>,
    turns: &Turns,
)
    requires fresh { AccountsForMessages L.accounts L.most [] }
    requires here { AccountsForMessages L.accounts L.most seat.old }
    ensures here { AccountsForMessages L.accounts L.most seat.new }
    ensures held { WithHandedIn (HoldsSome L.most) seat.old seat.new }
{
    for _ in rt.forever() {
        match turns.next(rt, alloc) {
            Some(connected) => {
                shared.begin_session(rt);
                // How a session ends concerns no other.
                let _ended = serve_connection(rt, alloc, shared, seat, &connected.stream);
                shared.end_session(rt);
                turns.end(rt, connected.number);
            }
            None => return,
        }
    }
}

/// Serves one connection after another at a seat, and returns the seat.
fn serve_at<L: Opening, R: Wait + Clock>(
    rt: &R,
    alloc: Global,
    shared: &Shared<L>,
    held: SessionSeat<L>,
    turns: &Turns,
) -> SessionSeat<L> {
    let SessionSeat { seat } = held;
    let mut seat = seat;
    take_turns(rt, alloc, shared, &mut seat, turns);
    turns.leave(rt);
    SessionSeat { seat }
}

/// Builds packages at a seat until the shared book is stopped, and returns the seat.
fn work_at<L: Opening, R: Wait, G: Gate>(
    rt: &R,
    alloc: Global,
    shared: &Shared<L>,
    held: WorkerSeat<L>,
    gate: &G,
) -> WorkerSeat<L> {
    let WorkerSeat { seat } = held;
    let mut seat = seat;
    worker(rt, alloc, shared, &mut seat, gate);
    WorkerSeat { seat }
}

/// Waits for the end of each thread, and adds what it returned to `back`.
fn all_joined<R: Threads, T: Drop>(
    rt: &R,
    threads: Vec<JoinHandle<T>>,
    back: Vec<T>,
) -> Result<Vec<T>, AllocError>
    ensures { vec_len back + vec_len threads ≤ vec_capacity back → IsOk result }
{
    let mut back = back;
    for child in threads {
        back.push(child.join(rt))?;
    }
    Ok(back)
}

/// Serves sessions in one thread for each seat, until no more are accepted, and returns the seats. No thread accepts before all are made.
/// Where a thread could not be made, none accepts. The list that is returned is made before the first thread is.
fn serve_sessions<L: Opening + Send + Sync, R: Threads + Wait + Clock + Sync>(
    rt: &R,
    alloc: Global,
    shared: &Shared<L>,
    seats: Vec<SessionSeat<L>>,
    turns: &Turns,
    were_made: bool,
) -> Result<Vec<SessionSeat<L>>, AllocError> {
    thread::scope(thread::scope_env(), rt, move |scope| {
        let back = list_as_long(alloc, &seats)?;
        let mut are_made = were_made;
        let mut turn = turns.turn.lock(rt);
        let mut threads = Vec::new(alloc);
        for seat in seats {
            match sized().spawn_scoped(scope, move || serve_at(rt, alloc, shared, seat, turns)) {
                Ok(child) => are_made = threads.push(child).is_ok() && are_made,
                Err(_) => are_made = false,
            }
        }
        if !are_made {
            turn.end();
        }
        drop(turn);
        turns.watch(rt, threads.len() as u64);
        all_joined(rt, threads, back)
    })
}

/// What the threads of a server share beside the book: the gate that hears of each worker's progress, and the turns at accepting
/// connections.
#[derive(Drop)]
pub(crate) struct Running<'a, G> {
    pub(crate) gate: &'a G,
    pub(crate) turns: Turns,
}

/// Builds packages in one thread for each seat of a worker, and serves sessions in the others, until no more are accepted. Returns the
/// seats of the threads that were made.
pub(crate) fn run<L: Opening + Send + Sync, R: Threads + Wait + Clock + Sync, G: Gate + Sync>(
    rt: &R,
    alloc: Global,
    shared: &Shared<L>,
    seats: Seats<L>,
    running: &Running<'_, G>,
) -> Result<Seats<L>, AllocError> {
    let gate = running.gate;
    let turns = &running.turns;
    let Seats { workers, sessions } = seats;
    thread::scope(thread::scope_env(), rt, move |scope| {
        let back = list_as_long(alloc, &workers)?;
        let mut are_made = true;
        let mut threads = Vec::new(alloc);
        for seat in workers {
            match sized().spawn_scoped(scope, move || work_at(rt, alloc, shared, seat, gate)) {
                Ok(child) => are_made = threads.push(child).is_ok() && are_made,
                Err(_) => are_made = false,
            }
        }
        let sessions = serve_sessions(rt, alloc, shared, sessions, turns, are_made);
        shared.stop(rt);
        let workers = all_joined(rt, threads, back)?;
        let sessions = sessions?;
        Ok(Seats { workers, sessions })
    })
}
