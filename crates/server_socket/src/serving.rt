//! Runs the server, from making its socket to settling its book.
ghost use Rattle.std.specs.Prelude.{◌≡◌, ◌≢◌, ◌+◌, ◌≤◌, All, List, [], IfErr, IfOk, IsErr, IsOk, IsTrue, OnOk, is_some, length, vec_capacity, vec_len};
ghost use Rattle.server_shared.specs.LimitNumbers.{full_limits, limit_numbers};
ghost use Rattle.server_shared.specs.SettledBook.{book_in};
ghost use Rattle.server_shared.specs.Working.{AccountsForTurns};
ghost use Rattle.server_shared.specs.declared.receipt.Receipt.{Receipt};
ghost use Rattle.server_socket.specs.Returned.{AreReturned, IsCalled};
ghost use Rattle.server_socket.specs.Session.{AccountsForMessages};
ghost use Rattle.server_socket.specs.Served.{IsNewBook, Serves, Settles, mark_said};

use crate::fault::ServeFault;
use crate::held_path::{HeldPath, hold};
use crate::held_seats::{SessionSeat, WorkerSeat};
use crate::returned::Seats;
use crate::socket::{clear, listen};
use crate::threads::{Running, run};
use crate::turns::Turns;
use base_files::Limits;
use history_book::Book;
use server_journal::{DiskStore, Kept, KeptBook, open_journal};
use server_shared::{FreeSeats, Gate, Opening, Seat, Shared, Unsettled};
use server_versions::NewLog;
use server_words::ServeOptions;
use std::alloc::{AllocError, Global};
use std::fs;
use std::fs::File;
use std::marker::Brand;
use std::net::Net;
use std::os::unix::net::UnixListener;
use std::rt::Files;
use std::sync::Wait;
use std::sync::ledger::Blank;
use std::thread::Threads;
use std::time::Clock;
use workspace_graph::Graph;

/// How many threads serve sessions or build packages. Each has a seat of its own.
fn threads_of(words: &ServeOptions<'_>) -> u64
    ensures { result ≡ words.now.workers + words.now.sessions }
{
    u64::from(words.workers) + u64::from(words.sessions)
}

/// How many entries a chapter of the journal has, where the words don't say it.
const MARK: u64 = 900_000;

/// The length of the journal at which a chapter is closed.
fn mark_of(words: &ServeOptions<'_>) -> u64
    ensures { result ≡ mark_said words.now.chapter }
{
    match words.chapter {
        Some(entries) => u64::from(entries),
        None => MARK,
    }
}

/// Takes seats of the shared book for workers.
fn worker_seats<L: Opening>(
    alloc: Global,
    free: &mut FreeSeats<L>,
    count: u32,
) -> Result<Vec<WorkerSeat<L>>, AllocError>
    requires seats { count ≤ free.old.left }
    requires turns { AccountsForTurns L.accounts L.most [] }
    ensures all { IfOk result (λ seats. vec_len seats ≡ count) }
    ensures left { OnOk result (free.new.left + count ≡ free.old.left) }
{
    let mut seats = Vec::new(alloc);
    for _number in 0..count {
        let seat = free.take(alloc);
        seats.push(WorkerSeat::new(seat))?;
    }
    Ok(seats)
}

/// Takes seats of the shared book for threads of sessions.
fn session_seats<L: Opening>(
    alloc: Global,
    free: &mut FreeSeats<L>,
    count: u32,
) -> Result<Vec<SessionSeat<L>>, AllocError>
    requires seats { count ≤ free.old.left }
    requires messages { AccountsForMessages L.accounts L.most [] }
    ensures all { IfOk result (λ seats. vec_len seats ≡ count) }
    ensures left { OnOk result (free.new.left + count ≡ free.old.left) }
{
    let mut seats = Vec::new(alloc);
    for _number in 0..count {
        let seat = free.take(alloc);
        seats.push(SessionSeat::new(seat))?;
    }
    Ok(seats)
}

/// Takes the seats of all threads.
fn seats_of<L: Opening>(
    alloc: Global,
    free: &mut FreeSeats<L>,
    words: &ServeOptions<'_>,
) -> Result<Seats<L>, AllocError>
    requires seats { words.now.workers + words.now.sessions ≤ free.old.left }
    requires messages { AccountsForMessages L.accounts L.most [] }
    requires turns { AccountsForTurns L.accounts L.most [] }
    ensures workers { IfOk result (λ seats. vec_len seats.workers ≡ words.now.workers) }
    ensures sessions { IfOk result (λ seats. vec_len seats.sessions ≡ words.now.sessions) }
{
    let workers = worker_seats(alloc, free, words.workers)?;
    let sessions = session_seats(alloc, free, words.sessions)?;
    Ok(Seats { workers, sessions })
}

/// Closes a book after settling. If it was settled, returns how many entries all its journals have.
fn length_of(settled: Result<Book, Unsettled>) -> Result<u64, ServeFault>
    ensures ok { IfOk result (λ entries. IsOk settled × (entries ≡ (book_in settled).begun + length (book_in settled).journal)) }
    ensures err { IfErr result (λ fault. IsErr settled × (fault ≡ ServeFault.Unsettled)) }
{
    match settled {
        Ok(book) => {
            let entries = book.begun() + book.journal().len() as u64;
            let _last = book.close();
            Ok(entries)
        }
        Err(Unsettled { book }) => {
            let _entries = book.close();
            Err(ServeFault::Unsettled)
        }
    }
}

/// Settles the shared book with these seats, and returns how many entries all its journals have.
fn settle<L: Opening>(
    shared: Shared<L>,
    free: FreeSeats<L>,
    seats: Vec<Seat<L>>,
) -> Result<u64, ServeFault>
    requires known { All (λ (seat : List Receipt). ∥ L.accounts seat ∥₁) seats.items }
    ensures { Settles L.accounts L.begun L.from L.parts L.limits seats.items result }
{
    length_of(shared.settle(free, seats))
}

/// Whether these are the seats of all threads.
fn are_all<L: Opening>(seats: &Seats<L>, words: &ServeOptions<'_>) -> bool
    ensures workers { IsTrue result → vec_len seats.now.workers ≡ words.now.workers }
    ensures sessions { IsTrue result → vec_len seats.now.sessions ≡ words.now.sessions }
{
    seats.workers.len() as u64 == u64::from(words.workers)
        && seats.sessions.len() as u64 == u64::from(words.sessions)
}

/// All seats in the list, which has room for them, if these are the seats of all threads. Else a thread could not be made.
fn all_seats<L: Opening>(
    list: Vec<Seat<L>>,
    seats: Seats<L>,
    words: &ServeOptions<'_>,
) -> Result<Vec<Seat<L>>, ServeFault>
    requires none { list.items ≡ [] }
    requires room { words.now.workers + words.now.sessions ≤ vec_capacity list }
    ensures all { IfOk result (λ all. AreReturned L.most words.now.workers words.now.sessions all.items) }
    ensures known { IfOk result (λ all. All (λ (seat : List Receipt). ∥ L.accounts seat ∥₁) all.items) }
    ensures err { IfErr result (λ fault. fault ≢ ServeFault.Unsettled) }
{
    let are_made = are_all(&seats, words);
    if !are_made {
        return Err(ServeFault::Memory);
    }
    Ok(seats.all(list))
}

/// Runs the threads of a server to their end. Returns the seats of those that were made.
fn serve_by<L: Opening + Send + Sync, R: Threads + Wait + Clock + Sync, G: Gate + Sync>(
    rt: &R,
    alloc: Global,
    shared: &Shared<L>,
    seats: Seats<L>,
    running: Running<'_, G>,
) -> Result<Seats<L>, ServeFault>
    ensures { IfErr result (λ fault. fault ≢ ServeFault.Unsettled) }
{
    Ok(run(rt, alloc, shared, seats, &running)?)
}

/// Serves sessions over a shared book to their end. Returns the seats of all threads, with what was called at them. The list of these seats
/// is made before the first thread is.
fn serve_over<L: Opening + Send + Sync, R: Threads + Wait + Clock + Sync, G: Gate + Sync>(
    rt: &R,
    alloc: Global,
    shared: &Shared<L>,
    free: &mut FreeSeats<L>,
    words: &ServeOptions<'_>,
    running: Running<'_, G>,
) -> Result<Vec<Seat<L>>, ServeFault>
    requires seats { words.now.workers + words.now.sessions ≤ free.old.left }
    requires messages { AccountsForMessages L.accounts L.most [] }
    requires turns { AccountsForTurns L.accounts L.most [] }
    ensures all { IfOk result (λ all. AreReturned L.most words.now.workers words.now.sessions all.items) }
    ensures known { IfOk result (λ all. All (λ (seat : List Receipt). ∥ L.accounts seat ∥₁) all.items) }
    ensures err { IfErr result (λ fault. fault ≢ ServeFault.Unsettled) }
{
    let seats = seats_of(alloc, free, words)?;
    let list = Vec::with_capacity(alloc, threads_of(words) as usize)?;
    let back = serve_by(rt, alloc, shared, seats, running)?;
    all_seats(list, back, words)
}

/// A book, and the store of the records of its changes, if they are kept.
struct OpenedBook {
    book: Book,
    records: Option<Kept<DiskStore>>,
}

/// The book with which a server begins: a new one, or the one that the records in a folder lead to, with an entry for each.
fn open_book<R: Files<File = File>>(
    rt: &R,
    alloc: Global,
    words: &ServeOptions<'_>,
) -> Result<OpenedBook, ServeFault>
    ensures err { IfErr result (λ fault. fault ≢ ServeFault.Unsettled) }
    ensures limits { IfOk result (λ opened. limit_numbers opened.book.limits ≡ full_limits) }
    ensures fresh { IfOk result (λ opened. IsNewBook (is_some words.now.journal) opened.book.begun (length opened.book.journal)) }
{
    let Some(folder) = words.journal else {
        let book = Book::new(alloc, Limits::FULL)?;
        return Ok(OpenedBook {
            book,
            records: None,
        });
    };
    let KeptBook { book, kept } = open_journal(rt, alloc, folder, Limits::FULL)?;
    Ok(OpenedBook {
        book,
        records: Some(kept),
    })
}

/// Closes a book that is not served.
fn give_up(opened: OpenedBook) {
    let OpenedBook { book, records } = opened;
    let _entries = book.close();
    drop(records);
}

/// Serves sessions over this book with this ledger.
fn serve_in<L: Opening + Send + Sync, R: Threads + Wait + Clock + Sync, G: Gate + Sync>(
    rt: &R,
    alloc: Global,
    words: &ServeOptions<'_>,
    gate: &G,
    turns: Turns,
    opened: OpenedBook,
    blank: Blank,
    log: NewLog<Graph>,
) -> Result<u64, ServeFault>
    requires fresh { IsNewBook (is_some words.now.journal) L.begun L.from }
    requires from { L.from ≡ length opened.book.journal }
    requires begun { L.begun ≡ opened.book.begun }
    requires full { limit_numbers opened.book.limits ≡ full_limits }
    requires name { blank.name ≡ L.name }
    requires parts { blank.parts ≡ L.parts }
    requires seats { blank.parts ≡ words.now.workers + words.now.sessions }
    requires log { log ≡ L.versions }
    requires most { L.most ≡ 1000000 }
    requires limits { L.limits ≡ full_limits }
    requires messages { AccountsForMessages L.accounts L.most [] }
    requires turns { AccountsForTurns L.accounts L.most [] }
    requires told { (receipts : List Receipt) → L.accounts receipts → IsCalled 1000000 receipts }
    ensures { Serves words.now.workers words.now.sessions (is_some words.now.journal) result }
{
    let seats = threads_of(words);
    let OpenedBook { book, records } = opened;
    let mark = mark_of(words);
    let (shared, mut free) = Shared::<L>::new(alloc, blank, book, records, seats, mark, log);
    let running = Running { gate, turns };
    match serve_over(rt, alloc, &shared, &mut free, words, running) {
        Ok(seats) => settle(shared, free, seats),
        Err(fault) => {
            let _ended = settle(shared, free, Vec::new(alloc));
            Err(fault)
        }
    }
}

/// Makes the socket of a path that is held. Fails where the file of the lock is another user's.
fn listen_alone<R: Net + Files<File = File>>(
    rt: &R,
    alloc: Global,
    path: &str,
    held: &HeldPath,
) -> Result<UnixListener, ServeFault>
    ensures { IfErr result (λ fault. fault ≢ ServeFault.Unsettled) }
{
    clear(rt, path);
    let listener = listen(rt, alloc, path)?;
    match held.has_owner_of(rt, path) {
        Ok(true) => Ok(listener),
        _ => {
            let _ = fs::remove_file(rt, path);
            Err(ServeFault::Socket)
        }
    }
}

/// Tells on standard error which socket is served, and how many changes were recovered.
fn tell_start(rt: &impl Eprint, words: &ServeOptions<'_>, opened: &OpenedBook) {
    if words.journal.is_some() {
        let entries = opened.book.journal().len() as u64;
        let changes = opened.book.begun().saturating_add(entries);
        let _ = eprintln!(rt; "gorefd: recovered {changes} changes");
    }
    let _ = eprintln!(rt; "gorefd: serving {}", words.socket);
}

/// Tells on standard error that a server ended, and how many entries its journals had.
fn tell_end(rt: &impl Eprint, served: &Result<u64, ServeFault>) {
    if let Ok(entries) = served {
        let _ = eprintln!(rt; "gorefd: ended, {entries} entries");
    }
}

/// Serves sessions on a socket whose path is held.
fn serve_held<
    R: Threads + Wait + Clock + Net + Files<File = File> + Eprint + AllocGlobal + Sync,
    G: Gate + Sync,
>(rt: &R, words: &ServeOptions<'_>, gate: &G, held: &HeldPath) -> Result<u64, ServeFault>
    ensures { Serves words.now.workers words.now.sessions (is_some words.now.journal) result }
{
    let alloc = rt.alloc();
    let share = held.share()?;
    let opened = open_book(rt, alloc, words)?;
    let listener = match listen_alone(rt, alloc, words.socket, held) {
        Ok(listener) => listener,
        Err(fault) => {
            give_up(opened);
            return Err(fault);
        }
    };
    let turns = Turns::new(alloc, listener, share, words);
    let blank = Blank::new(threads_of(words));
    tell_start(rt, words, &opened);
    let log = NewLog::new();
    let served = serve_in::<Brand, R, G>(rt, alloc, words, gate, turns, opened, blank, log);
    let _ = fs::remove_file(rt, words.socket);
    tell_end(rt, &served);
    served
}

/// Serves sessions on a socket, and returns how many entries all journals have at the end. It ends once `stop_after` connections have ended, or where
/// `gorefd stop` asks for its end. Its path is held meanwhile, and at the end the socket is taken away. It tells its start and its end on
/// standard error. The gate hears of each worker's progress.
pub fn serve<
    R: Threads + Wait + Clock + Net + Files<File = File> + Eprint + AllocGlobal + Sync,
    G: Gate + Sync,
>(rt: &R, words: &ServeOptions<'_>, gate: &G) -> Result<u64, ServeFault>
    ensures { Serves words.now.workers words.now.sessions (is_some words.now.journal) result }
{
    let held = hold(rt, rt.alloc(), words.socket)?;
    serve_held(rt, words, gate, &held)
}
