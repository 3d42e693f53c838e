//! Tests that what is found of packages at one seat is known at the others: verdicts, and units behind a rename. It changes no answer, so no
//! stored session shows it.
ghost use Rattle.std.specs.Prelude.{◌≡◌, List};
ghost use Rattle.server_shared.specs.declared.receipt.Receipt.{Receipt};
ghost use Rattle.server_shared.specs.LimitNumbers.{full_limits};

use crate::assertion::{file, holds};
use base_files::Limits;
use history_book::{Book, Changing, Looking};
use history_machine::View;
use server_commands::find;
use server_shared::{Opening, Seat, Shared, Unsettled};
use server_socket::{Connection, SeatDesk, session_at_seat};
use server_versions::NewLog;
use std::alloc::Global;
use std::marker::Brand;
use std::process::Abort;
use std::sync::Wait;
use std::sync::ledger::Blank;
use workspace_graph::Graph;
use workspace_snapshot::plan_put;

/// Looks at a seat.
fn look<L: Opening, R: Wait + Abort>(rt: &R, shared: &Shared<L>, seat: &mut Seat<L>) -> View {
    shared.send(rt, seat, Looking).ok().expect(rt, "a view")
}

/// Puts the first package, of one file, at a seat.
fn put<L: Opening, R: Wait + Abort>(rt: &R, alloc: Global, shared: &Shared<L>, seat: &mut Seat<L>) {
    let file = file(rt, alloc, "package a\n".as_bytes());
    let view = look(rt, shared, seat);
    let change = plan_put(alloc, view.snapshot.get(), "a/a.go", file);
    let change = change.ok().expect(rt, "a change");
    holds(
        rt,
        shared.send(rt, seat, Changing::Commit(0, change)).is_ok(),
    );
}

/// Finds the faults of all packages at a seat.
fn find_at<L: Opening, R: Wait + Abort>(
    rt: &R,
    alloc: Global,
    shared: &Shared<L>,
    seat: &mut Seat<L>,
) {
    let view = look(rt, shared, seat);
    let mut seen = None;
    let mut desk = SeatDesk {
        rt,
        shared,
        seat,
        seen: &mut seen,
    };
    let findings = find(alloc, &mut desk, &view).expect(rt, "memory");
    drop(findings);
}

/// Whether a look at a seat shows a verdict on the first package.
fn is_known<L: Opening, R: Wait + Abort>(rt: &R, shared: &Shared<L>, seat: &mut Seat<L>) -> bool {
    let view = look(rt, shared, seat);
    view.snapshot.known().get(0).is_some()
}

/// Whether the unit of the first package is known at a seat, built or not.
fn has_unit<L: Opening, R: Wait + Abort>(rt: &R, shared: &Shared<L>, seat: &mut Seat<L>) -> bool {
    let view = look(rt, shared, seat);
    match shared.known_units(rt, view.snapshot.files(), &None) {
        None => false,
        Some(units) => units.has(0),
    }
}

/// Puts a function, builds its package, and renames its parameter.
const RENAMES: &str =
    "put 1 a/a.go 42\npackage a\n\nfunc F(y int) int { return y }\nwork\nrename 2 a/a.go:#18 z\n";

/// Puts another text in place of the renamed one.
const REPLACES: &str = "put 3 a/a.go 10\npackage a\n";

/// Holds a session at a seat, and asserts its replies.
fn converses<L: Opening, R: Wait + Abort>(
    rt: &R,
    alloc: Global,
    shared: &Shared<L>,
    seat: &mut Seat<L>,
    sent: &str,
    told: &str,
)
    requires { (receipts : List Receipt) → ∥ L.accounts receipts ∥₁ }
{
    let output: Vec<u8> = Vec::new(alloc);
    let connection = Connection {
        input: sent.as_bytes(),
        output,
    };
    let (ended, text) = session_at_seat(rt, alloc, shared, seat, connection, Limits::FULL);
    let is_right = ended == Ok(()) && text.as_slice() == told.as_bytes();
    holds(rt, is_right);
}

/// What is known at another seat.
#[derive(Clone, Copy)]
struct KnownThere {
    /// A verdict, before faults are found and afterwards.
    before: bool,
    afterwards: bool,
    /// A unit, behind a rename of what was built, and behind another text.
    renamed: bool,
    replaced: bool,
}

/// Finds faults at one seat, and renames there. Returns what is known at the other.
fn known_there<L: Opening, R: Wait + Abort>(
    rt: &R,
    alloc: Global,
    shared: &Shared<L>,
    one: &mut Seat<L>,
    other: &mut Seat<L>,
) -> KnownThere
    requires { (receipts : List Receipt) → ∥ L.accounts receipts ∥₁ }
{
    put(rt, alloc, shared, one);
    let before = is_known(rt, shared, other);
    find_at(rt, alloc, shared, one);
    let afterwards = is_known(rt, shared, other);
    converses(
        rt,
        alloc,
        shared,
        one,
        RENAMES,
        "ok 2 0\nok 2 2\na\nok 3 0\n",
    );
    let renamed = has_unit(rt, shared, other);
    converses(rt, alloc, shared, one, REPLACES, "ok 4 0\n");
    let replaced = has_unit(rt, shared, other);
    KnownThere {
        before,
        afterwards,
        renamed,
        replaced,
    }
}

/// What is known at one of two seats, where the other finds faults and renames.
fn known_around<L: Opening, R: Wait + Abort>(
    rt: &R,
    alloc: Global,
    blank: Blank,
    log: NewLog<Graph>,
) -> KnownThere
    requires log { log ≡ L.versions }
    requires name { blank.name ≡ L.name }
    requires parts { blank.parts ≡ L.parts }
    requires seats { blank.parts ≡ 2 }
    requires from { L.from ≡ 0 }
    requires begun { L.begun ≡ 0 }
    requires most { L.most ≡ 1000000 }
    requires limits { L.limits ≡ full_limits }
    requires accounts { (receipts : List Receipt) → ∥ L.accounts receipts ∥₁ }
{
    let book = Book::new(alloc, Limits::FULL).expect(rt, "memory");
    let (shared, mut free) = Shared::<L>::new(alloc, blank, book, None, 2, 1_000, log);
    let mut one = free.take(alloc);
    let mut other = free.take(alloc);
    let known = known_there(rt, alloc, &shared, &mut one, &mut other);
    let book = match shared.settle(free, Vec::new(alloc)) {
        Ok(book) => book,
        Err(Unsettled { book }) => book,
    };
    let _entries = book.close();
    known
}

/// What is known over a book of its own.
fn known_alone<R: Wait + Abort>(rt: &R, alloc: Global) -> KnownThere {
    known_around::<Brand, R>(rt, alloc, Blank::new(2), NewLog::new())
}

#[test]
fn found_at_a_seat(rt: HostRuntime) {
    let known = known_alone(&rt, rt.alloc());
    holds(&rt, !known.before);
    holds(&rt, known.afterwards);
}

/// A unit that is known behind the rename is not built again.
#[test]
fn carried_at_a_seat(rt: HostRuntime) {
    let known = known_alone(&rt, rt.alloc());
    holds(&rt, known.renamed);
    holds(&rt, !known.replaced);
}
