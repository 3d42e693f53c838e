//! Tests Jobs that are held, and handed in late, twice, in another's place or to another book.
use crate::assertion::{file, holds};
use base_files::{Limits, Refusal};
use build_unit::{Built, Job, build};
use history_book::{Book, Changing, Handed, HandingIn, Looking, Taking};
use std::alloc::Global;
use std::process::Abort;
use workspace_snapshot::{MadeChange, plan_put};

/// 58 bytes.
const A: &str = "package a\n\nvar x int\n\nfunc F(y int) int {\n\treturn x + y\n}\n";

/// `A` with the name `z` for `x`.
const RENAMED: &str = "package a\n\nvar z int\n\nfunc F(y int) int {\n\treturn z + y\n}\n";

/// 10 bytes.
const B: &str = "package b\n";

/// What is answered where a Job is handed in: that it is done, in the state of a number, or the number of a refusal.
#[derive(Clone, Copy, PartialEq, Eq)]
enum Answer {
    Done(u64),
    /// The state has changed since the Job was taken. The number is that of the current state.
    Late(u64),
    Twice,
    /// The Job came back, since it is not out.
    NotOut,
    Other,
}

/// The book, and a second one of the same files, on which its changes are planned.
struct Books {
    book: Book,
    plans: Book,
}

fn new_books(rt: &impl Abort, alloc: Global) -> Books {
    Books {
        book: Book::new(alloc, Limits::FULL).expect(rt, "memory"),
        plans: Book::new(alloc, Limits::FULL).expect(rt, "memory"),
    }
}

/// A put of a text, planned on the current files of a book.
fn planned(
    rt: &impl Abort,
    alloc: Global,
    book: &mut Book,
    path: &str,
    text: &str,
) -> Result<MadeChange, Refusal> {
    let file = file(rt, alloc, text.as_bytes());
    let view = book.step(Looking).ok().expect(rt, "a view");
    plan_put(alloc, view.snapshot.get(), path, file)
}

impl Books {
    /// Puts a text, and asserts that the state after the one with this number is current.
    fn put(&mut self, rt: &impl Abort, alloc: Global, basis: u64, path: &str, text: &str) {
        let change = planned(rt, alloc, &mut self.plans, path, text);
        let again = planned(rt, alloc, &mut self.plans, path, text);
        let again = again.ok().expect(rt, "a change");
        let _same = self.plans.step(Changing::Commit(basis, again));
        let change = change.ok().expect(rt, "a change");
        self.changes(rt, Changing::Commit(basis, change), basis.saturating_add(1));
    }

    /// Asserts that a change makes the state of this number current.
    fn changes(&mut self, rt: &impl Abort, change: Changing, number: u64) {
        match self.book.step(change) {
            Ok(current) => holds(rt, current == number),
            Err(_) => holds(rt, false),
        }
    }

    /// Takes a Job, and asserts its ticket.
    fn take(&mut self, rt: &impl Abort, ticket: u64) -> Job {
        let job = self.book.step(Taking).ok().expect(rt, "a Job");
        holds(rt, job.ticket() == ticket);
        job
    }

    /// Asserts that nothing is left to be built, and how many entries the journal has then. Closes both books.
    fn end(self, rt: &impl Abort, entries: u64) {
        let Books {
            mut book,
            mut plans,
        } = self;
        match book.step(Taking) {
            Ok(job) => {
                drop(job.retire());
                holds(rt, false)
            }
            Err(refusal) => holds(rt, matches!(&refusal, Refusal::NoJob)),
        }
        let _planned = plans.close();
        holds(rt, book.close() == entries);
    }
}

fn built(rt: &impl Abort, alloc: Global, job: &Job) -> Built {
    build(alloc, job).expect(rt, "memory")
}

/// The answer to a Job that is handed in. A Job that comes back is handed in to its own book.
fn answer_in(handed: Handed, own: &mut Book) -> Answer {
    match handed {
        Handed::Done(number) => Answer::Done(number),
        Handed::Refused(refusal) => match &refusal {
            Refusal::Stale { current } => Answer::Late(*current),
            Refusal::Already => Answer::Twice,
            _ => Answer::Other,
        },
        Handed::Back(refusal, job, built) => {
            drop(built);
            match own.step(HandingIn::GiveBack(job)) {
                Handed::Done(_) => match &refusal {
                    Refusal::NoJob => Answer::NotOut,
                    _ => Answer::Other,
                },
                Handed::Refused(_refused) => Answer::Other,
                Handed::Back(_again, job, none) => {
                    drop(none);
                    drop(job.retire());
                    Answer::Other
                }
            }
        }
    }
}

/// Delivers what was built for a Job.
fn deliver(rt: &impl Abort, alloc: Global, books: &mut Books, job: Job) -> Answer {
    let built = built(rt, alloc, &job);
    let handed = books.book.step(HandingIn::Deliver(job, built));
    answer_in(handed, &mut books.plans)
}

/// Two Jobs are out at once. What was built for the second is delivered in the first one's place.
#[test]
fn in_anothers_place(rt: HostRuntime) {
    let alloc = rt.alloc();
    let mut books = new_books(&rt, alloc);
    books.put(&rt, alloc, 0, "a/a.go", A);
    books.put(&rt, alloc, 1, "b/b.go", B);
    let first = books.take(&rt, 0);
    let second = books.take(&rt, 1);
    let other = built(&rt, alloc, &second);
    let handed = books.book.step(HandingIn::Deliver(first, other));
    holds(&rt, answer_in(handed, &mut books.plans) == Answer::Late(2));
    let third = books.take(&rt, 2);
    holds(
        &rt,
        deliver(&rt, alloc, &mut books, second) == Answer::Done(2),
    );
    holds(
        &rt,
        deliver(&rt, alloc, &mut books, third) == Answer::Done(2),
    );
    books.end(&rt, 9);
}

/// A Job of a state that was left and came back is held, until another one of its package was delivered.
#[test]
fn late_and_twice(rt: HostRuntime) {
    let alloc = rt.alloc();
    let mut books = new_books(&rt, alloc);
    books.put(&rt, alloc, 0, "a/a.go", A);
    books.put(&rt, alloc, 1, "a/a.go", RENAMED);
    let held = books.take(&rt, 0);
    books.changes(&rt, Changing::Undo(2), 1);
    let late = books.take(&rt, 1);
    books.changes(&rt, Changing::Redo(1), 2);
    holds(
        &rt,
        deliver(&rt, alloc, &mut books, late) == Answer::Late(2),
    );
    let next = books.take(&rt, 2);
    holds(
        &rt,
        deliver(&rt, alloc, &mut books, next) == Answer::Done(2),
    );
    holds(&rt, deliver(&rt, alloc, &mut books, held) == Answer::Twice);
    books.end(&rt, 11);
}

/// Another change comes before the delivery.
#[test]
fn after_a_change(rt: HostRuntime) {
    let alloc = rt.alloc();
    let mut books = new_books(&rt, alloc);
    books.put(&rt, alloc, 0, "a/a.go", A);
    let held = books.take(&rt, 0);
    books.put(&rt, alloc, 1, "b/b.go", B);
    holds(
        &rt,
        deliver(&rt, alloc, &mut books, held) == Answer::Late(2),
    );
    let Books { book, plans } = books;
    let _planned = plans.close();
    holds(&rt, book.close() == 4);
}

/// A Job of another book comes back, built or not, and its own book takes it.
#[test]
fn to_another_book(rt: HostRuntime) {
    let alloc = rt.alloc();
    let mut books = new_books(&rt, alloc);
    books.put(&rt, alloc, 0, "a/a.go", A);
    let strange = books.plans.step(Taking).ok().expect(&rt, "a Job");
    holds(
        &rt,
        deliver(&rt, alloc, &mut books, strange) == Answer::NotOut,
    );
    let again = books.plans.step(Taking).ok().expect(&rt, "a Job");
    let handed = books.book.step(HandingIn::GiveBack(again));
    holds(&rt, answer_in(handed, &mut books.plans) == Answer::NotOut);
    let own = books.take(&rt, 0);
    holds(&rt, deliver(&rt, alloc, &mut books, own) == Answer::Done(1));
    books.end(&rt, 6);
}
