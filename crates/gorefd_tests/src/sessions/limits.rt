//! Tests sessions with lowered limits.
use base_files::Limits;
use server_session::{SessionFault, session_alone};
use std::alloc::Global;
use std::process::Abort;

/// A put of 58 bytes, and one of 10 bytes in another package.
const PUTS: &str =
    "put 0 a/a.go 58\npackage a\n\nvar x int\n\nfunc F(y int) int {\n\treturn x + y\n}\nput 1 b/b.go 10\npackage b\n";

/// Asserts how a session with these limits ends, and what it is told. It is a session over a book of its own.
fn is_told(
    rt: &impl Abort,
    alloc: Global,
    limits: Limits,
    sent: &str,
    ended: Result<(), SessionFault>,
    told: &str,
) {
    let (found, text) = session_alone(alloc, sent.as_bytes(), Vec::new(alloc), limits);
    let is_right = found == ended && text.as_slice() == told.as_bytes();
    assert!(rt; is_right);
}

#[test]
fn sizes(rt: HostRuntime) {
    let alloc = rt.alloc();
    let mut limits = Limits::FULL;
    limits.file_bytes = 57;
    is_told(&rt, alloc, limits, PUTS, Ok(()), "no 5 0\nno 6 2\n0\n");
    limits.file_bytes = 58;
    limits.total_bytes = 68;
    limits.files = 2;
    limits.packages = 2;
    is_told(&rt, alloc, limits, PUTS, Ok(()), "ok 1 0\nok 2 0\n");
    limits.total_bytes = 67;
    is_told(&rt, alloc, limits, PUTS, Ok(()), "ok 1 0\nno 5 0\n");
    limits.total_bytes = 68;
    limits.files = 1;
    is_told(&rt, alloc, limits, PUTS, Ok(()), "ok 1 0\nno 5 0\n");
    limits.files = 2;
    limits.packages = 1;
    is_told(&rt, alloc, limits, PUTS, Ok(()), "ok 1 0\nno 5 0\n");
}

#[test]
fn steps_of_undo(rt: HostRuntime) {
    let mut limits = Limits::FULL;
    limits.undo_depth = 1;
    let sent = "put 0 a/a.go 10\npackage a\nput 1 b/b.go 10\npackage b\nundo 2\nundo 1\n";
    let told = "ok 1 0\nok 2 0\nok 1 0\nno 7 0\n";
    is_told(&rt, rt.alloc(), limits, sent, Ok(()), told);
}

/// A look is an entry, and so is the look of a put, and the put.
#[test]
fn entries(rt: HostRuntime) {
    let mut limits = Limits::FULL;
    limits.journal = 3;
    let sent = "look\nput 0 a/a.go 10\npackage a\nlook\n";
    let told = "ok 0 14\nundo 0 redo 0\nok 1 0\nno 19 0\n";
    is_told(&rt, rt.alloc(), limits, sent, Ok(()), told);
}

/// A line is read byte by byte, and one more read finds the end of the input.
#[test]
fn reads(rt: HostRuntime) {
    let alloc = rt.alloc();
    let told = "ok 0 14\nundo 0 redo 0\n";
    let mut limits = Limits::FULL;
    limits.reads = 2;
    is_told(&rt, alloc, limits, "look\n", Err(SessionFault::Turns), "");
    limits.reads = 5;
    is_told(&rt, alloc, limits, "look\n", Err(SessionFault::Turns), told);
    limits.reads = 6;
    is_told(&rt, alloc, limits, "look\n", Ok(()), told);
}
