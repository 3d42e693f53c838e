//! Asks a server for its end.
use crate::held_path::{EndWord, lock_beside};
use std::alloc::AllocError;
use std::fs::{File, OpenOptions, TryLockError};
use std::io;
use std::io::Write;
use std::net::Net;
use std::os::unix::net::UnixStream;
use std::rt::Files;
use thiserror::Error;

/// Why no server was ended.
#[derive(Debug, Drop, Error)]
pub enum StopFault {
    /// Memory was wanting.
    #[error("memory fault")]
    Memory,
    /// No server is at work at the path, or it is another user's.
    #[error("no server is at work at this path")]
    NoServer,
    /// The server could not be asked.
    #[error("socket fault")]
    Socket,
}

impl From<AllocError> for StopFault {
    fn from(_: AllocError) -> StopFault {
        StopFault::Memory
    }
}

/// Opens the file of the lock that a server at a path holds, or finds that none holds it.
fn held_lock<R: Files<File = File>>(rt: &R, place: &str) -> Result<File, StopFault> {
    let mut options = OpenOptions::new();
    options.write(true);
    let Ok(lock) = options.open(rt, place) else {
        return Err(StopFault::NoServer);
    };
    match lock.try_lock() {
        Err(TryLockError::WouldBlock) => Ok(lock),
        Ok(()) => Err(StopFault::NoServer),
        Err(TryLockError::Error(_)) => Err(StopFault::Socket),
    }
}

/// Writes a word into the file of the lock, and connects to the socket, so that the server looks there.
fn write_word<R: Net>(rt: &R, lock: &mut File, path: &str, word: EndWord) -> io::Result<()> {
    lock.write_all(word.text().as_bytes())?;
    drop(UnixStream::connect(rt, path)?);
    Ok(())
}

/// Asks the server for its end, and waits until it lets the lock go. Where that fails the word is taken back, so that a server without a socket
/// yet does not end at its first connection.
fn ask<R: Net>(rt: &R, lock: File, path: &str, word: EndWord) -> io::Result<()> {
    let mut lock = lock;
    if let Err(fault) = write_word(rt, &mut lock, path, word) {
        let _ = lock.set_len(0);
        return Err(fault);
    }
    lock.lock()
}

/// Ends the server at a path, and returns once it has ended: its sessions have come to their ends, and its socket is gone. Where it is to end
/// now, the connections of sessions under way are shut. A server that could not be asked goes on.
pub fn stop<R: Files<File = File> + Net + AllocGlobal>(
    rt: &R,
    path: &str,
    is_now: bool,
) -> Result<(), StopFault> {
    let place = lock_beside(rt.alloc(), path)?;
    let lock = held_lock(rt, place.as_str())?;
    let word = if is_now { EndWord::Now } else { EndWord::Stop };
    match ask(rt, lock, path, word) {
        Ok(()) => Ok(()),
        Err(_) => Err(StopFault::Socket),
    }
}
