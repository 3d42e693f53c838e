//! The path of a server's socket, which one server holds at a time: by a lock on the file `PATH.lock`, which stays.
ghost use Rattle.std.specs.Prelude.{◌≢◌, IfErr};

use crate::fault::ServeFault;
use std::alloc::{AllocError, Global};
use std::fs::{File, OpenOptions, TryLockError};
use std::os::unix::fs::{MetadataExt, OpenOptionsExt};
use std::rt::Files;
use std::{fs, io};

/// Only the owner of a lock's file may write there.
const OWNER_WRITES: u32 = 0o600;

/// The rights of all but a file's owner.
const RIGHTS_OF_OTHERS: u32 = 0o077;

/// How the end of a server is asked for.
#[derive(Clone, Copy)]
pub(crate) enum EndWord {
    /// Its sessions come to their ends.
    Stop,
    /// Their connections are shut.
    Now,
}

impl EndWord {
    /// What is written into the file of the lock. The second word begins with the first, and may be written over it.
    pub(crate) fn text(self) -> &'static str {
        match self {
            EndWord::Stop => "stop\n",
            EndWord::Now => "stop now\n",
        }
    }
}

/// The word of which so many bytes were written, or none where nothing was.
fn word_of(bytes: u64) -> Option<EndWord> {
    if bytes == 0 {
        None
    } else if bytes < EndWord::Now.text().len() as u64 {
        Some(EndWord::Stop)
    } else {
        Some(EndWord::Now)
    }
}

/// The path of a socket, held until each handle of it is dropped.
#[derive(Drop)]
pub(crate) struct HeldPath {
    lock: File,
}

/// The path of the file whose lock holds the path of a socket.
pub(crate) fn lock_beside(alloc: Global, path: &str) -> Result<String, AllocError> {
    format!(in alloc; "{path}.lock")
}

/// Whether something other than a file stands at a path. A symbolic link is no file here.
fn is_taken<R: Files>(rt: &R, place: &str) -> bool {
    match fs::symlink_metadata(rt, place) {
        Ok(data) => !data.is_file(),
        Err(_) => false,
    }
}

/// Whether the open file stands at its path itself, behind no link, and only its owner has rights on it.
fn is_own<R: Files>(rt: &R, file: &File, place: &str) -> io::Result<bool> {
    let opened = file.metadata()?;
    let standing = fs::symlink_metadata(rt, place)?;
    let is_same = opened.dev() == standing.dev() && opened.ino() == standing.ino();
    Ok(is_same && opened.nlink() == 1 && opened.mode() & RIGHTS_OF_OTHERS == 0)
}

/// What is told where a file is not its own.
fn denied() -> io::Error {
    io::Error::from(io::ErrorKind::PermissionDenied)
}

/// Opens the file of a lock, and makes it where there is none. It fails where something else stands there, or others have rights on it.
fn open_lock<R: Files<File = File>>(rt: &R, place: &str) -> io::Result<File> {
    let mut options = OpenOptions::new();
    options.write(true).create(true).mode(OWNER_WRITES);
    if is_taken(rt, place) {
        return Err(denied());
    }
    let file = options.open(rt, place)?;
    if is_own(rt, &file, place)? {
        Ok(file)
    } else {
        Err(denied())
    }
}

/// Takes the lock, and takes back a word that an earlier `gorefd stop` left.
fn held(lock: File) -> Result<HeldPath, ServeFault>
    ensures { IfErr result (λ fault. fault ≢ ServeFault.Unsettled) }
{
    match lock.try_lock() {
        Err(TryLockError::WouldBlock) => Err(ServeFault::InUse),
        Err(TryLockError::Error(_)) => Err(ServeFault::Socket),
        Ok(()) => match lock.set_len(0) {
            Ok(()) => Ok(HeldPath { lock }),
            Err(_) => Err(ServeFault::Socket),
        },
    }
}

/// Holds the path of a socket, or refuses it where another server holds it.
pub(crate) fn hold<R: Files<File = File>>(
    rt: &R,
    alloc: Global,
    path: &str,
) -> Result<HeldPath, ServeFault>
    ensures { IfErr result (λ fault. fault ≢ ServeFault.Unsettled) }
{
    let place = lock_beside(alloc, path)?;
    match open_lock(rt, place.as_str()) {
        Ok(lock) => held(lock),
        Err(_) => Err(ServeFault::Socket),
    }
}

impl HeldPath {
    /// One more handle of the path.
    pub(crate) fn share(&self) -> Result<HeldPath, ServeFault>
        ensures { IfErr result (λ fault. fault ≢ ServeFault.Unsettled) }
    {
        match self.lock.try_clone() {
            Ok(lock) => Ok(HeldPath { lock }),
            Err(_) => Err(ServeFault::Socket),
        }
    }

    /// Whether what stands at `path` is of the user whose the file of the lock is.
    pub(crate) fn has_owner_of<R: Files>(&self, rt: &R, path: &str) -> io::Result<bool> {
        let standing = fs::symlink_metadata(rt, path)?;
        Ok(standing.uid() == self.lock.metadata()?.uid())
    }

    /// How `gorefd stop` asked for the end of the server, if it did: it wrote a word into the file of the lock.
    pub(crate) fn end_asked(&self) -> Option<EndWord> {
        match self.lock.metadata() {
            Ok(data) => word_of(data.len()),
            Err(_) => None,
        }
    }
}
