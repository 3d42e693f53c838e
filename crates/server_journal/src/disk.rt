//! The file of a server's journal.
ghost use Rattle.std.specs.Prelude.{None};

use crate::store::Store;
use std::alloc::Global;
use std::fs::{File, OpenOptions};
use std::io;
use std::io::{Read, Write};
use std::os::unix::fs::OpenOptionsExt;
use std::rt::Files;

/// Only its owner may read and write the file.
const OWNER_ALONE: u32 = 0o600;

/// A file that grows at its end. Its folder is held until the store is dropped.
#[derive(Drop)]
pub struct DiskStore {
    file: File,
    lock: File,
}

impl Store for DiskStore {
    ghost holds = { λ _. None };

    fn append(&mut self, bytes: &[u8]) -> io::Result<()> {
        self.file.write_all(bytes)?;
        self.file.sync_data()
    }

    fn held_bytes(&self) -> io::Result<u64> {
        Ok(self.file.metadata()?.len())
    }

    fn cut(&mut self, length: u64) -> io::Result<()> {
        self.file.set_len(length)?;
        self.file.sync_data()
    }
}

/// Opens a file for reading and for writing at its end, and makes it where there is none.
fn open_own<R: Files<File = File>>(rt: &R, path: &str) -> io::Result<File> {
    let mut options = OpenOptions::new();
    options
        .read(true)
        .append(true)
        .create(true)
        .mode(OWNER_ALONE);
    options.open(rt, path)
}

/// Opens the file of the lock of a folder.
pub(crate) fn open_lock<R: Files<File = File>>(rt: &R, path: &str) -> io::Result<File> {
    open_own(rt, path)
}

/// Has what is in a folder flushed: which files it has.
pub(crate) fn sync_entries<R: Files<File = File>>(rt: &R, folder: &str) -> io::Result<()> {
    let opened = File::open(rt, folder)?;
    opened.sync_all()
}

/// Opens the file at a path, in a folder that is held by this lock. Returns it with the bytes that it holds.
pub(crate) fn open_store<R: Files<File = File>>(
    rt: &R,
    alloc: Global,
    path: &str,
    lock: File,
) -> io::Result<(DiskStore, Vec<u8>)> {
    let mut file = open_own(rt, path)?;
    let mut bytes = Vec::new(alloc);
    file.read_to_end(&mut bytes)?;
    Ok((DiskStore { file, lock }, bytes))
}
