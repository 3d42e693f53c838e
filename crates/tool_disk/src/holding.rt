//! Has one run at a time write in a folder.
use crate::fault::{ToolFault, at, told};
use crate::paths::below;
use std::fs::{File, TryLockError};
use std::rt::Files;

/// A folder that no other run holds. It is free again when the run ends, however it ends.
#[derive(Drop)]
pub struct HeldFolder {
    folder: File,
}

/// Holds a folder, or refuses it where another run is at work there.
pub fn hold<R: Files<File = File> + AllocGlobal>(
    rt: &R,
    root: &str,
) -> Result<HeldFolder, ToolFault> {
    let alloc = rt.alloc();
    let path = below(alloc, root, "")?;
    let folder = at(alloc, root, File::open(rt, path.as_str()))?;
    match folder.try_lock() {
        Ok(()) => Ok(HeldFolder { folder }),
        Err(TryLockError::WouldBlock) => Err(told(alloc, root, "another run is at work here")),
        Err(TryLockError::Error(error)) => at(alloc, root, Err(error)),
    }
}
