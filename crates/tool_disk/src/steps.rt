//! Single steps on the disk: real paths, new files that are flushed, and the journals of a folder.
ghost use Rattle.std.specs.Prelude.{◌≡◌, ◌+◌, [], IfOk, min};
ghost use Rattle.std.specs.Fs.{metadata_len};

use crate::fault::{ToolFault, at, told};
use crate::paths::{below, folder_and_name};
use std::alloc::{AllocError, Global};
use std::fs::{File, Metadata, OpenFile, OpenOptions};
use std::io::{ErrorKind, Read, Write};
use std::os::unix::fs::{MetadataExt, OpenOptionsExt, lchown};
use std::rt::Files;
use std::{fs, io};

/// The journal while new texts are written beside their files.
pub(crate) const PREPARE: &str = ".gorefd-prepare";

/// The journal while new texts are put in place.
pub(crate) const COMMIT: &str = ".gorefd-commit";

/// How much room a file is given before it is read, at most, in bytes. A longer file is read all the same.
const MOST_ROOM: u64 = 65_536;

/// The permissions of a file that its owner alone may read.
const OWN_ALONE: u32 = 0o600;

/// The path of a file behind symbolic links.
pub(crate) fn real_path<R: Files + AllocGlobal>(
    rt: &R,
    root: &str,
    path: &str,
) -> Result<String, ToolFault> {
    let alloc = rt.alloc();
    let place = below(alloc, root, path)?;
    let real = at(alloc, path, fs::canonicalize(rt, place.as_str()))?;
    let text = String::from_str(alloc, real.as_str())?;
    Ok(text)
}

/// The path of a file behind symbolic links, or its path where it leads to no file any more.
pub(crate) fn real_or_own_path<R: Files + AllocGlobal>(
    rt: &R,
    root: &str,
    path: &str,
) -> Result<String, ToolFault> {
    let alloc = rt.alloc();
    let place = below(alloc, root, path)?;
    match fs::canonicalize(rt, place.as_str()) {
        Ok(real) => {
            let text = String::from_str(alloc, real.as_str())?;
            Ok(text)
        }
        Err(error) if error.kind() == ErrorKind::NotFound => Ok(place),
        Err(error) => at(alloc, path, Err(error)),
    }
}

/// Whether nothing stands at a place, not even a symbolic link that leads nowhere. Nothing stands where the name is too long.
pub(crate) fn is_free<R: Files + AllocGlobal>(
    rt: &R,
    path: &str,
    place: &str,
) -> Result<bool, ToolFault> {
    match fs::symlink_metadata(rt, place) {
        Ok(_) => Ok(false),
        Err(error) if is_of_nothing(&error) => Ok(true),
        Err(error) => at(rt.alloc(), path, Err(error)),
    }
}

/// Whether an error says that nothing can stand at a path.
fn is_of_nothing(error: &io::Error) -> bool {
    error.kind() == ErrorKind::NotFound || error.kind() == ErrorKind::InvalidFilename
}

/// Whether a symbolic link stands at a path. None does where nothing stands.
fn is_link<R: Files + AllocGlobal>(rt: &R, path: &str) -> Result<bool, ToolFault> {
    match fs::symlink_metadata(rt, path) {
        Ok(data) => Ok(data.is_symlink()),
        Err(error) if error.kind() == ErrorKind::NotFound => Ok(false),
        Err(error) => at(rt.alloc(), path, Err(error)),
    }
}

/// Whether a folder above a path, below the root, is a symbolic link. Such a path may lead out of the root.
pub(crate) fn lies_behind_link<R: Files + AllocGlobal>(
    rt: &R,
    root: &str,
    path: &str,
) -> Result<bool, ToolFault> {
    let alloc = rt.alloc();
    let mut folder = below(alloc, root, "")?;
    for name in path.split('/') {
        // (the root itself may be one: a slash is behind it)
        if is_link(rt, folder.as_str())? {
            return Ok(true);
        }
        folder = below(alloc, folder.as_str(), name)?;
    }
    Ok(false)
}

/// Gives a new file the owner and the group of another one, where they differ, and its permissions. A symbolic link that took its place
/// meanwhile leads nowhere else.
fn give_same<R: Files, F: OpenFile>(
    rt: &R,
    path: &str,
    file: &F,
    like: &Metadata,
) -> io::Result<()> {
    let new = file.metadata()?;
    if new.uid() != like.uid() || new.gid() != like.gid() {
        lchown(rt, path, Some(like.uid()), Some(like.gid()))?;
    }
    file.set_permissions(like.permissions())
}

/// Writes bytes to a new file, which others may read as far as they may read another one.
fn fill<R: Files, F: Write + OpenFile>(
    rt: &R,
    path: &str,
    file: &mut F,
    bytes: &[u8],
    like: Option<&Metadata>,
) -> io::Result<()> {
    file.write_all(bytes)?;
    match like {
        Some(like) => give_same(rt, path, file, like),
        None => Ok(()),
    }
}

/// Writes a new file. It is as open to others as the file that it is like, if there is one, and never more. Where that fails, no file is left.
/// It is not flushed.
pub(crate) fn write_new<R: Files>(
    rt: &R,
    path: &str,
    bytes: &[u8],
    like: Option<&Metadata>,
) -> io::Result<()> {
    let mut options = OpenOptions::new();
    options.write(true).create_new(true);
    if like.is_some() {
        options.mode(OWN_ALONE);
    }
    let mut file = options.open(rt, path)?;
    let filled = fill(rt, path, &mut file, bytes, like);
    if filled.is_err() {
        let _ = fs::remove_file(rt, path);
    }
    filled
}

/// Flushes a file, so that its text stays, or a folder, so that the names in it stay.
pub(crate) fn sync<R: Files>(rt: &R, path: &str) -> io::Result<()> {
    let file = File::open(rt, path)?;
    file.sync_all()
}

/// Flushes the folder of a path, so that the names in it stay.
pub(crate) fn sync_folder<R: Files>(rt: &R, path: &str) -> io::Result<()> {
    let (folder, _) = folder_and_name(path);
    sync(rt, folder)
}

/// Flushes all folders above a path, from the root down, so that the path stays.
pub(crate) fn sync_above<R: Files + AllocGlobal>(
    rt: &R,
    root: &str,
    path: &str,
) -> Result<(), ToolFault> {
    let alloc = rt.alloc();
    let mut folder = below(alloc, root, "")?;
    for name in path.split('/') {
        at(alloc, path, sync(rt, folder.as_str()))?;
        folder = below(alloc, folder.as_str(), name)?;
    }
    Ok(())
}

/// The mark of the next run in a folder: the device and the number of the folder, and when it last changed. Each run changes the folder, and
/// no other folder has the same device and number. So no two runs have the same mark.
pub(crate) fn next_mark<R: Files + AllocGlobal>(rt: &R, root: &str) -> Result<String, ToolFault> {
    let alloc = rt.alloc();
    let path = below(alloc, root, "")?;
    let data = at(alloc, root, fs::metadata(rt, path.as_str()))?;
    let (device, number) = (data.dev(), data.ino());
    let (seconds, parts) = changed_at(&data);
    let mark = format!(in alloc; "{device}-{number}-{seconds}-{parts}")?;
    Ok(mark)
}

/// When the text, the name or the permissions of a file last changed: seconds, and billionths of one.
fn changed_at(data: &Metadata) -> (i64, i64) {
    (data.ctime(), data.ctime_nsec())
}

/// Whether a file was changed after another one.
pub(crate) fn is_later<R: Files>(rt: &R, path: &str, other: &Metadata) -> io::Result<bool> {
    let data = fs::metadata(rt, path)?;
    Ok(changed_at(&data) > changed_at(other))
}

/// The room that a file is given before it is read: its length and a byte more, so that one read takes it and a second one finds its end.
fn room_for(metadata: &Metadata) -> usize
    ensures { result ≡ min (metadata_len metadata.now) 65536 + 1 }
{
    let length = metadata.len().min(MOST_ROOM);
    (length as usize) + 1
}

/// No bytes, with room for a file.
fn with_room(alloc: Global, metadata: &Metadata) -> Result<Vec<u8>, AllocError>
    ensures { IfOk result (λ bytes. bytes.items ≡ []) }
{
    Vec::with_capacity(alloc, room_for(metadata))
}

/// Reads a file to its end, whatever length it was said to have.
pub(crate) fn read_whole<R: Files + AllocGlobal>(rt: &R, place: &str) -> io::Result<Vec<u8>> {
    let mut file = fs::open(rt, place)?;
    let metadata = file.metadata()?;
    let mut bytes = with_room(rt.alloc(), &metadata)?;
    file.read_to_end(&mut bytes)?;
    Ok(bytes)
}

/// Reads a regular file, and opens nothing else.
fn read_regular<R: Files + AllocGlobal>(rt: &R, place: &str) -> io::Result<Option<Vec<u8>>> {
    if fs::metadata(rt, place)?.is_file() {
        Ok(Some(read_whole(rt, place)?))
    } else {
        Ok(None)
    }
}

/// The text of the file at a place, over symbolic links, or `None` where nothing stands there. Whatever else stands there is refused and not
/// read: a pipe or a device may have no end.
pub(crate) fn text_there<R: Files + AllocGlobal>(
    rt: &R,
    path: &str,
    place: &str,
) -> Result<Option<Vec<u8>>, ToolFault> {
    let alloc = rt.alloc();
    match read_regular(rt, place) {
        Ok(Some(text)) => Ok(Some(text)),
        Ok(None) => Err(told(alloc, path, "it is no regular file")),
        Err(error) if error.kind() == ErrorKind::NotFound => Ok(None),
        Err(error) => at(alloc, path, Err(error)),
    }
}

/// The text of a journal of the folder, or `None` where there is none.
pub(crate) fn journal_there<R: Files + AllocGlobal>(
    rt: &R,
    root: &str,
    name: &str,
) -> Result<Option<Vec<u8>>, ToolFault> {
    let path = below(rt.alloc(), root, name)?;
    text_there(rt, name, path.as_str())
}

/// Removes a journal of the folder.
pub(crate) fn remove_journal<R: Files + AllocGlobal>(
    rt: &R,
    root: &str,
    name: &str,
) -> Result<(), ToolFault> {
    let alloc = rt.alloc();
    let path = below(alloc, root, name)?;
    at(alloc, name, fs::remove_file(rt, path.as_str()))?;
    at(alloc, name, sync_folder(rt, path.as_str()))
}
