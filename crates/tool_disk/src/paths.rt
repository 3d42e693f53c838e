//! Paths on the disk.
ghost use Rattle.std.specs.Prelude.{◌≡◌, ◌↔◌, IfOk, IsTrue, string_bytes};
ghost use Rattle.tool_disk.specs.RunJournals.{HasMarkBytes, IsRunMark, SplitsDiskPath, disk_path, folder_before_slash, is_mark_byte, path_joint};

use std::alloc::{AllocError, Global};

/// What stands between the path of a folder and a name in it.
fn path_joint(folder: &str) -> &'static str
    ensures { result.now ≡ path_joint folder.now }
{
    if folder.is_empty() || folder.as_bytes().ends_with(b"/".as_slice()) {
        ""
    } else {
        "/"
    }
}

/// The path of a file or folder below another one.
pub(crate) fn below(alloc: Global, folder: &str, name: &str) -> Result<String, AllocError>
    ensures { IfOk result (λ path. string_bytes path ≡ disk_path folder.now name.now) }
{
    let mut path = String::from_str(alloc, folder)?;
    path.push_str(path_joint(folder))?;
    path.push_str(name)?;
    Ok(path)
}

/// What stands before a slash, as a folder.
fn folder_before_slash(front: &str) -> &str
    ensures { result.now ≡ folder_before_slash front.now }
{
    if front.is_empty() { "/" } else { front }
}

/// The folder of a path, which is `.` where the path has no slash, and the name.
pub(crate) fn folder_and_name(path: &str) -> (&str, &str)
    ensures { SplitsDiskPath path.now result.0.now result.1.now }
{
    match path.rsplit_once('/') {
        Some((front, name)) => (folder_before_slash(front), name),
        None => (".", path),
    }
}

/// The path of the file that is written before it takes the place of the file at a path. Its name has the mark of the run that writes it.
pub(crate) fn beside(alloc: Global, path: &str, mark: &str) -> Result<String, AllocError> {
    let (folder, name) = folder_and_name(path);
    format!(in alloc; "{folder}/.{name}.{mark}.gorefd")
}

/// Whether a byte may be in the mark of a run.
fn is_mark_byte(byte: u8) -> bool
    ensures { result ≡ is_mark_byte byte }
{
    byte.is_ascii_digit() || byte == b'-'
}

/// Whether each byte of a text may be in the mark of a run.
fn has_mark_bytes(text: &str) -> bool
    ensures { IsTrue result ↔ HasMarkBytes text.now }
{
    text.as_bytes().iter().all(|byte| is_mark_byte(*byte))
}

/// Whether a text can be the mark of a run. It names no other folder.
pub(crate) fn is_mark(text: &str) -> bool
    ensures { IsTrue result ↔ IsRunMark text.now }
{
    !text.is_empty() && has_mark_bytes(text)
}
