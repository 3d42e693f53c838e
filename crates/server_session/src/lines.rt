//! The text lines of files, places, faults and compared objects.
ghost use Rattle.std.specs.Prelude.{◌≡◌, ◌++◌, IfOk, OnOk};
ghost use Rattle.base_files.specs.PlaceText.{place_text, fault_line};
ghost use Rattle.server_session.specs.Listings.{change_word, fault_lines, file_line, listing, object_line, object_lines, place_lines};

use base_files::{FileText, Files, Path, Place};
use history_objects::{ComparedObject, ObjectChange};
use itoa::Buffer;
use std::alloc::{AllocError, Global};
use workspace_check::FileFault;

/// Appends the line of one file: its path and its size in bytes.
fn push_file(lines: &mut Vec<u8>, path: &Path, text: &FileText) -> Result<(), AllocError>
    ensures { OnOk result (lines.new.items ≡ lines.old.items ++ file_line path.now text.now) }
{
    let mut digits = Buffer::new();
    lines.extend_from_slice(path.as_str().as_bytes())?;
    lines.extend_from_slice(b" ")?;
    lines.extend_from_slice(digits.format(text.len()).as_bytes())?;
    lines.extend_from_slice(b"\n")
}

/// The lines of all files, in the order of paths.
pub(crate) fn listing(alloc: Global, files: &Files) -> Result<Vec<u8>, AllocError>
    ensures { IfOk result (λ lines. lines.items ≡ listing files.now) }
{
    let mut lines = Vec::new(alloc);
    for (path, text) in files.iter() {
        push_file(&mut lines, path, text)?;
    }
    Ok(lines)
}

/// Appends a place: `path:#offset`.
fn push_place(lines: &mut Vec<u8>, place: &Place) -> Result<(), AllocError>
    ensures { OnOk result (lines.new.items ≡ lines.old.items ++ place_text place.now) }
{
    let mut digits = Buffer::new();
    lines.extend_from_slice(place.path.as_str().as_bytes())?;
    lines.extend_from_slice(b":#")?;
    lines.extend_from_slice(digits.format(place.offset).as_bytes())
}

/// The lines of places, in their order.
pub(crate) fn place_lines(alloc: Global, places: &[Place]) -> Result<Vec<u8>, AllocError>
    ensures { IfOk result (λ lines. lines.items ≡ place_lines places.now) }
{
    let mut lines = Vec::new(alloc);
    for place in places {
        push_place(&mut lines, place)?;
        lines.push(b'\n')?;
    }
    Ok(lines)
}

/// Appends the line of one fault: its place and its kind.
fn push_fault(lines: &mut Vec<u8>, fault: &FileFault) -> Result<(), AllocError>
    ensures { OnOk result (lines.new.items ≡ lines.old.items ++ fault_line fault.now.place fault.now.kind) }
{
    push_place(lines, &fault.place)?;
    lines.extend_from_slice(b" ")?;
    lines.extend_from_slice(fault.kind.name().as_bytes())?;
    lines.extend_from_slice(b"\n")
}

/// The lines of faults, in their order.
pub(crate) fn fault_lines(alloc: Global, faults: &[FileFault]) -> Result<Vec<u8>, AllocError>
    ensures { IfOk result (λ lines. lines.items ≡ fault_lines faults.now) }
{
    let mut lines = Vec::new(alloc);
    for fault in faults {
        push_fault(&mut lines, fault)?;
    }
    Ok(lines)
}

/// The word of how an object compares with that in another state.
fn change_word(change: ObjectChange) -> &'static str
    ensures { result.now ≡ change_word change }
{
    match change {
        ObjectChange::Equal => "equal",
        ObjectChange::Differs => "differs",
        ObjectChange::Missing => "missing",
    }
}

/// Appends the line of one package: how its object compares, and its path.
fn push_object(lines: &mut Vec<u8>, object: &ComparedObject) -> Result<(), AllocError>
    ensures { OnOk result (lines.new.items ≡ lines.old.items ++ object_line object.now) }
{
    lines.extend_from_slice(change_word(object.change).as_bytes())?;
    lines.extend_from_slice(b" ")?;
    lines.extend_from_slice(object.package.path())?;
    lines.extend_from_slice(b"\n")
}

/// The lines of packages, each with how its object compares, in their order.
pub(crate) fn object_lines(alloc: Global, objects: &[ComparedObject]) -> Result<Vec<u8>, AllocError>
    ensures { IfOk result (λ lines. lines.items ≡ object_lines objects.now) }
{
    let mut lines = Vec::new(alloc);
    for object in objects {
        push_object(&mut lines, object)?;
    }
    Ok(lines)
}
