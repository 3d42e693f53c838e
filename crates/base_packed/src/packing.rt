//! Packs changes of files.
ghost use Rattle.std.specs.Prelude.{◌≡◌, ◌≤◌, ◌^◌, ◌++◌, ◌∷◌, [], IfErr, IfOk, IsTrue, OnOk};
ghost use Rattle.std.specs.List.{All};
ghost use Rattle.base_edits.specs.Edits.{AreInOrder};
ghost use Rattle.base_packed.specs.Packed.{ArePacked, packed_changes};
ghost use Rattle.base_packed.specs.Packing.{AddsChanges, PacksEdits, AddsKind, AreForward, EndsIn};

use crate::packed::{EditKind, PackedEdit, PackedFile};
use base_chunks::Same;
use base_edits::{Edit, Fate, FileChange};
use base_files::FileText;
use std::alloc::{AllocError, Global};

/// The three lists of packed changes.
#[derive(Drop)]
pub(crate) struct Packing {
    pub(crate) files: Vec<PackedFile>,
    pub(crate) edits: Vec<PackedEdit>,
    pub(crate) kinds: Vec<EditKind>,
}

/// A number in four bytes. One of 2^32 or more does not fit, which counts as want of memory.
fn in_four_bytes(number: usize) -> Result<u32, AllocError>
    ensures fits { IfOk result (λ short. short ≡ number) }
    ensures refused { IfErr result (λ _. 2 ^ 32 ≤ number) }
{
    if number > u32::MAX as usize {
        return Err(AllocError);
    }
    Ok(number as u32)
}

/// Whether a kind replaces so many bytes by this text.
fn is_kind(kind: &EditKind, size: u32, text: &FileText) -> bool
    ensures { IsTrue result → kind.now ≡ record { size = size; text = text.now } }
{
    kind.size == size && kind.text.same(text)
}

/// Whether the last kind replaces so many bytes by this text.
fn is_last(kinds: &[EditKind], size: u32, text: &FileText) -> bool
    ensures { IsTrue result → EndsIn (record { size = size; text = text.now }) kinds.now }
{
    match kinds.last() {
        Some(kind) => is_kind(kind, size, text),
        None => false,
    }
}

/// The number of a kind. It is that of the last one where this is the same, and otherwise the kind is appended.
fn kind_number(kinds: &mut Vec<EditKind>, size: u32, text: &FileText) -> Result<usize, AllocError>
    ensures { IfOk result (λ number. AddsKind (record { size = size; text = text.now }) kinds.old.items kinds.new.items number) }
{
    let count = kinds.len();
    if is_last(kinds, size, text) {
        return Ok(count - 1);
    }
    let text = text.clone()?;
    kinds.push(EditKind { size, text })?;
    Ok(count)
}

/// Appends an edit, and its kind where it isn't the last.
fn add_edit(
    kinds: &mut Vec<EditKind>,
    packed: &mut Vec<PackedEdit>,
    edit: &Edit,
) -> Result<(), AllocError>
    requires { edit.now.span.start ≤ edit.now.span.end }
    ensures { OnOk result (PacksEdits kinds.old.items kinds.new.items packed.old.items packed.new.items (edit.now ∷ [])) }
{
    let size = in_four_bytes(edit.span.end - edit.span.start)?;
    let number = kind_number(kinds, size, &edit.text)?;
    let kind = in_four_bytes(number)?;
    let start = in_four_bytes(edit.span.start)?;
    packed.push(PackedEdit { start, kind })?;
    Ok(())
}

/// Appends the edits of a file.
fn add_edits(
    kinds: &mut Vec<EditKind>,
    packed: &mut Vec<PackedEdit>,
    edits: &[Edit],
) -> Result<(), AllocError>
    requires { AreForward edits.now }
    ensures { OnOk result (PacksEdits kinds.old.items kinds.new.items packed.old.items packed.new.items edits.now) }
{
    for edit in edits {
        add_edit(kinds, packed, edit)?;
    }
    Ok(())
}

/// A copy of a fate.
fn same_fate_again(fate: &Fate) -> Result<Fate, AllocError>
    ensures { IfOk result (λ copy. copy ≡ fate.now) }
{
    match fate {
        Fate::Stays => Ok(Fate::Stays),
        Fate::Moves(path) => Ok(Fate::Moves(path.clone()?)),
        Fate::Dropped => Ok(Fate::Dropped),
    }
}

/// Appends a file without its edits, of which it has `count`.
fn add_file(
    files: &mut Vec<PackedFile>,
    change: &FileChange,
    count: usize,
) -> Result<(), AllocError>
    ensures { OnOk result (files.new.items ≡ files.old.items ++ record { path = change.now.path; fate = change.now.fate; count = count } ∷ []) }
{
    let path = change.path.clone()?;
    let fate = same_fate_again(&change.fate)?;
    files.push(PackedFile { path, fate, count })?;
    Ok(())
}

/// Appends the change of a file.
fn add_change(packing: &mut Packing, change: &FileChange) -> Result<(), AllocError>
    requires { AreForward change.now.edits }
    ensures { OnOk result (AddsChanges packing.old packing.new (change.now ∷ [])) }
{
    let edits = change.edits.as_slice();
    add_edits(&mut packing.kinds, &mut packing.edits, edits)?;
    add_file(&mut packing.files, change, edits.len())
}

/// Packs changes.
pub(crate) fn pack(alloc: Global, changed: &[FileChange]) -> Result<Packing, AllocError>
    requires { All (λ c. AreInOrder 0 c.edits) changed.now }
    ensures packed { IfOk result (λ made. ArePacked made.kinds.items made.files.items made.edits.items) }
    ensures same { IfOk result (λ made. packed_changes made.kinds.items made.files.items made.edits.items ≡ changed.now) }
{
    let files = Vec::with_capacity(alloc, changed.len())?;
    let mut packing = Packing {
        files,
        edits: Vec::new(alloc),
        kinds: Vec::new(alloc),
    };
    for change in changed {
        add_change(&mut packing, change)?;
    }
    packing.edits.shrink_to_fit();
    Ok(packing)
}
