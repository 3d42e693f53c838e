//! Compares packed changes part by part, and texts byte by byte.
ghost use Rattle.std.specs.Prelude.{◌≡◌, ◌<◌, ◌↔◌, length, map, IsTrue};
ghost use Rattle.base_packed.specs.Packed.{HaveKinds, unpacked_edit};

use crate::packed::{EditKind, PackedEdit, PackedFile};
use base_edits::Fate;
use base_files::{FileText, Path};

/// A value that is compared with another in all its parts.
pub(crate) trait SameParts {
    /// Whether both values are equal.
    fn same(&self, other: &Self) -> bool
        ensures { IsTrue result ↔ (self.now ≡ other.now) };
}

/// Whether both lists have equal elements in the same order.
pub(crate) fn all_same<T: SameParts>(one: &[T], other: &[T]) -> bool
    ensures { IsTrue result ↔ (one.now ≡ other.now) }
{
    if one.len() != other.len() {
        return false;
    }
    for i in 0..one.len() {
        if !one[i].same(&other[i]) {
            return false;
        }
    }
    true
}

/// Whether both texts have the same bytes.
fn same_text(one: &FileText, other: &FileText) -> bool
    ensures { IsTrue result ↔ (one.now ≡ other.now) }
{
    *one == *other
}

fn same_path(one: &Path, other: &Path) -> bool
    ensures { IsTrue result ↔ (one.now ≡ other.now) }
{
    *one == *other
}

fn same_fate(one: &Fate, other: &Fate) -> bool
    ensures { IsTrue result ↔ (one.now ≡ other.now) }
{
    match (one, other) {
        (Fate::Stays, Fate::Stays) | (Fate::Dropped, Fate::Dropped) => true,
        (Fate::Moves(path), Fate::Moves(other_path)) => same_path(path, other_path),
        _ => false,
    }
}

impl SameParts for EditKind {
    fn same(&self, other: &EditKind) -> bool {
        self.size == other.size && same_text(&self.text, &other.text)
    }
}

impl SameParts for PackedFile {
    fn same(&self, other: &PackedFile) -> bool {
        self.count == other.count
            && same_path(&self.path, &other.path)
            && same_fate(&self.fate, &other.fate)
    }
}

impl SameParts for (Path, FileText) {
    fn same(&self, other: &(Path, FileText)) -> bool {
        same_path(&self.0, &other.0) && same_text(&self.1, &other.1)
    }
}

/// Whether two packed edits stand for equal edits.
fn same_edit(
    kinds: &[EditKind],
    edit: PackedEdit,
    other_kinds: &[EditKind],
    other: PackedEdit,
) -> bool
    requires kind { edit.kind < length kinds.now }
    requires other { other.kind < length other_kinds.now }
    ensures { IsTrue result ↔ (unpacked_edit kinds.now edit ≡ unpacked_edit other_kinds.now other) }
{
    if edit.start != other.start {
        return false;
    }
    let kind = &kinds[edit.kind as usize];
    let other_kind = &other_kinds[other.kind as usize];
    kind.same(other_kind)
}

/// Whether packed edits stand for equal edits in the same order.
pub(crate) fn same_edits(
    kinds: &[EditKind],
    edits: &[PackedEdit],
    other_kinds: &[EditKind],
    others: &[PackedEdit],
) -> bool
    requires edits { HaveKinds kinds.now edits.now }
    requires others { HaveKinds other_kinds.now others.now }
    ensures { IsTrue result ↔ (map (unpacked_edit kinds.now) edits.now ≡ map (unpacked_edit other_kinds.now) others.now) }
{
    if edits.len() != others.len() {
        return false;
    }
    for i in 0..edits.len() {
        if !same_edit(kinds, edits[i], other_kinds, others[i]) {
            return false;
        }
    }
    true
}
