//! What a rename does to an identifier that already has the new name, and to the declaring identifier of what is renamed.
ghost use Rattle.std.specs.Prelude.{◌≡◌, ◌<◌, ◌↔◌, length, IsTrue};
ghost use Rattle.go_scope.specs.Bindings.{Declares, InScope, IsUse};
ghost use Rattle.go_scope.specs.Packages.{layout_in, names_in};
ghost use Rattle.go_scope.specs.Table.{Precedes};
ghost use Rattle.refactor_scopes.specs.Outcomes.{IsOutcome};

use crate::order::{assigns_to, displaces, in_scope, precedes};
use go_scope::table::ScopeTable;

/// An identifier that a rename captures or loses, and the declaration that captures it; none where it is lost.
#[derive(Clone, Copy)]
pub struct ScopeConflict {
    pub identifier: usize,
    pub by: Option<usize>,
}

/// What a rename does to an identifier: nothing, another declaration captures it, or it is lost.
#[derive(Clone, Copy)]
pub(crate) enum RenameOutcome {
    Kept,
    Captured(usize),
    Lost,
}

/// The outcome at the declaration `e` of the new name, where `d` is renamed.
fn declared_outcome(table: &ScopeTable<'_>, d: usize, name: &[u8], e: usize) -> RenameOutcome
    requires renamed_in_range { d < length table.now.sites }
    requires in_range { e < length table.now.sites }
    requires renamed { Declares (layout_in table.now) (names_in table.now) d }
    requires other_name { names_in table.now d ≡ name.now → ⊥ }
    requires named { names_in table.now e ≡ name.now }
    requires declares { Declares (layout_in table.now) (names_in table.now) e }
    ensures { IsOutcome (layout_in table.now) (names_in table.now) d name.now e result }
{
    table.is_well_formed();
    if !displaces(table, d, e) {
        RenameOutcome::Kept
    } else if assigns_to(table, d, e) {
        RenameOutcome::Captured(d)
    } else {
        RenameOutcome::Lost
    }
}

/// Whether the declaration `d` would take the use `u` of the new name from its declaration `old`.
fn comes_between(table: &ScopeTable<'_>, d: usize, u: usize, old: usize) -> bool
    requires renamed_in_range { d < length table.now.sites }
    requires in_range { u < length table.now.sites }
    requires old_in_range { old < length table.now.sites }
    ensures { IsTrue result ↔ (InScope (layout_in table.now) d u × Precedes (layout_in table.now) d old) }
{
    in_scope(table, d, u) && precedes(table, d, old)
}

/// The outcome at the use `u` of the new name, where `d` is renamed.
fn use_outcome(table: &ScopeTable<'_>, d: usize, name: &[u8], u: usize) -> RenameOutcome
    requires renamed_in_range { d < length table.now.sites }
    requires in_range { u < length table.now.sites }
    requires renamed { Declares (layout_in table.now) (names_in table.now) d }
    requires other_name { names_in table.now d ≡ name.now → ⊥ }
    requires named { names_in table.now u ≡ name.now }
    requires is_use { IsUse (layout_in table.now) (names_in table.now) u }
    ensures { IsOutcome (layout_in table.now) (names_in table.now) d name.now u result }
{
    table.is_well_formed();
    match table.binding(u) {
        None => RenameOutcome::Kept,
        Some(old) => {
            if comes_between(table, d, u, old) {
                RenameOutcome::Captured(d)
            } else {
                RenameOutcome::Kept
            }
        }
    }
}

/// The outcome at the identifier `u` that has the new name, where `d` is renamed.
pub(crate) fn named_outcome(
    table: &ScopeTable<'_>,
    d: usize,
    name: &[u8],
    u: usize,
) -> RenameOutcome
    requires renamed_in_range { d < length table.now.sites }
    requires in_range { u < length table.now.sites }
    requires renamed { Declares (layout_in table.now) (names_in table.now) d }
    requires other_name { names_in table.now d ≡ name.now → ⊥ }
    requires named { names_in table.now u ≡ name.now }
    ensures { IsOutcome (layout_in table.now) (names_in table.now) d name.now u result }
{
    if table.declares(u) {
        declared_outcome(table, d, name, u)
    } else if table.is_use(u) {
        use_outcome(table, d, name, u)
    } else {
        RenameOutcome::Kept
    }
}
