//! The rename of a declaration, as far as the scopes of its package are concerned, and its first conflict.
ghost use Rattle.std.specs.Prelude.{ℕ, ◌≡◌, ◌<◌, ◌↔◌, length, IfOk, IsTrue, MatchOption};
ghost use Rattle.go_scope.specs.Bindings.{AllCount, Declares, Displaces};
ghost use Rattle.go_scope.specs.Packages.{layout_in, names_in};
ghost use Rattle.refactor_scopes.specs.Conflicts.{first_conflict_of, FirstConflictAmong, IsDisplacer, IsScopeRename, IsWritten, TellsConflict};
ghost use Rattle.refactor_scopes.specs.Outcomes.{IsOutcomeConflict, IsOutcome};

use crate::numbers::{named, uses_of};
use crate::order::{assigns_to, displaces};
use crate::outcomes::{RenameOutcome, ScopeConflict, named_outcome};
use crate::own_uses::own_use_conflict;
use go_scope::table::{DeclId, ScopeTable};
use std::alloc::{AllocError, Global};
use types_declared::{is_import, literal_of};

/// The rename of a declaration of a package: the package's scopes, the declaration, its new name, the uses of the declaration, and the
/// identifiers that have the new name already.
#[derive(Drop)]
pub struct ScopeRename<'a> {
    pub table: &'a ScopeTable<'a>,
    pub declaration: DeclId,
    pub name: &'a [u8],
    pub uses: Vec<usize>,
    pub named: Vec<usize>,
}

/// Whether a declaration of the new name keeps the declaration `d` from counting.
fn is_displacer(table: &ScopeTable<'_>, d: usize, z: usize) -> bool
    requires renamed_in_range { d < length table.now.sites }
    requires in_range { z < length table.now.sites }
    ensures { IsTrue result ↔ (Declares (layout_in table.now) (names_in table.now) z × Displaces (layout_in table.now) z d) }
{
    table.declares(z) && displaces(table, z, d)
}

/// A declaration of the new name that keeps the renamed one from counting.
fn displacer(rename: &ScopeRename<'_>) -> Option<usize>
    requires { IsScopeRename rename.now }
    ensures { let l = layout_in rename.now.table.now in
        let names = names_in rename.now.table.now in
        let d = rename.now.declaration in
        MatchOption result ((z : ℕ) → IsDisplacer l names d rename.now.name.now z → ⊥)
        (λ z. IsDisplacer l names d rename.now.name.now z × (z < length rename.now.table.now.sites)) }
{
    for i in 0..rename.named.len() {
        let z = rename.named[i];
        if is_displacer(rename.table, rename.declaration, z) {
            return Some(z);
        }
    }
    None
}

/// The outcome at the declaring identifier of what is renamed.
fn own_outcome(rename: &ScopeRename<'_>) -> RenameOutcome
    requires { IsScopeRename rename.now }
    ensures { let d = rename.now.declaration in
        IsOutcome (layout_in rename.now.table.now) (names_in rename.now.table.now) d rename.now.name.now d result }
{
    rename.table.is_well_formed();
    match displacer(rename) {
        None => RenameOutcome::Kept,
        Some(z) => {
            if assigns_to(rename.table, z, rename.declaration) {
                RenameOutcome::Captured(z)
            } else {
                RenameOutcome::Lost
            }
        }
    }
}

/// Whether a file has this identifier. A predeclared name and an import without a name are in none.
fn is_written(table: &ScopeTable<'_>, u: usize) -> bool
    requires { u < length table.now.sites }
    ensures { IsTrue result ↔ IsWritten (layout_in table.now) u }
{
    !table.role(u).is_implied() && !(is_import(table, u) && literal_of(table, u) == u)
}

/// The conflict that an outcome is at an identifier, if it is one. What no file has as an identifier has no conflict.
fn conflict_at(table: &ScopeTable<'_>, u: usize, outcome: RenameOutcome) -> Option<ScopeConflict>
    requires { u < length table.now.sites }
    ensures { IsOutcomeConflict (layout_in table.now) u outcome result }
{
    if !is_written(table, u) {
        return None;
    }
    match outcome {
        RenameOutcome::Kept => None,
        RenameOutcome::Captured(c) => Some(ScopeConflict {
            identifier: u,
            by: Some(c),
        }),
        RenameOutcome::Lost => Some(ScopeConflict {
            identifier: u,
            by: None,
        }),
    }
}

/// The first conflict at an identifier that has the new name already.
fn named_conflict(rename: &ScopeRename<'_>) -> Option<ScopeConflict>
    requires { IsScopeRename rename.now }
    ensures { let names = names_in rename.now.table.now in
        FirstConflictAmong (layout_in rename.now.table.now) names rename.now.declaration rename.now.name.now (λ u. names u ≡ rename.now.name.now) result }
{
    rename.table.is_well_formed();
    for i in 0..rename.named.len() {
        let u = rename.named[i];
        let outcome = named_outcome(rename.table, rename.declaration, rename.name, u);
        match conflict_at(rename.table, u, outcome) {
            None => {}
            Some(conflict) => return Some(conflict),
        }
    }
    None
}

/// The conflict at the declaring identifier of what is renamed.
fn own_conflict(rename: &ScopeRename<'_>) -> Option<ScopeConflict>
    requires { IsScopeRename rename.now }
    ensures { let d = rename.now.declaration in
        FirstConflictAmong (layout_in rename.now.table.now) (names_in rename.now.table.now) d rename.now.name.now (λ u. u ≡ d) result }
{
    let outcome = own_outcome(rename);
    conflict_at(rename.table, rename.declaration, outcome)
}

/// The one of two conflicts whose identifier comes first.
fn first_of(a: Option<ScopeConflict>, b: Option<ScopeConflict>) -> Option<ScopeConflict>
    ensures { result ≡ first_conflict_of a b }
{
    match (a, b) {
        (None, _) => b,
        (Some(_), None) => a,
        (Some(one), Some(other)) => {
            if one.identifier <= other.identifier {
                a
            } else {
                b
            }
        }
    }
}

impl<'a> ScopeRename<'a> {
    /// Reads the scopes of a package for the rename of one of its declarations.
    pub fn of(
        alloc: Global,
        table: &'a ScopeTable<'a>,
        declaration: DeclId,
        name: &'a [u8],
    ) -> Result<ScopeRename<'a>, AllocError>
        requires in_range { declaration < length table.now.sites }
        requires declared { Declares (layout_in table.now) (names_in table.now) declaration }
        requires other_name { names_in table.now declaration ≡ name.now → ⊥ }
        requires all_count { AllCount (layout_in table.now) (names_in table.now) }
        ensures read { IfOk result IsScopeRename }
        ensures table { IfOk result (λ r. r.table.now ≡ table.now) }
        ensures declaration { IfOk result (λ r. r.declaration ≡ declaration) }
        ensures name { IfOk result (λ r. r.name.now ≡ name.now) }
    {
        let uses = uses_of(alloc, table, declaration)?;
        let named = named(alloc, table, name)?;
        Ok(ScopeRename {
            table,
            declaration,
            name,
            uses,
            named,
        })
    }

    /// The first identifier of the package, by number, that the rename captures or loses, and the declaration that captures it. Numbers
    /// follow the order of paths and offsets. No memory is taken.
    pub fn conflict(&self) -> Option<ScopeConflict>
        requires { IsScopeRename self.now }
        ensures { TellsConflict (layout_in self.now.table.now) (names_in self.now.table.now) self.now.declaration self.now.name.now result }
    {
        self.table.is_well_formed();
        let beside = first_of(named_conflict(self), own_conflict(self));
        first_of(beside, own_use_conflict(self))
    }
}
