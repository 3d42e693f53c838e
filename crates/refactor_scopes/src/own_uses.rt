//! The first use of what is renamed that a declaration of the new name would capture.
ghost use Rattle.std.specs.Prelude.{ℕ, ◌≡◌, ◌<◌, ◌≤◌, ◌↔◌, ◌⊎◌, ⊤, length, get_or, IsTrue, MatchOption};
ghost use Rattle.go_scope.specs.declared.model.Position.{Position as At};
ghost use Rattle.go_scope.specs.Bindings.{BindsAt, Declares, InScope, scope_of};
ghost use Rattle.go_scope.specs.Packages.{layout_in, names_in};
ghost use Rattle.go_scope.specs.Scopes.{Holds};
ghost use Rattle.go_scope.specs.Table.{Precedes};
ghost use Rattle.go_scope.specs.WellFormed.{IsNotAfter};
ghost use Rattle.refactor_scopes.specs.Conflicts.{FirstConflictAmong, IsScopeRename, IsUseInScopes, WouldTake};
ghost use Rattle.refactor_scopes.specs.Numbers.{earlier, IsFirstNumber};

use crate::order::{in_scope, precedes};
use crate::outcomes::ScopeConflict;
use crate::scope_rename::ScopeRename;
use go_scope::model::{Block, Position, Role};
use go_scope::table::ScopeTable;

/// Whether the position `p` is `q`, or stands before it.
fn is_not_after(p: Position, q: Position) -> bool
    ensures { IsTrue result ↔ IsNotAfter p q }
{
    p.file < q.file || (p.file == q.file && p.index <= q.index)
}

/// The position at which the scope of a declaration of this role begins. From there on it holds all positions up to its last one.
fn scope_start(role: Role) -> Position
    ensures first { (q : At) → Holds (scope_of role) q → IsNotAfter result q }
    ensures whole { (p q : At) → Holds (scope_of role) q → IsNotAfter result p → IsNotAfter p q → Holds (scope_of role) p }
{
    match role.block() {
        Block::Universe | Block::Package => Position { file: 0, index: 0 },
        Block::File(file) => Position { file, index: 0 },
        Block::Inner(file, _, _) => Position {
            file,
            index: role.start(),
        },
    }
}

/// How many uses of what is renamed stand before a position.
fn count_before(rename: &ScopeRename<'_>, start: Position) -> usize
    requires { IsScopeRename rename.now }
    ensures within { result ≤ length rename.now.uses.items }
    ensures before { (i : ℕ) → i < result → IsNotAfter start ((layout_in rename.now.table.now).place (get_or rename.now.uses.items i 0)) → ⊥ }
    ensures behind { (i : ℕ) → result ≤ i → i < length rename.now.uses.items → IsNotAfter start ((layout_in rename.now.table.now).place (get_or rename.now.uses.items i 0)) }
{
    rename.table.identifiers().are_laid_out();
    let mut low = 0;
    let mut high = rename.uses.len();
    while low < high {
        let middle = low + (high - low) / 2;
        if is_not_after(start, rename.table.place(rename.uses[middle])) {
            high = middle;
        } else {
            low = middle + 1;
        }
    }
    low
}

/// The first use that stands in the scope of the declaration `c` of the new name.
fn first_use_in_scope(rename: &ScopeRename<'_>, c: usize) -> Option<usize>
    requires read { IsScopeRename rename.now }
    requires in_range { c < length rename.now.table.now.sites }
    ensures { let l = layout_in rename.now.table.now in
        IsFirstNumber (λ u. IsUseInScopes l (names_in rename.now.table.now) rename.now.declaration u × InScope l c u) result }
{
    rename.table.identifiers().are_laid_out();
    let n = count_before(rename, scope_start(rename.table.role(c)));
    if n == rename.uses.len() {
        return None;
    }
    let u = rename.uses[n];
    if in_scope(rename.table, c, u) {
        Some(u)
    } else {
        None
    }
}

/// The first use that the identifier `c` of the new name would capture.
fn first_taken_by(rename: &ScopeRename<'_>, c: usize) -> Option<usize>
    requires read { IsScopeRename rename.now }
    requires in_range { c < length rename.now.table.now.sites }
    requires named { names_in rename.now.table.now c ≡ rename.now.name.now }
    ensures { let l = layout_in rename.now.table.now in
        let names = names_in rename.now.table.now in
        IsFirstNumber (λ u. IsUseInScopes l names rename.now.declaration u × WouldTake l names rename.now.declaration rename.now.name.now u c) result }
{
    if rename.table.declares(c) && precedes(rename.table, c, rename.declaration) {
        first_use_in_scope(rename, c)
    } else {
        None
    }
}

/// The lesser of two numbers, where there are any.
fn earliest(a: Option<usize>, b: Option<usize>) -> Option<usize>
    ensures { result ≡ earlier a b }
{
    match (a, b) {
        (None, _) => b,
        (Some(_), None) => a,
        (Some(m), Some(n)) => { if m <= n { a } else { b } }
    }
}

/// The first use that some declaration of the new name would capture.
fn first_taken(rename: &ScopeRename<'_>) -> Option<usize>
    requires { IsScopeRename rename.now }
    ensures { let l = layout_in rename.now.table.now in
        let names = names_in rename.now.table.now in
        let d = rename.now.declaration in
        IsFirstNumber (λ u. IsUseInScopes l names d u × ((c : ℕ) × WouldTake l names d rename.now.name.now u c)) result }
{
    let mut first = None;
    for i in 0..rename.named.len() {
        first = earliest(first, first_taken_by(rename, rename.named[i]));
    }
    first
}

/// Whether the identifier `c` of the new name declares, with `u` in its scope.
fn holds(table: &ScopeTable<'_>, c: usize, u: usize) -> bool
    requires first { c < length table.now.sites }
    requires second { u < length table.now.sites }
    ensures { IsTrue result ↔ (Declares (layout_in table.now) (names_in table.now) c × InScope (layout_in table.now) c u) }
{
    table.declares(c) && in_scope(table, c, u)
}

/// The nearer one of a declaration found so far and the declaration `c`: that which precedes the other.
fn nearer(table: &ScopeTable<'_>, found: Option<usize>, c: usize) -> usize
    requires first { MatchOption found ⊤ (λ b. b < length table.now.sites) }
    requires second { c < length table.now.sites }
    ensures { MatchOption found (result ≡ c) (λ b. ((result ≡ c) × Precedes (layout_in table.now) c b) ⊎ ((result ≡ b) × (Precedes (layout_in table.now) c b → ⊥))) }
{
    match found {
        None => c,
        Some(b) => { if precedes(table, c, b) { c } else { b } }
    }
}

/// The declaration to which the new name is bound at the position of the identifier `u`.
fn binding_of_name(rename: &ScopeRename<'_>, u: usize) -> Option<usize>
    requires read { IsScopeRename rename.now }
    requires in_range { u < length rename.now.table.now.sites }
    ensures { let l = layout_in rename.now.table.now in
        let names = names_in rename.now.table.now in
        MatchOption result ((c : ℕ) → BindsAt l names rename.now.name.now u c → ⊥) (λ c. BindsAt l names rename.now.name.now u c) }
{
    rename.table.is_well_formed();
    let mut found = None;
    for i in 0..rename.named.len() {
        let c = rename.named[i];
        if holds(rename.table, c, u) {
            found = Some(nearer(rename.table, found, c));
        }
    }
    found
}

/// The first use of the renamed declaration that another declaration captures.
pub(crate) fn own_use_conflict(rename: &ScopeRename<'_>) -> Option<ScopeConflict>
    requires { IsScopeRename rename.now }
    ensures { let l = layout_in rename.now.table.now in
        let names = names_in rename.now.table.now in
        let d = rename.now.declaration in
        FirstConflictAmong l names d rename.now.name.now (IsUseInScopes l names d) result }
{
    rename.table.is_well_formed();
    match first_taken(rename) {
        None => None,
        Some(identifier) => match binding_of_name(rename, identifier) {
            None => None,
            Some(c) => Some(ScopeConflict {
                identifier,
                by: Some(c),
            }),
        },
    }
}
