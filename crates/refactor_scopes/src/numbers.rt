//! The identifiers that a rename concerns, by ascending number: uses of a declaration, and identifiers of a name.
ghost use Rattle.std.specs.Prelude.{◌≡◌, ◌<◌, ◌↔◌, length, IfOk, IsTrue};
ghost use Rattle.go_scope.specs.Packages.{layout_in, names_in};
ghost use Rattle.refactor_scopes.specs.Conflicts.{IsUseInScopes};
ghost use Rattle.refactor_scopes.specs.Numbers.{ListsNumbers};

use go_scope::table::ScopeTable;
use std::alloc::{AllocError, Global};

/// Whether an identifier is a use of the declaration `d`.
fn is_use_of(table: &ScopeTable<'_>, d: usize, u: usize) -> bool
    requires { u < length table.now.sites }
    ensures { IsTrue result ↔ IsUseInScopes (layout_in table.now) (names_in table.now) d u }
{
    table.is_well_formed();
    match table.binding(u) {
        None => false,
        Some(bound) => bound == d && table.is_use(u),
    }
}

/// The uses of the declaration `d`.
pub(crate) fn uses_of(
    alloc: Global,
    table: &ScopeTable<'_>,
    d: usize,
) -> Result<Vec<usize>, AllocError>
    ensures { IfOk result (λ uses. ListsNumbers (IsUseInScopes (layout_in table.now) (names_in table.now) d) (length table.now.sites) uses.items) }
{
    let mut uses = Vec::new(alloc);
    for u in 0..table.len() {
        if is_use_of(table, d, u) {
            uses.push(u)?;
        }
    }
    Ok(uses)
}

/// The identifiers of a name.
pub(crate) fn named(
    alloc: Global,
    table: &ScopeTable<'_>,
    name: &[u8],
) -> Result<Vec<usize>, AllocError>
    ensures { IfOk result (λ named. ListsNumbers (λ u. names_in table.now u ≡ name.now) (length table.now.sites) named.items) }
{
    let mut named = Vec::new(alloc);
    for u in 0..table.len() {
        if table.name(u) == name {
            named.push(u)?;
        }
    }
    Ok(named)
}
