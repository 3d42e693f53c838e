//! Finds the declarations of a scope table that have a use.
ghost use Rattle.std.specs.Prelude.{ℕ, ◌≡◌, ◌<◌, true, slice_set, IfOk, MatchOption};
ghost use Rattle.go_scope.specs.Bindings.{IsUse, IsBoundTo};
ghost use Rattle.types_resolve.specs.Scoping.{AreUsed};
ghost use Rattle.types_declared.specs.Laid.{laid_in};

use crate::table::{binding, is_name_use};
use go_scope::table::ScopeTable;
use std::alloc::{AllocError, Global};

/// The declaration to which `u` is bound, if `u` is a use; none otherwise.
fn used_by(table: &ScopeTable, u: usize) -> Option<usize>
    requires { u < (laid_in table.now).size }
    ensures { let l = (laid_in table.now).layout in
        let names = (laid_in table.now).names in
        MatchOption result (IsUse l names u → (d : ℕ) → IsBoundTo l names u d → ⊥)
        (λ d. IsUse l names u × IsBoundTo l names u d) }
{
    if is_name_use(table, u) {
        binding(table, u)
    } else {
        None
    }
}

/// Sets the entry of `d`, if there is one.
fn mark(used: &mut Vec<bool>, d: Option<usize>)
    ensures { MatchOption d (used.new.items ≡ used.old.items) (λ k. used.new.items ≡ slice_set used.old.items k true) }
{
    if let Some(k) = d {
        if k < used.len() {
            used[k] = true;
        }
    }
}

/// Returns for each identifier whether a use is bound to it.
pub(crate) fn uses(alloc: Global, table: &ScopeTable) -> Result<Vec<bool>, AllocError>
    ensures { IfOk result (λ used. AreUsed (laid_in table.now) (laid_in table.now).size used.items) }
{
    go_scope::laws::bindings_are_unique();
    table.is_well_formed();
    let mut used = vec![in alloc; false; table.len()]?;
    for u in 0..table.len() {
        mark(&mut used, used_by(table, u));
    }
    Ok(used)
}
