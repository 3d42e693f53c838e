//! Finds the faults of a package's first stages: package clauses, imports, scopes. A stage is reported only where the earlier ones have no
//! fault.
ghost use Rattle.std.specs.Prelude.{◌≡◌, ◌↔◌, [], IsTrue, IfOk, map};
ghost use Rattle.std.specs.List.Sorted.{IsStrictlySortedBy};
ghost use Rattle.types_declared.specs.contracts.fault.FaultOrd.TheImpl as order;
ghost use Rattle.types_declared.specs.Listing.{HoldsExactly};
ghost use Rattle.go_ast.specs.SourceFile.{source_of};
ghost use Rattle.types_declared.specs.States.{state_in};
ghost use Rattle.types_declared.specs.Laid.{laid_in};
ghost use Rattle.types_resolve.specs.Stages.{IsOuterFault, IsOwnFault, IsInnerFault};

use crate::clauses::add_clauses;
use crate::imports::add_imports;
use crate::qualified::add_unknowns;
use crate::scoping::add_scopes;
use crate::statements::add_marks;
use go_ast::FileTree;
use go_scope::table::ScopeTable;
use std::alloc::{AllocError, Global};
use types_declared::{Exports, Fault, ImportStates, sort};

/// Whether the list of faults is empty.
fn has_none(found: &[Fault]) -> bool
    ensures { IsTrue result ↔ (found.now ≡ []) }
{
    found.is_empty()
}

/// Returns the faults of package clauses, or where there are none those of imports, unsorted.
fn first_found(
    alloc: Global,
    states: &ImportStates,
    files: &[FileTree],
) -> Result<Vec<Fault>, AllocError>
    ensures { IfOk result (λ found. HoldsExactly (IsOuterFault (state_in states.now) (map source_of files.now)) found.items) }
{
    let mut found = Vec::new(alloc);
    add_clauses(&mut found, files)?;
    if has_none(found.as_slice()) {
        add_imports(alloc, &mut found, states, files)?;
    }
    Ok(found)
}

/// Returns the faults of package clauses, or where there are none those of imports, sorted by file and token. The files are those of one
/// package in the order of their paths.
pub fn outer_faults(
    alloc: Global,
    states: &ImportStates,
    files: &[FileTree],
) -> Result<Vec<Fault>, AllocError>
    ensures listed { IfOk result (λ found. HoldsExactly (IsOuterFault (state_in states.now) (map source_of files.now)) found.items) }
    ensures order { IfOk result (λ found. IsStrictlySortedBy order.ghosts.cmp found.items) }
{
    let mut found = first_found(alloc, states, files)?;
    sort(&mut found);
    Ok(found)
}

/// Returns the faults of scopes and statements, without qualified identifiers, unsorted.
fn own_found(
    alloc: Global,
    table: &ScopeTable,
    files: &[FileTree],
) -> Result<Vec<Fault>, AllocError>
    ensures { IfOk result (λ found. HoldsExactly (IsOwnFault (map source_of files.now) (laid_in table.now)) found.items) }
{
    let mut found = Vec::new(alloc);
    add_scopes(alloc, &mut found, table)?;
    add_marks(&mut found, table, files)?;
    Ok(found)
}

/// Returns the faults of scopes, statements and qualified identifiers, unsorted.
fn inner_found<E: Exports>(
    alloc: Global,
    table: &ScopeTable,
    files: &[FileTree],
    exports: &E,
) -> Result<Vec<Fault>, AllocError>
    ensures { IfOk result (λ found. HoldsExactly (IsInnerFault (map source_of files.now) (E.exported exports.now) (laid_in table.now)) found.items) }
{
    let mut found = own_found(alloc, table, files)?;
    add_unknowns(alloc, &mut found, table, files, exports)?;
    Ok(found)
}

/// Returns the faults of scopes, statements and qualified identifiers, sorted by file and token. `exports` gives the exported names of
/// imported packages. In `table` each import without a name declares the name of the imported package.
pub fn inner_faults<E: Exports>(
    alloc: Global,
    table: &ScopeTable,
    files: &[FileTree],
    exports: &E,
) -> Result<Vec<Fault>, AllocError>
    ensures listed { IfOk result (λ found. HoldsExactly (IsInnerFault (map source_of files.now) (E.exported exports.now) (laid_in table.now)) found.items) }
    ensures order { IfOk result (λ found. IsStrictlySortedBy order.ghosts.cmp found.items) }
{
    let mut found = inner_found(alloc, table, files, exports)?;
    sort(&mut found);
    Ok(found)
}
