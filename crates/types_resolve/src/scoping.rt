//! Finds the faults of scopes: undeclared names, redeclarations and unused imports.
ghost use Rattle.std.specs.Prelude.{◌<◌, ◌↔◌, IsTrue, OnOk};
ghost use Rattle.types_declared.specs.Listing.{AddsFaults};
ghost use Rattle.go_scope.specs.Bindings.{IsImport};
ghost use Rattle.types_resolve.specs.Scoping.{AreUsed, IsUsedBelow, IsUndeclared, IsRepeated, IsUnused, IsFaultOfIdentifier, IsScopeFault};
ghost use Rattle.types_declared.specs.Laid.{laid_in};

use crate::table::{fault_at, is_repetition, is_undeclared};
use crate::uses::uses;
use base_files::FaultKind;
use go_scope::table::ScopeTable;
use std::alloc::{AllocError, Global};
use types_declared::{Fault, is_import, literal_of, push_if};

/// Adds the fault of `u`, if it is a use that is bound to no declaration.
fn add_undeclared(found: &mut Vec<Fault>, table: &ScopeTable, u: usize) -> Result<(), AllocError>
    requires { u < (laid_in table.now).size }
    ensures { OnOk result (AddsFaults found.old.items found.new.items (IsUndeclared (laid_in table.now) u)) }
{
    let fault = fault_at(table, u, FaultKind::Undeclared);
    push_if(found, is_undeclared(table, u), fault)
}

/// Adds the fault of `u`, if it is a redeclaration, or a package-level variable or type named `init`.
fn add_repeated(found: &mut Vec<Fault>, table: &ScopeTable, u: usize) -> Result<(), AllocError>
    requires { u < (laid_in table.now).size }
    ensures { OnOk result (AddsFaults found.old.items found.new.items (IsRepeated (laid_in table.now) u)) }
{
    let fault = fault_at(table, u, FaultKind::Repeated);
    push_if(found, is_repetition(table, u), fault)
}

/// Whether no use is bound to the declaration `d`.
fn is_idle(table: &ScopeTable, used: &[bool], d: usize) -> bool
    requires in_range { d < (laid_in table.now).size }
    requires used { AreUsed (laid_in table.now) (laid_in table.now).size used.now }
    ensures { IsTrue result ↔ (IsUsedBelow (laid_in table.now) (laid_in table.now).size d → ⊥) }
{
    !used[d]
}

/// Whether `d` is an unused import.
fn is_unused(table: &ScopeTable, used: &[bool], d: usize) -> bool
    requires in_range { d < (laid_in table.now).size }
    requires used { AreUsed (laid_in table.now) (laid_in table.now).size used.now }
    ensures { IsTrue result ↔ (IsImport (laid_in table.now).layout d × (IsUsedBelow (laid_in table.now) (laid_in table.now).size d → ⊥)) }
{
    is_import(table, d) && is_idle(table, used, d)
}

/// Adds the fault of `d`, if it is an unused import, at the import's string literal.
fn add_unused(
    found: &mut Vec<Fault>,
    table: &ScopeTable,
    used: &[bool],
    d: usize,
) -> Result<(), AllocError>
    requires in_range { d < (laid_in table.now).size }
    requires used { AreUsed (laid_in table.now) (laid_in table.now).size used.now }
    ensures { OnOk result (AddsFaults found.old.items found.new.items (IsUnused (laid_in table.now) d)) }
{
    let fault = fault_at(table, literal_of(table, d), FaultKind::Unused);
    push_if(found, is_unused(table, used, d), fault)
}

/// Adds the scope faults of one identifier.
fn add_identifier(
    found: &mut Vec<Fault>,
    table: &ScopeTable,
    used: &[bool],
    u: usize,
) -> Result<(), AllocError>
    requires in_range { u < (laid_in table.now).size }
    requires used { AreUsed (laid_in table.now) (laid_in table.now).size used.now }
    ensures { OnOk result (AddsFaults found.old.items found.new.items (IsFaultOfIdentifier (laid_in table.now) u)) }
{
    add_undeclared(found, table, u)?;
    add_repeated(found, table, u)?;
    add_unused(found, table, used, u)
}

/// Adds the scope faults of a package: undeclared names, redeclarations and unused imports.
pub(crate) fn add_scopes(
    alloc: Global,
    found: &mut Vec<Fault>,
    table: &ScopeTable,
) -> Result<(), AllocError>
    ensures { OnOk result (AddsFaults found.old.items found.new.items (IsScopeFault (laid_in table.now))) }
{
    let used = uses(alloc, table)?;
    for u in 0..table.len() {
        add_identifier(found, table, &used, u)?;
    }
    Ok(())
}
