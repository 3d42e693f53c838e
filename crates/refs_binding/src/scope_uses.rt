//! Finds the declaration that the scopes of a package bind an identifier to.
ghost use Rattle.std.specs.Prelude.{ℕ, ◌<◌, Some, length, IfOk};
ghost use Rattle.go_scope.specs.Bindings.{IsBoundTo};
ghost use Rattle.types_declared.specs.PackageView.{package_of};
ghost use Rattle.refs_binding.specs.Binding.{BindsByScope};
ghost use Rattle.refs_binding.specs.Steps.{IsDeclarationResult};

use crate::declaration::Declaration;
use go_scope::identifiers::PREDECLARED;
use std::alloc::AllocError;
use types_declared::Package;

/// Returns the declaration with a number in the table of a package.
fn numbered(unit: Package<'_>, d: usize) -> Result<Declaration, AllocError>
    ensures { let p = package_of unit.entry in
        IfOk result (λ x. (u : ℕ) → IsBoundTo p.layout p.names u d → BindsByScope p u x) }
{
    if d < PREDECLARED {
        Ok(Declaration::Predeclared(d))
    } else {
        Ok(Declaration::Declared(unit.path.clone()?, d))
    }
}

/// Returns the declaration that the scopes of a package bind an identifier to, if there is one.
pub fn declaration_in_scope(unit: Package<'_>, u: usize) -> Result<Option<Declaration>, AllocError>
    requires { u < length unit.table.now.sites }
    ensures { IfOk result (IsDeclarationResult (BindsByScope (package_of unit.entry) u)) }
{
    match unit.table.binding(u) {
        None => Ok(None),
        Some(d) => Ok(Some(numbered(unit, d)?)),
    }
}
