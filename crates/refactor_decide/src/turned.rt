//! Which uses in other packages the rename of a package-level declaration loses or captures.
ghost use Rattle.std.specs.Prelude.{ℕ, ◌≡◌, ◌<◌, ◌↔◌, true, false, length, IsTrue, MatchOption};
ghost use Rattle.go_scope.specs.Bindings.{AllCount, IsPackageLevel};
ghost use Rattle.types_declared.specs.Laid.{is_exported as is_exported_name};
ghost use Rattle.types_declared.specs.PackageView.{package_of};
ghost use Rattle.types_check.specs.Exports.{DoesExport};
ghost use Rattle.law_renamed_workspaces.specs.KnownVerdicts.{IsHiddenIn};
ghost use Rattle.refactor_decide.specs.Own.{CanRename};
ghost use Rattle.refactor_decide.specs.Turned.{TellsTurned, later_of};

use go_scope::model::Block;
use types_check::is_seen;
use types_declared::{Package, is_exported};

/// The declaration whose uses in other packages turn, and the declaration that captures them; none where they are lost.
#[derive(Clone, Copy)]
pub(crate) struct TurnedUses {
    pub declaration: usize,
    pub by: Option<usize>,
}

/// Whether a declaration is in the package block.
pub(crate) fn is_package_level(unit: Package<'_>, n: usize) -> bool
    requires { n < length unit.table.now.sites }
    ensures { IsTrue result ↔ IsPackageLevel (package_of unit.entry).layout n }
{
    match unit.table.role(n).block() {
        Block::Package => true,
        Block::Universe | Block::File(_) | Block::Inner(_, _, _) => false,
    }
}

/// Whether the package exports its declaration `d` under this name.
fn is_exported_as(unit: Package<'_>, d: usize, name: &[u8]) -> bool
    requires { d < length unit.table.now.sites }
    ensures { let p = package_of unit.entry in
        IsTrue result ↔ (DoesExport p d × (p.names d ≡ name.now)) }
{
    unit.table.name(d) == name && is_seen(unit, d)
}

/// The declaration that a package exports under a name.
fn exported_as(unit: Package<'_>, name: &[u8]) -> Option<usize>
    ensures { let p = package_of unit.entry in
        MatchOption result ((d : ℕ) → DoesExport p d → p.names d ≡ name.now → ⊥) (λ d. DoesExport p d × (p.names d ≡ name.now)) }
{
    for d in 0..unit.table.len() {
        if is_exported_as(unit, d, name) {
            return Some(d);
        }
    }
    None
}

/// Of two declarations that would have one name the later one turns: the earlier one captures its uses.
fn later(n: usize, e: usize) -> TurnedUses
    ensures { result ≡ later_of n e }
{
    if e < n {
        TurnedUses {
            declaration: n,
            by: Some(e),
        }
    } else {
        TurnedUses {
            declaration: e,
            by: Some(n),
        }
    }
}

/// What turns where the new name is exported: the later one of the declaration and of another one that has the new name.
fn repeated(unit: Package<'_>, n: usize, name: &[u8]) -> Option<TurnedUses>
    requires can { CanRename (package_of unit) n name.now }
    requires all_count { let p = package_of unit in
        AllCount p.layout p.names }
    requires exported { is_exported_name name.now ≡ true }
    ensures { TellsTurned (package_of unit.entry) n name.now result }
{
    if !is_package_level(unit, n) {
        return None;
    }
    match exported_as(unit, name) {
        None => None,
        Some(e) => Some(later(n, e)),
    }
}

/// What turns where the new name is not exported: the uses of the declaration, if other packages see it.
fn hidden(unit: Package<'_>, n: usize, name: &[u8]) -> Option<TurnedUses>
    requires in_range { n < length unit.table.now.sites }
    requires exported { is_exported_name name.now ≡ false }
    ensures { TellsTurned (package_of unit.entry) n name.now result }
{
    if is_seen(unit, n) {
        Some(TurnedUses {
            declaration: n,
            by: None,
        })
    } else {
        None
    }
}

/// What the rename of a declaration turns in other packages.
pub(crate) fn turned(unit: Package<'_>, n: usize, name: &[u8]) -> Option<TurnedUses>
    requires can { CanRename (package_of unit) n name.now }
    requires all_count { let p = package_of unit in
        AllCount p.layout p.names }
    ensures { TellsTurned (package_of unit.entry) n name.now result }
{
    if is_exported(name) {
        repeated(unit, n, name)
    } else {
        hidden(unit, n, name)
    }
}

/// Whether other packages see a declaration neither under its name nor under the new one.
pub(crate) fn is_hidden(unit: Package<'_>, n: usize, name: &[u8]) -> bool
    requires { n < length unit.table.now.sites }
    ensures { IsTrue result → IsHiddenIn (package_of unit.entry) n name.now }
{
    !is_package_level(unit, n) || (!is_exported(unit.table.name(n)) && !is_exported(name))
}
