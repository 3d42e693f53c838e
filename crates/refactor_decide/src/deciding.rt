//! Decides the rename of a declaration of scopes.
ghost use Rattle.std.specs.Prelude.{◌≡◌, ◌<◌, length, IsTrue, IfOk};
ghost use Rattle.std.specs.Ordering.{is_lt};
ghost use Rattle.go_scope.specs.Bindings.{AllCount};
ghost use Rattle.types_declared.specs.PackageView.{package_of};
ghost use Rattle.refs_binding.specs.Indexed.{IsPackageNumber, IsPackageNumbered, IsIndexed};
ghost use Rattle.refs_binding.specs.Places.{place_cmp};
ghost use Rattle.refs_binding.specs.Workspaces.{known_in};
ghost use Rattle.refactor_rename.specs.Literals.{IsUnnamedImport};
ghost use Rattle.law_renamed_workspaces.specs.KnownVerdicts.{IsHiddenIn};
ghost use Rattle.law_agreement.specs.ScopeConflicts.{earlier_conflict};
ghost use Rattle.refactor_decide.specs.Deciding.{Decides, IsFirstOfBoth};
ghost use Rattle.refactor_decide.specs.Own.{CanRename};

use crate::behind::conflict_behind;
use crate::decision::ScopeDecision;
use crate::own::{is_unnamed, own_conflict};
use crate::turned::is_hidden;
use base_files::Place;
use refactor_conflict::Conflict;
use refs_binding::indexed::{Indexed, Numbered};
use std::alloc::{AllocError, Global};
use types_declared::Package;

/// Whether the place `a` comes before the place `b`: by the bytes of their paths, then by their offsets.
fn comes_before(a: &Place, b: &Place) -> bool
    ensures { result ≡ is_lt (place_cmp a.now b.now) }
{
    let by_path = a.path.cmp(&b.path);
    by_path.then(a.offset.cmp(&b.offset)).is_lt()
}

/// The one of two conflicts whose place comes first.
pub fn earlier(a: Option<Conflict>, b: Option<Conflict>) -> Option<Conflict>
    ensures { result ≡ earlier_conflict a b }
{
    match (a, b) {
        (None, b) => b,
        (Some(a), None) => Some(a),
        (Some(a), Some(b)) => {
            if comes_before(&b.used, &a.used) {
                Some(b)
            } else {
                Some(a)
            }
        }
    }
}

/// The first conflict of the rename of a declaration: in the scopes of its package, or behind the name of this.
fn first_of_both(
    alloc: Global,
    at: Numbered<'_>,
    of: &Indexed<'_>,
    n: usize,
    name: &[u8],
) -> Result<Option<Conflict>, AllocError>
    requires numbered { IsPackageNumber at }
    requires unit { IsPackageNumbered at (package_of of.now.unit) }
    requires indexed { IsIndexed of.now }
    requires can { CanRename (package_of of.now.unit) n name.now }
    requires all_count { let p = package_of of.now.unit in
        AllCount p.layout p.names }
    ensures { IfOk result (IsFirstOfBoth at.entry.workspace.now.graph (known_in at.entry.workspace.now.findings) (package_of of.now.unit) n name.now) }
{
    at.workspace.has_no_faults();
    let own = own_conflict(alloc, of.unit, n, name)?;
    let behind = conflict_behind(alloc, at, of, n, name)?;
    Ok(earlier(own, behind))
}

/// Whether other packages see a declaration neither under its name nor under the new one, and it is no import that gains a name.
fn stays_hidden(unit: Package<'_>, n: usize, name: &[u8]) -> bool
    requires { n < length unit.table.now.sites }
    ensures hidden { IsTrue result → IsHiddenIn (package_of unit.entry) n name.now }
    ensures has_name { IsTrue result → IsUnnamedImport (package_of unit.entry) n → ⊥ }
{
    is_hidden(unit, n, name) && !is_unnamed(unit, n)
}

/// Decides the rename of a declaration of a package by the workspace before it: its first conflict, or none. By the rename an import without
/// a name gains one. The package is given, and not read again.
pub fn scope_decision(
    alloc: Global,
    at: Numbered<'_>,
    of: &Indexed<'_>,
    n: usize,
    name: &[u8],
) -> Result<ScopeDecision, AllocError>
    requires numbered { IsPackageNumber at }
    requires unit { IsPackageNumbered at (package_of of.now.unit) }
    requires indexed { IsIndexed of.now }
    requires can { CanRename (package_of of.now.unit) n name.now }
    ensures { IfOk result (Decides at.entry.workspace.now.graph (known_in at.entry.workspace.now.findings) (package_of of.now.unit) n name.now) }
{
    at.workspace.has_no_faults();
    Ok(ScopeDecision {
        conflict: first_of_both(alloc, at, of, n, name)?,
        is_hidden: stays_hidden(of.unit, n, name),
    })
}
