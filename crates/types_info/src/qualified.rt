//! Lists the qualified identifiers of a package, by the paths of the packages that qualify them.
ghost use Rattle.std.specs.Prelude.{ℕ, ◌≡◌, ◌<◌, List, length, IfOk, OnOk};
ghost use Rattle.go_scope.specs.declared.model.Position.{Position};
ghost use Rattle.types_declared.specs.PackageView.{package_of, IsIndexOf};
ghost use Rattle.types_info.specs.Lists.{IsListedUnder};
ghost use Rattle.types_info.specs.QualifiedIdentifiers.{AreListsBelow, AreQualified, ListsIdentifier};

use crate::lists::{Lists, Qualified};
use crate::qualifiers::qualifier_of_name;
use std::alloc::{AllocError, Global};
use types_declared::{Index, Package};

/// Makes an empty list for each import of a package.
fn empty_lists(alloc: Global, pkg: Package<'_>, index: &Index<'_>) -> Result<Lists, AllocError>
    requires { IsIndexOf (package_of pkg) index.now }
    ensures lists { IfOk result (AreListsBelow (package_of pkg.entry) (length pkg.entry.table.now.sites)) }
    ensures listed { IfOk result (λ lists. (path : List ℕ) → (at : Position) → IsListedUnder lists.all.items path at → ⊥) }
{
    let mut lists = Lists::with_room(alloc, pkg.table.len())?;
    for d in 0..pkg.table.len() {
        lists.add(alloc, index.path(pkg, d))?;
    }
    Ok(lists)
}

/// Adds the position of `u` to the list of its import, if it is a qualified identifier.
fn list_identifier(
    lists: &mut Lists,
    pkg: Package<'_>,
    index: &Index<'_>,
    u: usize,
) -> Result<(), AllocError>
    requires index { IsIndexOf (package_of pkg) index.now }
    requires in_range { u < length pkg.table.now.sites }
    requires lists { AreListsBelow (package_of pkg) (length pkg.table.now.sites) lists.old }
    ensures { OnOk result (ListsIdentifier (package_of pkg.entry) u lists.old lists.new) }
{
    if let Some(d) = qualifier_of_name(pkg, index, u) {
        lists.list(d, pkg.table.place(u))?;
    }
    Ok(())
}

/// Lists the qualified identifiers of a package: the positions of their names, under the path of the qualifying package. Each import has a
/// list of its own, so that a path may have several.
pub fn qualified_identifiers(
    alloc: Global,
    pkg: Package<'_>,
    index: &Index<'_>,
) -> Result<Vec<Qualified>, AllocError>
    requires { IsIndexOf (package_of pkg) index.now }
    ensures { IfOk result (λ found. AreQualified (package_of pkg.entry) found.items) }
{
    let mut lists = empty_lists(alloc, pkg, index)?;
    for u in 0..pkg.table.len() {
        list_identifier(&mut lists, pkg, index, u)?;
    }
    Ok(lists.all)
}
