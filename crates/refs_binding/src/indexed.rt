//! A package by its number, and a package with its index, type definitions and uses of members.
ghost use Rattle.types_declared.specs.PackageView.{package_of, IsIndexOf};
ghost use Rattle.refs_binding.specs.Packages.{IsTableAs};
ghost use Rattle.refs_binding.specs.Workspaces.{known_in};
ghost use Rattle.refs_binding.specs.Indexed.{IsPackageNumber, IsPackageNumbered, IsIndexed};

use crate::faultless::FaultlessWorkspace;
use crate::reading::{members_of, own_of, path_of};
use go_scope::table::ScopeTable;
use types_declared::{ExportTable, Index, Package};
use types_expr::found::MemberUse;
use types_expr::world::Definition;

/// The number of a package in a workspace without faults.
#[derive(Clone, Copy)]
pub struct Numbered<'a> {
    pub workspace: &'a FaultlessWorkspace<'a>,
    pub number: usize,
}

/// A package with its index, its own type definitions, and the uses of members in its files.
#[derive(Clone, Copy)]
pub struct Indexed<'a> {
    pub unit: Package<'a>,
    pub index: &'a Index<'a>,
    pub own: &'a [Definition],
    pub members: &'a [Vec<MemberUse>],
}

/// Returns the package of a number, made of its table and of what it sees of others.
pub fn unit_of<'a>(
    at: Numbered<'a>,
    seen: &'a ExportTable,
    table: &'a ScopeTable<'a>,
) -> Package<'a>
    requires numbered { IsPackageNumber at }
    requires table { IsTableAs at.workspace.now.graph (known_in at.workspace.now.findings) at.number table.now seen.now }
    ensures { IsPackageNumbered at.entry (package_of result) }
{
    let path = path_of(at.workspace, at.number);
    let files = table.files();
    Package {
        path,
        files,
        table,
        export_table: seen,
    }
}

/// Returns the package of a number with its index, type definitions and uses of members.
pub fn known_of<'a, 'w: 'a, 'i: 'a>(
    at: Numbered<'w>,
    unit: Package<'a>,
    index: &'a Index<'i>,
) -> Indexed<'a>
    requires numbered { IsPackageNumber at }
    requires unit { IsPackageNumbered at (package_of unit) }
    requires index { IsIndexOf (package_of unit) index.now }
    ensures unit { IsPackageNumbered at.entry (package_of result.unit) }
    ensures indexed { IsIndexed result }
{
    let own = own_of(at.workspace, at.number);
    let members = members_of(at.workspace, at.number);
    Indexed {
        unit,
        index,
        own,
        members,
    }
}
