//! Reads the package of a number: what it sees of others, its scope table, and the `Package` that the two make.
ghost use Rattle.std.specs.Prelude.{◌≡◌, IfOk};
ghost use Rattle.types_declared.specs.PackageView.{package_of};
ghost use Rattle.refs_binding.specs.Indexed.{IsPackageNumber, IsPackageNumbered};
ghost use Rattle.refs_binding.specs.PackageReaders.{IsReader, IsTableBy};

use crate::indexed::{Numbered, unit_of};
use crate::packages::{read_table, seen_by};
use go_scope::table::ScopeTable;
use std::alloc::{AllocError, Global};
use types_declared::{ExportTable, Package};

/// Reads the package of a number. It owns the export data that the package sees of others.
#[derive(Drop)]
pub struct PackageReader<'a> {
    pub at: Numbered<'a>,
    pub seen: ExportTable,
}

impl<'a> PackageReader<'a> {
    /// Collects the export data that the package of a number sees of others.
    pub fn of(alloc: Global, at: Numbered<'a>) -> Result<PackageReader<'a>, AllocError>
        requires { IsPackageNumber at }
        ensures at { IfOk result (λ reader. reader.at ≡ at.entry) }
        ensures reader { IfOk result (λ reader. IsReader reader) }
    {
        let seen = seen_by(alloc, at.workspace, at.number)?;
        Ok(PackageReader { at, seen })
    }

    /// Lays the scope table of the package.
    pub fn table(&self, alloc: Global) -> Result<ScopeTable<'_>, AllocError>
        requires { IsReader self.now }
        ensures { IfOk result (λ table. IsTableBy self.now table) }
    {
        read_table(alloc, self.at.workspace, &self.seen, self.at.number)
    }

    /// Returns the package, made of its table and of what it sees of others.
    pub fn unit<'r, 't: 'r>(&'r self, table: &'r ScopeTable<'t>) -> Package<'r>
        requires reader { IsReader self.now }
        requires table { IsTableBy self.now table.now }
        ensures { IsPackageNumbered self.now.at (package_of result) }
    {
        unit_of(self.at, &self.seen, table)
    }
}
