//! What is known of the units of packages before they are built.
ghost use Rattle.std.specs.Prelude.{◌≡◌, ◌++◌, ◌↔◌, [], IfOk, IfSome, IsTrue, Some, slice_get};
ghost use Rattle.base_files.specs.Packages.{package_paths};
ghost use Rattle.base_files.specs.Workspace.{Workspace};
ghost use Rattle.build_unit.specs.Units.{IsUnitAt};
ghost use Rattle.build_kept.specs.KnownUnits.{AreKnownUnits, CarriesUnits};

use crate::ready::{declares_one, unit_with_names};
use build_carry::Finished;
use build_names::GivenName;
use build_unit::Unit;
use std::alloc::{AllocError, Global};
use std::marker::Model;
use workspace_graph::Graph;

/// So many names at most are given to the declarations in known units.
const MOST_NAMES: usize = 16;

/// Units of packages of these files: those of a table, with new names of declarations in their objects. Contracts see the files alone.
#[derive(Drop)]
pub struct KnownUnits {
    files: Graph,
    units: Finished,
    names: Vec<GivenName>,
}

impl Model for KnownUnits {
    ghost use Rattle.std.specs.Prelude.{List, ℕ};
    ghost use Rattle.std.specs.Coded.{coded_ℕ, coded_list};
    ghost use Rattle.std.specs.FinMap as map;
    ghost use Rattle.base_files.specs.Workspace.{path_cmp};
    ghost use Rattle.build_kept.specs.KnownUnits.{AreKnownUnits};

    ghost Value = { map.FinMap path_cmp (List ℕ) };

    ghost coded = { map.code (coded_list coded_ℕ) (coded_list coded_ℕ) };

    ghost view = { λ a. a.files };

    ghost invariant = { λ a. AreKnownUnits a.files a.names.items a.units };
}

/// The unit of the package of this number and path, if it is known by a table and new names.
fn known_unit_at(
    alloc: Global,
    units: &Finished,
    names: &[GivenName],
    number: usize,
    path: &[u8],
) -> Result<Option<Unit>, AllocError>
    ensures { IfOk result (λ found. (w : Workspace) → AreKnownUnits w names.now units.now → slice_get (package_paths w) number ≡ Some path.now → IsUnitAt w number found) }
{
    if declares_one(names, path) {
        return Ok(None);
    }
    match units.get(number) {
        None => Ok(None),
        Some(unit) => {
            let made = unit_with_names(alloc, unit, path, names)?;
            Ok(Some(made))
        }
    }
}

/// Copies of the names of two lists, one after the other.
fn all_names(
    alloc: Global,
    earlier: &[GivenName],
    later: &[GivenName],
) -> Result<Vec<GivenName>, AllocError>
    ensures { IfOk result (λ names. names.items ≡ earlier.now ++ later.now) }
{
    let mut names = Vec::new(alloc);
    for first in earlier {
        names.push(first.copy(alloc)?)?;
    }
    for second in later {
        names.push(second.copy(alloc)?)?;
    }
    Ok(names)
}

impl KnownUnits {
    /// The units of packages of these files, by the numbers of the packages.
    #[tactic(auto, using(crate::proofs::Names::unnamed_units))]
    pub fn of(alloc: Global, files: Graph, units: Finished) -> KnownUnits
        requires { AreKnownUnits files [] units }
        ensures { result ≡ files }
    {
        let names = Vec::new(alloc);
        KnownUnits {
            files,
            units,
            names,
        }
    }

    /// The files.
    pub fn files(&self) -> &Graph
        ensures { result.now ≡ self.now }
    {
        &self.files
    }

    /// Whether the files are these.
    pub fn is_of(&self, files: &Graph) -> bool
        ensures { IsTrue result ↔ (self.now ≡ files.now) }
    {
        self.files.files().same(files.files())
    }

    /// Whether no unit is known.
    pub fn is_empty(&self) -> bool {
        self.units.is_empty()
    }

    /// Whether the table has a unit at this number.
    pub fn has(&self, number: usize) -> bool {
        self.units.get(number).is_some()
    }

    /// The same, shared.
    #[tactic(auto, using(crate::proofs::Names::copied_units))]
    pub fn copy(&self, alloc: Global) -> Result<KnownUnits, AllocError>
        ensures { IfOk result (λ copy. copy ≡ self.now) }
    {
        let files = self.files.clone()?;
        let units = self.units.clone()?;
        let names = all_names(alloc, &self.names, &[])?;
        Ok(KnownUnits {
            files,
            units,
            names,
        })
    }

    /// The units in other files, which carry them over with these names. None are known behind more than 16 names.
    #[tactic(auto, using(crate::proofs::Names::carried_over))]
    pub fn carried(
        &self,
        alloc: Global,
        files: &Graph,
        later: &[GivenName],
    ) -> Result<Option<KnownUnits>, AllocError>
        requires { CarriesUnits self.now files.now later.now }
        ensures { IfOk result (λ known. IfSome known (λ units. units ≡ files.now)) }
    {
        let names = all_names(alloc, &self.names, later)?;
        if names.len() > MOST_NAMES {
            return Ok(None);
        }
        let files = files.clone()?;
        let units = self.units.clone()?;
        Ok(Some(KnownUnits {
            files,
            units,
            names,
        }))
    }

    /// The unit of the package `number`, if it is known.
    pub fn unit(&self, alloc: Global, number: usize) -> Result<Option<Unit>, AllocError>
        ensures { IfOk result (IsUnitAt self.now number) }
    {
        if number >= self.files.len() {
            return Ok(None);
        }
        let path = self.files.package(number).path.as_slice();
        known_unit_at(alloc, &self.units, &self.names, number, path)
    }
}
