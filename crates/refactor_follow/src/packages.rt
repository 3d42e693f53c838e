//! What is read of the packages that import the one whose name changes: the first conflict of the renames of their imports, and the names
//! that get the new name.
ghost use Rattle.std.specs.Prelude.{ℕ, ◌≡◌, ◌<◌, Contains, length, IfOk, IfSome};
ghost use Rattle.base_files.specs.Packages.{package_paths};
ghost use Rattle.refs_binding.specs.Indexed.{IsPackageNumber, IsPackageNumbered};
ghost use Rattle.refs_binding.specs.Workspaces.{IsPackageAt, known_in};
ghost use Rattle.types_declared.specs.Package.{Package};
ghost use Rattle.refactor_follow.specs.FirstConflicts.{IsFirstAmong, IsFirstAt};
ghost use Rattle.refactor_follow.specs.MoveReadings.{HasNoMarks, MarksAmong, MarksImportUses, SetsRows};

use crate::imports::{FollowedName, first_in};
use crate::plain::plain_uses;
use crate::tables::uses_by_table;
use refactor_conflict::Conflict;
use refactor_decide::earlier;
use refs_binding::indexed::Numbered;
use refs_binding::{FaultlessWorkspace, PackageReader};
use std::alloc::{AllocError, Global};

/// The first conflict in a package, and the marks of its names that get the new name, by file and token.
#[derive(Drop)]
pub(crate) struct PackageReading {
    pub(crate) conflict: Option<Conflict>,
    pub(crate) rows: Vec<Vec<bool>>,
}

/// The first conflict in some packages, and the marks of the names that get the new name: by package, file and token.
#[derive(Drop)]
pub struct MoveReading {
    pub conflict: Option<Conflict>,
    pub uses: Vec<Vec<Vec<bool>>>,
}

/// Reads the package of a number by its scope table, which is laid once.
fn read_by_table(
    alloc: Global,
    at: Numbered<'_>,
    new: FollowedName<'_>,
) -> Result<PackageReading, AllocError>
    requires { IsPackageNumber at }
    ensures conflict { IfOk result (λ r. IsFirstAt at.entry.workspace.now.graph (known_in at.entry.workspace.now.findings) new.entry.path.now new.entry.name.now at.entry.number r.conflict) }
    ensures uses { IfOk result (λ r. (p : Package) → IsPackageNumbered at.entry p → MarksImportUses p new.entry.path.now r.rows.items) }
{
    let reader = PackageReader::of(alloc, at)?;
    let table = reader.table(alloc)?;
    let unit = reader.unit(&table);
    let conflict = first_in(alloc, at, unit, new)?;
    let rows = uses_by_table(alloc, unit, new.path)?;
    Ok(PackageReading { conflict, rows })
}

/// Reads the package of a number, without a scope table where its tokens are plain.
fn read_package(
    alloc: Global,
    workspace: &FaultlessWorkspace<'_>,
    number: usize,
    new: FollowedName<'_>,
) -> Result<PackageReading, AllocError>
    requires { number < length (package_paths workspace.now.graph) }
    ensures conflict { IfOk result (λ r. IsFirstAt workspace.now.graph (known_in workspace.now.findings) new.entry.path.now new.entry.name.now number r.conflict) }
    ensures uses { IfOk result (λ r. (p : Package) → IsPackageAt workspace.now.graph (known_in workspace.now.findings) number p → MarksImportUses p new.entry.path.now r.rows.items) }
{
    workspace.has_no_faults();
    let at = Numbered { workspace, number };
    match plain_uses(alloc, at, new)? {
        None => read_by_table(alloc, at, new),
        Some(rows) => Ok(PackageReading {
            conflict: None,
            rows,
        }),
    }
}

/// A list without marks, for this number of packages.
fn no_uses(alloc: Global, count: usize) -> Result<Vec<Vec<Vec<bool>>>, AllocError>
    ensures { IfOk result (λ uses. HasNoMarks count uses.items) }
{
    let mut uses = Vec::new(alloc);
    for _number in 0..count {
        uses.push(Vec::new(alloc))?;
    }
    Ok(uses)
}

/// Sets the marks of the package of a number.
fn set(uses: &mut Vec<Vec<Vec<bool>>>, number: usize, rows: Vec<Vec<bool>>)
    requires { number < length uses.old.items }
    ensures { SetsRows uses.old.items uses.new.items number rows.items }
{
    uses[number] = rows;
}

/// Reads the packages of these numbers.
pub(crate) fn read_among(
    alloc: Global,
    workspace: &FaultlessWorkspace<'_>,
    numbers: &[usize],
    new: FollowedName<'_>,
) -> Result<MoveReading, AllocError>
    requires { (number : ℕ) → Contains numbers.now number → number < length (package_paths workspace.now.graph) }
    ensures conflict { IfOk result (λ r. IsFirstAmong workspace.now.graph (known_in workspace.now.findings) new.entry.path.now new.entry.name.now numbers.now (length numbers.now) r.conflict) }
    ensures uses { IfOk result (λ r. MarksAmong workspace.now.graph (known_in workspace.now.findings) new.entry.path.now numbers.now (length numbers.now) r.uses.items) }
{
    let mut conflict = None;
    let mut uses = no_uses(alloc, workspace.len())?;
    for i in 0..numbers.len() {
        let number = numbers[i];
        let found = read_package(alloc, workspace, number, new)?;
        conflict = earlier(conflict, found.conflict);
        set(&mut uses, number, found.rows);
    }
    Ok(MoveReading { conflict, uses })
}
