//! The inputs from which the unit of a package is built.
ghost use Rattle.std.specs.Prelude.{◌≡◌, ◌<◌, [], IfOk, IsTrue, Some, length, slice_get, slice_index_or};
ghost use Rattle.std.specs.List.{Contains};
ghost use Rattle.base_files.specs.Packages.{package_paths};
ghost use Rattle.base_files.specs.Workspace.{Workspace};
ghost use Rattle.workspace_graph.specs.Graphs.{IsPackage, OfPackage};
ghost use Rattle.workspace_check.specs.Found.{AreVerdictsOf, KnowsVerdicts};
ghost use Rattle.build_unit.specs.Compiling.{IsMadeUnit, IsMadeUnitIn};
ghost use Rattle.build_unit.specs.Inputs.{AreGoFiles, AreInputs, HasClosuresOf, IsClosureAt};
ghost use Rattle.build_unit.specs.Units.{IsUnitAt};

use crate::compiling::{MadeUnit, unit_in, unit_of};
use crate::package_at::PackageAt;
use crate::unit::Unit;
use std::alloc::{AllocError, Global};
use std::marker::Model;
use std::sync::Arc;
use types_expr::symbol::SharedPath;
use workspace_check::{KnownVerdict, SharedKnown};
use workspace_graph::{Graph, PackageList, ParsedPackage, is_among};

/// The shared parts of a package's inputs: the graph of its workspace, the number of the package, and the numbers of its closure. With them
/// come the known verdicts on packages of this workspace, and the unit of the package if it is known.
#[derive(Drop)]
struct InputParts {
    whole: Graph,
    number: usize,
    closure: PackageList,
    known: SharedKnown,
    unit: Option<Unit>,
}

/// The Go files of a package's closure, as a workspace of their own. They are read in the workspace that they come from: no text is copied,
/// and nothing is parsed. A clone shares them.
pub struct PackageInputs {
    parts: Arc<InputParts, Global>,
}

/// Written out, so that crates above call it and need not prove again how each part is dropped.
impl Drop for PackageInputs {
    fn drop(self) {
        let PackageInputs { parts } = self;
        drop(parts);
    }
}

impl Model for PackageInputs {
    ghost use Rattle.std.specs.Prelude.{List, ℕ};
    ghost use Rattle.std.specs.Coded.{coded_ℕ, coded_list};
    ghost use Rattle.std.specs.FinMap as map;
    ghost use Rattle.std.specs.Arc.{arc_value};
    ghost use Rattle.base_files.specs.Workspace.{path_cmp};
    ghost use Rattle.workspace_check.specs.Found.{KnowsVerdicts};
    ghost use Rattle.build_unit.specs.Inputs.{IsClosureAt, part_of};
    ghost use Rattle.build_unit.specs.Units.{IsUnitAt};

    ghost Value = { map.FinMap path_cmp (List ℕ) };

    ghost coded = { map.code (coded_list coded_ℕ) (coded_list coded_ℕ) };

    ghost view = { λ a. part_of (arc_value a.parts).whole (arc_value a.parts).closure };

    ghost invariant = { λ a. IsClosureAt (arc_value a.parts).whole (arc_value a.parts).number (arc_value a.parts).closure × KnowsVerdicts (arc_value a.parts).whole (arc_value a.parts).known × IsUnitAt (arc_value a.parts).whole (arc_value a.parts).number (arc_value a.parts).unit };
}

/// The number at this place of a list.
fn number_at(numbers: &[usize], place: usize) -> usize
    requires { place < length numbers.now }
    ensures { result ≡ slice_index_or numbers.now place 0 }
{
    numbers[place]
}

/// Whether the package `number` has this path.
fn has_path(graph: &Graph, number: usize, path: &[u8]) -> bool
    requires { number < length (package_paths graph.now) }
    ensures { IsTrue result → slice_get (package_paths graph.now) number ≡ Some path.now }
{
    graph.package(number).path.as_slice() == path
}

/// A known unit. No verdict is found.
fn known_unit(alloc: Global, unit: &Unit) -> Result<MadeUnit, AllocError>
    ensures { IfOk result (λ made. (made.unit ≡ unit.now) × (made.found.items ≡ [])) }
{
    let copy = unit.clone()?;
    let found = Vec::new(alloc);
    Ok(MadeUnit { unit: copy, found })
}

/// Makes the unit of the package of the inputs, unless it is known.
fn made_here(alloc: Global, parts: &InputParts, path: &SharedPath) -> Result<MadeUnit, AllocError>
    requires here { slice_get (package_paths parts.now.whole) parts.now.number ≡ Some path.now }
    requires at { IsClosureAt parts.now.whole parts.now.number parts.now.closure }
    requires known { KnowsVerdicts parts.now.whole parts.now.known }
    requires unit { IsUnitAt parts.now.whole parts.now.number parts.now.unit }
    ensures { IfOk result (IsMadeUnit parts.now.whole path.now) }
{
    if let Some(unit) = &parts.unit {
        return known_unit(alloc, unit);
    }
    let at = PackageAt {
        graph: &parts.whole,
        number: parts.number,
        closure: parts.closure.as_slice(),
        known: parts.known.get(),
    };
    unit_of(alloc, at, path)
}

/// Makes the unit of the package at `path`, if the workspace has it. The closure is searched for only where this is not the package of the
/// inputs.
fn made_by(alloc: Global, parts: &InputParts, path: &SharedPath) -> Result<MadeUnit, AllocError>
    requires at { IsClosureAt parts.now.whole parts.now.number parts.now.closure }
    requires known { KnowsVerdicts parts.now.whole parts.now.known }
    requires unit { IsUnitAt parts.now.whole parts.now.number parts.now.unit }
    ensures { IfOk result (IsMadeUnitIn parts.now.whole path.now) }
{
    let graph = &parts.whole;
    let number = parts.number;
    if !has_path(graph, number, path.path()) {
        return unit_in(alloc, graph, path, parts.known.get());
    }
    made_here(alloc, parts, path)
}

impl PackageInputs {
    /// The inputs of the package `number`, with the known verdicts. Only its closure is read.
    pub fn of(
        alloc: Global,
        files: &Graph,
        number: usize,
        known: &SharedKnown,
    ) -> Result<PackageInputs, AllocError>
        requires number { number < length (package_paths files.now) }
        requires known { KnowsVerdicts files.now known.now }
        ensures { IfOk result (λ inputs. OfPackage files.now number (λ p. AreInputs files.now p inputs)) }
    {
        PackageInputs::with_unit(alloc, files, number, known, None)
    }

    /// The inputs of the package `number`, with the known verdicts, and with the unit of this package if it is known.
    pub fn with_unit(
        alloc: Global,
        files: &Graph,
        number: usize,
        known: &SharedKnown,
        unit: Option<Unit>,
    ) -> Result<PackageInputs, AllocError>
        requires number { number < length (package_paths files.now) }
        requires known { KnowsVerdicts files.now known.now }
        requires unit { IsUnitAt files.now number unit }
        ensures { IfOk result (λ inputs. OfPackage files.now number (λ p. AreInputs files.now p inputs)) }
    {
        let closure = files.closure(alloc, number)?;
        let whole = files.clone()?;
        let own = known.clone()?;
        let parts = InputParts {
            whole,
            number,
            closure,
            known: own,
            unit,
        };
        let shared = Arc::new(alloc, parts)?;
        Ok(PackageInputs { parts: shared })
    }

    /// The number of packages in the inputs.
    pub fn len(&self) -> usize
        ensures { result ≡ length (package_paths self.now) }
    {
        let parts: &InputParts = &self.parts;
        parts.closure.as_slice().len()
    }

    /// The package at `place` among those of the inputs, with its parsed files.
    pub fn package(&self, place: usize) -> &ParsedPackage
        requires { place < length (package_paths self.now) }
        ensures { IsPackage self.now place result.now }
    {
        let parts: &InputParts = &self.parts;
        let number = number_at(parts.closure.as_slice(), place);
        parts.whole.package(number)
    }

    /// Whether the path is that of a package of the inputs.
    fn has(&self, path: &[u8]) -> bool
        ensures { IsTrue result → Contains (package_paths self.now) path.now }
    {
        let parts: &InputParts = &self.parts;
        match parts.whole.number_of(path) {
            None => false,
            Some(number) => is_among(parts.closure.as_slice(), number),
        }
    }

    /// Copies the verdicts on packages of the inputs, out of a list of verdicts.
    fn own_verdicts(
        &self,
        alloc: Global,
        found: &[KnownVerdict],
    ) -> Result<Vec<KnownVerdict>, AllocError>
        ensures { IfOk result (λ own. (w : Workspace) → HasClosuresOf w self.now → AreVerdictsOf w found.now → AreVerdictsOf self.now own.items) }
    {
        let mut own = Vec::new(alloc);
        for verdict in found {
            if self.has(verdict.path().path()) {
                own.push(verdict.clone()?)?;
            }
        }
        Ok(own)
    }

    /// Makes the unit of the package at `path`, if it is one of the inputs. It is made in the whole workspace, where each package of the
    /// inputs has the closure that it has in them.
    pub(crate) fn made(&self, alloc: Global, path: &SharedPath) -> Result<MadeUnit, AllocError>
        ensures { IfOk result (IsMadeUnitIn self.now path.now) }
    {
        let parts: &InputParts = &self.parts;
        let MadeUnit { unit, found } = made_by(alloc, parts, path)?;
        let own = self.own_verdicts(alloc, &found)?;
        Ok(MadeUnit { unit, found: own })
    }

    /// Shows that each file of the inputs is a Go file.
    pub fn hold_go_files(&self)
        ensures { AreGoFiles self.now }
    {
        let _parts = &self.parts;
    }
}

impl Clone for PackageInputs {
    ghost is_clone = { λ inputs copy. copy ≡ inputs };

    fn clone(&self) -> Result<PackageInputs, AllocError> {
        let parts = Arc::try_clone(&self.parts)?;
        Ok(PackageInputs { parts })
    }
}
