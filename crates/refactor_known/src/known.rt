//! Known verdicts after a move.
ghost use Rattle.std.specs.Prelude.{◌≡◌, ◌<◌, Some, length, slice_get, IfOk, IfSome, option_copied};
ghost use Rattle.base_files.specs.Packages.{package_paths};
ghost use Rattle.types_declared.specs.ExportTablesView.{export_data_in, export_data_of, name_in};
ghost use Rattle.refactor_known.specs.MovedKnown.{AreMovedKnown, IsMovedFrom, IsMovedKnown};
ghost use Rattle.refactor_known.specs.Swaps.{map_of};

use crate::swap::Swap;
use std::alloc::{AllocError, Global};
use types_declared::{ExportData, ExportTable};
use workspace_check::{Known, KnownVerdict};
use workspace_graph::Graph;

/// A table that has these export data of the package at a path, and no others.
fn table_of(alloc: Global, path: &[u8], own: ExportData) -> Result<ExportTable, AllocError>
    ensures own { IfOk result (λ table. export_data_in table path.now ≡ export_data_of path.now own) }
    ensures name { IfOk result (λ table. name_in table path.now ≡ Some own.scope.name.items) }
{
    let mut table = ExportTable::new(alloc);
    table.add(alloc, path, own)?;
    Ok(table)
}

/// The path of the package of a number.
fn path_at(graph: &Graph, number: usize) -> &[u8]
    requires { number < length (package_paths graph.now) }
    ensures { slice_get (package_paths graph.now) number ≡ Some result.now }
{
    graph.package(number).path.as_slice()
}

/// The new name of the package that moves, if it gets one, and what was known before the move.
#[derive(Clone, Copy)]
pub struct BeforeMove<'a> {
    pub name: Option<&'a [u8]>,
    pub graph: &'a Graph,
    pub known: &'a Known,
}

impl Swap {
    /// The known verdict after the move, or `None` if the package has a fault. `name`: the new name of the package that moves.
    fn verdict(
        &self,
        alloc: Global,
        name: Option<&[u8]>,
        one: &KnownVerdict,
    ) -> Result<Option<KnownVerdict>, AllocError>
        ensures { IfOk result (λ found. IfSome found (IsMovedKnown self.now.from (option_copied name.entry) (map_of self.now) one.now)) }
    {
        let Some(own) = one.known().get() else {
            return Ok(None);
        };
        let Some(finding) = self.finding(alloc, one.finding())? else {
            return Ok(None);
        };
        let own = self.export_data(alloc, name, one.path().path(), own)?;
        let table = table_of(alloc, finding.path.path(), own)?;
        Ok(Some(KnownVerdict::new(alloc, finding, &table)?))
    }

    /// Whether the package at the old path comes to the new one.
    fn goes_to(&self, alloc: Global, old: &[u8], path: &[u8]) -> Result<bool, AllocError>
        ensures { IfOk result (λ goes. goes ≡ Rattle.std.specs.Prelude.bytes_eq (map_of self.now old.now) path.now) }
    {
        let moved = self.bytes(alloc, old)?;
        Ok(moved.as_slice() == path)
    }

    /// The known verdict on the package at this path after the move, if it was known before it.
    fn verdict_at(
        &self,
        alloc: Global,
        before: BeforeMove<'_>,
        path: &[u8],
    ) -> Result<Option<KnownVerdict>, AllocError>
        ensures { IfOk result (λ found. IfSome found (IsMovedFrom self.now.from (option_copied before.entry.name) (map_of self.now)
            (package_paths before.entry.graph.now) before.entry.known.now path.now)) }
    {
        let old = self.bytes(alloc, path)?;
        if !self.goes_to(alloc, &old, path)? {
            return Ok(None);
        }
        let Some(number) = before.graph.number_of(&old) else {
            return Ok(None);
        };
        match before.known.get(number) {
            None => Ok(None),
            Some(one) => self.verdict(alloc, before.name, one),
        }
    }
}

/// Makes of the known verdicts before a move those after it, by the numbers of packages in the graph `after`. A verdict on a package with
/// faults is left out.
pub fn moved_known(
    alloc: Global,
    swap: &Swap,
    before: BeforeMove<'_>,
    after: &Graph,
) -> Result<Known, AllocError>
    ensures { IfOk result (AreMovedKnown swap.now.from (option_copied before.entry.name) (map_of swap.now) (package_paths before.entry.graph.now)
        (package_paths after.now) before.entry.known.now) }
{
    let mut rest = Known::with_capacity(alloc, after.len())?;
    for number in 0..after.len() {
        rest.push(swap.verdict_at(alloc, before, path_at(after, number))?)?;
    }
    Ok(rest)
}
