//! Makes the part of a snapshot whose packages are those without faults.
ghost use Rattle.std.specs.Prelude.{◌≡◌, IfOk};
ghost use Rattle.std.specs.FinMap as map;
ghost use Rattle.build_carry.specs.Changes.{AreChanged};
ghost use Rattle.workspace_check.specs.Found.{IsFound, KnowsVerdicts};
ghost use Rattle.workspace_check.specs.KnownFindings.{verdicts_by};
ghost use Rattle.workspace_check.specs.Verdicts.{Verdicts};
ghost use Rattle.workspace_graph.specs.Borrows.{names};
ghost use Rattle.refactor_part.specs.FaultlessPart.{faultless_part, part_of_snapshot};
ghost use Rattle.refactor_part.specs.LeftOut.{AreOfFaulty, IsLeftOut, LeavesOut};

use crate::leaving::LeftOut;
use base_files::{Files, Path};
use build_carry::{FoundElsewhere, marks_by, with_kept};
use std::alloc::{AllocError, Global};
use workspace_check::{Found, Known, verdicts};
use workspace_graph::Graph;
use workspace_snapshot::Snapshot;

/// The part of a snapshot whose packages are those without faults, with their findings. Its number and limits are those of the snapshot.
#[derive(Drop)]
pub struct SoundPart {
    pub snapshot: Snapshot,
    pub found: Found,
}

/// The files without those at some paths.
fn without(files: &Files, paths: &[&Path]) -> Result<Files, AllocError>
    ensures { IfOk result (LeavesOut (names paths.now) files.now) }
{
    let mut left = files.copy()?;
    for path in paths {
        left.remove(path)?;
    }
    Ok(left)
}

/// The graph of the part, which leaves out the files at these paths.
fn part_graph(alloc: Global, graph: &Graph, paths: &[&Path]) -> Result<Graph, AllocError>
    ensures { IfOk result (λ part. (known : Verdicts) → AreOfFaulty known (map.entries graph.now) (names paths.now) → part ≡ faultless_part graph.now known) }
{
    let left = without(graph.files(), paths)?;
    Graph::changed(alloc, graph, left, paths)
}

/// Verdicts that were found in another workspace, whose files differ in these folders alone.
#[derive(Clone, Copy)]
pub struct FoundBeside<'a> {
    pub judged: &'a Graph,
    pub found: &'a Known,
    pub folders: &'a [&'a [u8]],
}

/// Adds to what is known of a workspace the verdicts that were found in another one, on packages whose closures have the same texts here. No
/// text is compared.
pub fn known_beside(
    alloc: Global,
    files: &Graph,
    own: &Known,
    beside: FoundBeside<'_>,
) -> Result<Known, AllocError>
    requires own { KnowsVerdicts files.now own.now }
    requires found { KnowsVerdicts beside.judged.now beside.found.now }
    requires changed { AreChanged beside.judged.now files.now (names beside.folders.now) }
    ensures { IfOk result (KnowsVerdicts files.now) }
{
    let marks = marks_by(alloc, beside.judged, files, beside.folders)?;
    let from = FoundElsewhere {
        judged: beside.judged,
        found: beside.found,
        marks: &marks,
    };
    with_kept(alloc, files, own, &from)
}

/// The findings of the part. No package is checked anew on which a verdict is known.
fn part_found(alloc: Global, part: &Graph, beside: FoundBeside<'_>) -> Result<Found, AllocError>
    requires found { KnowsVerdicts beside.judged.now beside.found.now }
    requires changed { AreChanged beside.judged.now part.now (names beside.folders.now) }
    ensures { IfOk result (IsFound part.now) }
{
    let nothing = Known::new(alloc);
    let known = known_beside(alloc, part, &nothing, beside)?;
    verdicts(alloc, part, &known)
}

/// The part of a snapshot whose packages are those without faults, with their findings. What it leaves out is given.
pub fn faultless_part(
    alloc: Global,
    snapshot: &Snapshot,
    found: &Found,
    left: &LeftOut<'_>,
) -> Result<SoundPart, AllocError>
    requires found { IsFound snapshot.now.files found.now }
    requires left { IsLeftOut snapshot.now.files (verdicts_by found.now.findings.export_table) (names left.now.folders.items) (names left.now.paths.items) }
    ensures part { IfOk result (λ part. part.snapshot ≡ part_of_snapshot snapshot.now (verdicts_by found.now.findings.export_table)) }
    ensures found { IfOk result (λ part. IsFound part.snapshot.files part.found) }
{
    let files = part_graph(alloc, &snapshot.files, &left.paths)?;
    let beside = FoundBeside {
        judged: &snapshot.files,
        found: &found.known,
        folders: &left.folders,
    };
    let found = part_found(alloc, &files, beside)?;
    let snapshot = Snapshot {
        number: snapshot.number,
        limits: snapshot.limits,
        files,
    };
    Ok(SoundPart { snapshot, found })
}
