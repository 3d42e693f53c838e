//! Marks the packages in whose closures a change changes files.
ghost use Rattle.std.specs.Prelude.{IfOk};
ghost use Rattle.workspace_graph.specs.Borrows.{names};
ghost use Rattle.build_carry.specs.Changes.{MarkClosures};

use crate::folders::folder_marks;
use std::alloc::{AllocError, Global};
use workspace_graph::Graph;

/// Marks each package whose closure contains a package of one of these folders. One search along importers finds them all.
pub fn closure_marks(
    alloc: Global,
    graph: &Graph,
    folders: &[&[u8]],
) -> Result<Vec<bool>, AllocError>
    ensures { IfOk result (λ marks. MarkClosures graph.now (names folders.now) marks.items) }
{
    let marks = folder_marks(alloc, graph, folders)?;
    graph.reaching(alloc, &marks)
}

/// The marks of a change: in the workspace before and in the one after, each package in whose closure a package has other files in the
/// other workspace.
#[derive(Drop)]
pub struct Marks {
    pub before: Vec<bool>,
    pub after: Vec<bool>,
}
