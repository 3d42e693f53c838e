//! Marks the packages of some folders.
ghost use Rattle.std.specs.Prelude.{IfOk};
ghost use Rattle.workspace_graph.specs.Borrows.{names};
ghost use Rattle.build_carry.specs.Changes.{MarkFolders};

use std::alloc::{AllocError, Global};
use workspace_graph::Graph;

/// Marks each package whose path is among these folders.
pub fn folder_marks(
    alloc: Global,
    graph: &Graph,
    folders: &[&[u8]],
) -> Result<Vec<bool>, AllocError>
    ensures { IfOk result (λ marks. MarkFolders graph.now (names folders.now) marks.items) }
{
    let mut marks = vec![in alloc; false; graph.len()]?;
    for folder in folders {
        if let Some(number) = graph.number_of(folder) {
            marks[number] = true;
        }
    }
    Ok(marks)
}
