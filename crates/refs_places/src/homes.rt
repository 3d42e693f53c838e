//! The packages of declarations, as marks on the packages of a workspace.
ghost use Rattle.std.specs.Prelude.{IfOk, MatchOption};
ghost use Rattle.refs_places.specs.Homes.{HasNoHome, IsNumberOfHome, MarksHomes};

use crate::declared_places::package_path;
use refs_binding::Declaration;
use std::alloc::{AllocError, Global};
use workspace_graph::Graph;

/// The number of the package of a declaration, if the workspace has it.
fn home_number(graph: &Graph, declaration: &Declaration) -> Option<usize>
    ensures { MatchOption result (HasNoHome graph.now declaration.now) (λ number. IsNumberOfHome graph.now declaration.now number) }
{
    match package_path(declaration) {
        None => None,
        Some(path) => graph.number_of(path.path()),
    }
}

/// Marks exactly the packages that declare one of the declarations of a list.
pub fn home_marks(
    alloc: Global,
    graph: &Graph,
    set: &[Declaration],
) -> Result<Vec<bool>, AllocError>
    ensures { IfOk result (λ marks. MarksHomes graph.now set.now marks.items) }
{
    let mut marks = vec![in alloc; false; graph.len()]?;
    for declaration in set {
        if let Some(number) = home_number(graph, declaration) {
            marks[number] = true;
        }
    }
    Ok(marks)
}
