//! Marks of packages, by their numbers.
ghost use Rattle.std.specs.Prelude.{◌↔◌, IsTrue};
ghost use Rattle.workspace_graph.specs.Search.{IsMarked};

/// Whether the package of a number is marked.
pub fn is_marked(marks: &[bool], number: usize) -> bool
    ensures { IsTrue result ↔ IsMarked marks.now number }
{
    match marks.get(number) {
        Some(mark) => *mark,
        None => false,
    }
}
