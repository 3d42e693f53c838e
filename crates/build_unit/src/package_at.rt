//! The package that is built.
use workspace_check::Known;
use workspace_graph::Graph;

/// A package of a graph, by its number, with the numbers of its closure and the known verdicts on packages of the graph.
#[derive(Clone, Copy)]
pub(crate) struct PackageAt<'a> {
    pub(crate) graph: &'a Graph,
    pub(crate) number: usize,
    pub(crate) closure: &'a [usize],
    pub(crate) known: &'a Known,
}
