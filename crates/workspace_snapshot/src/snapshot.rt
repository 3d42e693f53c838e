//! Snapshots of a workspace.
use base_files::Limits;
use workspace_graph::Graph;

/// A state of a workspace: its number, its files with their graph, and the limits that plans keep. The value of the graph in contracts is
/// the files.
#[derive(Drop)]
pub struct Snapshot {
    pub number: u64,
    pub limits: Limits,
    pub files: Graph,
}
