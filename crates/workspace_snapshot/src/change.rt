//! A change of a workspace.
use base_edits::EditSet;
use workspace_graph::Graph;

/// The command that planned a change.
#[derive(Clone, Copy, Debug, PartialEq, Eq)]
pub enum ChangeKind {
    Put,
    Del,
    Rename,
    Move,
}

/// A change: the files on which it was planned, its edit set, and the files after it. Both hold their files as graphs.
#[derive(Drop)]
pub struct Change {
    pub base: Graph,
    pub kind: ChangeKind,
    pub edits: EditSet,
    pub files: Graph,
}
