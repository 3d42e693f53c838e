//! The rename of fields and methods while it is judged.
use refs_binding::{Declaration, FaultlessWorkspace};

/// A field or method that is renamed, and its type definition by rank, if the workspace has it.
#[derive(Clone, Copy)]
pub struct RenamedMember<'a> {
    pub declaration: &'a Declaration,
    pub definition: Option<usize>,
}

/// The rename of fields and methods of one name: the workspace before it, the members, and the new name. `called` is their present name, if
/// it was found. `reaching` marks the packages that can use one of the members.
#[derive(Clone, Copy)]
pub struct MemberRename<'a> {
    pub workspace: &'a FaultlessWorkspace<'a>,
    pub reaching: &'a [bool],
    pub members: &'a [RenamedMember<'a>],
    pub called: Option<&'a [u8]>,
    pub name: &'a [u8],
}
