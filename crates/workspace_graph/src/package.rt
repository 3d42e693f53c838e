//! Packages with their parsed files.
ghost use Rattle.std.specs.Prelude.{IfOk};
ghost use Rattle.workspace_graph.specs.Drafts.{IsSamePackage};

use crate::faulty_file::FaultyFile;
use go_ast::FileTree;
use std::alloc::AllocError;

/// The Go files of a folder, in the order of their paths: `trees` has those that parse, and `faulty` the others.
#[derive(Drop)]
pub struct ParsedPackage {
    pub path: Vec<u8>,
    pub trees: Vec<FileTree>,
    pub faulty: Vec<FaultyFile>,
}

impl ParsedPackage {
    /// A copy of the package, which shares the trees.
    pub(crate) fn copy(&self) -> Result<ParsedPackage, AllocError>
        ensures { IfOk result (λ copy. IsSamePackage copy self.now) }
    {
        Ok(ParsedPackage {
            path: self.path.clone()?,
            trees: self.trees.clone()?,
            faulty: self.faulty.clone()?,
        })
    }
}
