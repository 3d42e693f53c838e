//! A parsed file: its path, its text with tokens, and its syntax tree, shared by all owners.
ghost use Rattle.std.specs.Prelude.{◌≡◌, ◌<◌, length, IfOk};
ghost use Rattle.go_ast.specs.FileView.{file_view};
ghost use Rattle.go_ast.specs.SourceFile.{IsSourceFile, source_of, spelling_of, offset_of};

use crate::tree::File;
use base_files::Path;
use go_scanner::Pieces;
use std::alloc::{AllocError, Global};
use std::marker::Model;
use std::sync::Arc;

/// The parts of a parsed file, which its clones share.
#[derive(Drop)]
struct FileTreeParts {
    path: Path,
    pieces: Pieces,
    file: Arc<File, Global>,
}

/// A Go file without syntax faults: its path, its text with tokens, and its syntax tree. It is immutable and clones share it; files whose
/// tokens are of equal kinds can share a tree.
pub struct FileTree {
    parts: Arc<FileTreeParts, Global>,
}

/// Written out so that crates above call it, instead of proving again how each part is dropped.
impl Drop for FileTree {
    fn drop(self) {
        let FileTree { parts } = self;
        drop(parts);
    }
}

impl Model for FileTree {
    ghost use Rattle.std.specs.Arc.{arc_value};
    ghost use Rattle.std.specs.Coded.{codes};
    ghost use Rattle.go_ast.specs.SourceFile.{FileParts, IsSourceFile, source_of};
    ghost use Rattle.go_ast.specs.contracts.tree.File as e;

    ghost Value = { FileParts };

    ghost coded = { Prim.hlevel (codes, e.the_row.coded) };

    ghost view = { λ a. record { path = (arc_value a.parts).path; cut = (arc_value a.parts).pieces; file = arc_value (arc_value a.parts).file } };

    ghost invariant = { λ a. IsSourceFile (source_of (record { path = (arc_value a.parts).path; cut = (arc_value a.parts).pieces; file = arc_value (arc_value a.parts).file })) };
}

impl FileTree {
    /// Joins a path, a text with tokens, and the syntax tree of these tokens.
    pub fn new(
        alloc: Global,
        path: Path,
        pieces: Pieces,
        file: File,
    ) -> Result<FileTree, AllocError>
        requires { IsSourceFile (record { path = path; cut = pieces; tree = file_view file }) }
        ensures { IfOk result (λ made. made ≡ record { path = path; cut = pieces; file = file }) }
    {
        let file = Arc::new(alloc, file)?;
        let parts = Arc::new(alloc, FileTreeParts { path, pieces, file })?;
        Ok(FileTree { parts })
    }

    /// A file of this path and these tokens that shares the syntax tree of `self`. The tree must be that of its tokens too.
    pub fn sharing_tree(
        &self,
        alloc: Global,
        path: Path,
        pieces: Pieces,
    ) -> Result<FileTree, AllocError>
        requires { IsSourceFile (record { path = path; cut = pieces; tree = file_view self.now.file }) }
        ensures { IfOk result (λ made. made ≡ record { path = path; cut = pieces; file = self.now.file }) }
    {
        let file = Arc::try_clone(&self.parts.file)?;
        let parts = Arc::new(alloc, FileTreeParts { path, pieces, file })?;
        Ok(FileTree { parts })
    }

    /// The file's path.
    pub fn path(&self) -> &Path
        ensures { result.now ≡ self.now.path }
    {
        &self.parts.path
    }

    /// The file's text with its tokens.
    pub fn pieces(&self) -> &Pieces
        ensures { result.now ≡ self.now.cut }
    {
        &self.parts.pieces
    }

    /// The syntax tree. Its numbers are token indices, from 0.
    pub fn file(&self) -> &File
        ensures tree { result.now ≡ self.now.file }
        ensures is_file { IsSourceFile (source_of self.now) }
    {
        &self.parts.file
    }

    /// The bytes of the token of this index, from 0. An inserted semicolon has none, and so has an index beyond the last token.
    pub fn spelling(&self, token: usize) -> &[u8]
        ensures { result.now ≡ spelling_of (source_of self.now) token }
    {
        let pieces = self.pieces();
        if token < pieces.tokens().len() {
            pieces.text(token)
        } else {
            &[]
        }
    }

    /// The byte offset at which the token of this index begins. Beyond the last token it is the length of the file.
    pub fn offset(&self, token: usize) -> usize
        ensures { result ≡ offset_of (source_of self.now) token }
    {
        let pieces = self.pieces();
        match pieces.tokens().get(token) {
            Some(piece) => piece.start(),
            None => pieces.file().len(),
        }
    }
}

impl Clone for FileTree {
    ghost is_clone = { λ file copy. copy ≡ file };

    fn clone(&self) -> Result<FileTree, AllocError> {
        let parts = Arc::try_clone(&self.parts)?;
        Ok(FileTree { parts })
    }
}
