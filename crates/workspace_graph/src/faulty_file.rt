//! Files that have no tree.
ghost use Rattle.std.specs.Prelude.{◌≡◌, IfOk};
ghost use Rattle.go_ast.specs.Faults.{IsFaultOf};

use base_files::{FileText, Path};
use go_scanner::TextFault;
use std::alloc::AllocError;
use std::marker::Model;

/// A Go file without a tree, with the first fault of its text. A clone shares the text.
#[derive(Drop)]
pub struct FaultyFile {
    path: Path,
    text: FileText,
    fault: TextFault,
}

impl Model for FaultyFile {
    ghost use Rattle.go_ast.specs.Faults.{IsFaultOf};
    ghost use Rattle.workspace_graph.specs.FaultyFiles.{FaultyParts};

    ghost Value = { FaultyParts };

    ghost view = { λ a. record { path = a.path; text = a.text; fault = a.fault } };

    ghost invariant = { λ a. IsFaultOf a.text a.fault };
}

impl FaultyFile {
    /// The file with this path and text, whose first fault is `fault`.
    pub(crate) fn new(
        path: &Path,
        text: &FileText,
        fault: TextFault,
    ) -> Result<FaultyFile, AllocError>
        requires { IsFaultOf text.now fault }
        ensures path { IfOk result (λ file. file.path ≡ path.now) }
        ensures text { IfOk result (λ file. file.text ≡ text.now) }
        ensures fault { IfOk result (λ file. file.fault ≡ fault) }
    {
        let path = path.clone()?;
        let text = text.clone()?;
        Ok(FaultyFile { path, text, fault })
    }

    /// The path of the file.
    pub fn path(&self) -> &Path
        ensures { result.now ≡ self.now.path }
    {
        &self.path
    }

    /// The text of the file.
    pub fn text(&self) -> &FileText
        ensures { result.now ≡ self.now.text }
    {
        &self.text
    }

    /// The first fault of the text.
    pub fn fault(&self) -> TextFault
        ensures fault { result ≡ self.now.fault }
        ensures is_fault { IsFaultOf self.now.text self.now.fault }
    {
        self.fault
    }
}

impl Clone for FaultyFile {
    ghost is_clone = { λ file copy. copy ≡ file };

    fn clone(&self) -> Result<FaultyFile, AllocError> {
        let path = self.path.clone()?;
        let text = self.text.clone()?;
        let fault = self.fault;
        Ok(FaultyFile { path, text, fault })
    }
}
