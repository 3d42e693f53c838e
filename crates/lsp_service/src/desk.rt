//! A desk that answers the requests of an editor.
ghost use Rattle.std.specs.Prelude.{ℕ, Bool, IfOk, List, Result, string_bytes};
ghost use Rattle.base_files.specs.Workspace.{Workspace};
ghost use Rattle.base_files.specs.declared.refusal.Refusal.{Refusal as WhyRefused};
ghost use Rattle.lsp_documents.specs.declared.documents.Documents.{Documents as OpenDocuments};
ghost use Rattle.lsp_edits.specs.declared.telling.Telling.{Telling as ToldBy};
ghost use Rattle.lsp_told.specs.Diagnostics.{faults_view};
ghost use Rattle.lsp_told.specs.Requests.{AskedOf, request_view};
ghost use Rattle.lsp_told.specs.declared.fault.AskFault.{AskFault as WhyFailed};
ghost use Rattle.serde_json.specs.declared.value.Value.{Value as Json};
ghost use Rattle.workspace_check.specs.declared.fault.FileFault.{FileFault as Fault};

use base_files::{Files, Refusal};
use lsp_documents::Documents;
use lsp_edits::Telling;
use lsp_told::{AskFault, EditorRequest};
use serde_json::Value;
use std::alloc::{AllocError, Global};
use workspace_check::FileFault;

/// Answers the requests of an editor over the texts that it was given.
pub trait RequestDesk {
    /// The files on the disk are given: the desk before it, the documents that are open, the files, whether something changed, or a refusal,
    /// and the desk after it.
    ghost takes_disk: { Self → OpenDocuments → Workspace → Result Bool WhyRefused → Self → Type 0 };

    /// The texts of documents are given: the desk before it, the documents, whether something changed, or a refusal, and the desk after it.
    ghost takes_documents: { Self → OpenDocuments → Result Bool WhyRefused → Self → Type 0 };

    /// Whether a document has another text than its file here: the desk before it, the documents, the answer, and the desk after it.
    ghost differs: { Self → OpenDocuments → Result Bool WhyRefused → Self → Type 0 };

    /// A request: the desk before it, by what answers are told, the request, its answer, and the desk after it.
    ghost answers: { Self → ToldBy → AskedOf → Result Json WhyFailed → Self → Type 0 };

    /// The faults of all files: the desk before it, the faults, and the desk after it.
    ghost lists: { Self → Result (List Fault) WhyRefused → Self → Type 0 };

    /// What is told of a fault: the desk before it, what stands before the folder in names, the fault, the words, and the desk after it.
    ghost tells: { Self → List ℕ → WhyFailed → List ℕ → Self → Type 0 };

    /// Gives the desk the files on the disk, but for those that are open. Returns whether that changed something.
    fn take_disk(
        &mut self,
        alloc: Global,
        documents: &Documents,
        disk: &Files,
    ) -> Result<bool, Refusal>
        ensures { takes_disk self.old documents.now disk.now result self.new };

    /// Gives the desk the texts of the documents that are open. Returns whether that changed something.
    fn take_documents(&mut self, alloc: Global, documents: &Documents) -> Result<bool, Refusal>
        ensures { takes_documents self.old documents.now result self.new };

    /// Whether a document that is open has another text than its file here.
    fn differ(&mut self, alloc: Global, documents: &Documents) -> Result<bool, Refusal>
        ensures { differs self.old documents.now result self.new };

    /// Answers a request.
    fn answer(
        &mut self,
        alloc: Global,
        telling: Telling<'_>,
        request: EditorRequest<'_>,
    ) -> Result<Value, AskFault>
        ensures { answers self.old telling.entry (request_view request.entry) result self.new };

    /// The faults of all files.
    fn faults(&mut self, alloc: Global) -> Result<Vec<FileFault>, Refusal>
        ensures { lists self.old (faults_view result) self.new };

    /// What is told of a fault.
    fn words(&mut self, alloc: Global, prefix: &str, fault: &AskFault) -> Result<String, AllocError>
        ensures { IfOk result (λ words. tells self.old prefix.now fault.now (string_bytes words) self.new) };
}
