//! Requests of an editor, answered as commands of a session at a desk.
use base_files::{Files, Refusal};
use lsp_documents::Documents;
use lsp_edits::Telling;
use lsp_requests::{answer, documents_differ, faults_now, put_disk, put_documents, words_now};
use lsp_service::RequestDesk;
use lsp_told::{AskFault, EditorRequest};
use serde_json::Value;
use server_commands::Desk;
use std::alloc::{AllocError, Global};
use workspace_check::FileFault;

/// Answers requests as commands of a session at a desk.
pub(crate) struct SessionDesk<D> {
    pub desk: D,
}

impl<D: Desk> RequestDesk for SessionDesk<D> {
    ghost use Rattle.lsp_requests.specs.Answers.{AnswersRequest};
    ghost use Rattle.lsp_requests.specs.Faults.{SeesFaults, TellsFault};
    ghost use Rattle.lsp_requests.specs.Texts.{SeesDisk, SeesDocuments, SeesOther};

    ghost takes_disk = { λ old documents disk came new. SeesDisk D.steps old.desk documents disk came new.desk };

    ghost takes_documents = { λ old documents came new. SeesDocuments D.steps old.desk documents came new.desk };

    ghost differs = { λ old documents came new. SeesOther D.steps old.desk documents came new.desk };

    ghost answers = { λ old telling asked came new. AnswersRequest D.steps telling asked old.desk came new.desk };

    ghost lists = { λ old came new. SeesFaults D.steps old.desk came new.desk };

    ghost tells = { λ old prefix fault words new. TellsFault D.steps old.desk prefix fault words new.desk };

    fn take_disk(
        &mut self,
        alloc: Global,
        documents: &Documents,
        disk: &Files,
    ) -> Result<bool, Refusal> {
        put_disk(alloc, &mut self.desk, documents, disk)
    }

    fn take_documents(&mut self, alloc: Global, documents: &Documents) -> Result<bool, Refusal> {
        put_documents(alloc, &mut self.desk, documents)
    }

    fn differ(&mut self, alloc: Global, documents: &Documents) -> Result<bool, Refusal> {
        documents_differ(alloc, &mut self.desk, documents)
    }

    fn answer(
        &mut self,
        alloc: Global,
        telling: Telling<'_>,
        request: EditorRequest<'_>,
    ) -> Result<Value, AskFault> {
        answer(alloc, &mut self.desk, telling, request)
    }

    fn faults(&mut self, alloc: Global) -> Result<Vec<FileFault>, Refusal> {
        faults_now(alloc, &mut self.desk)
    }

    fn words(
        &mut self,
        alloc: Global,
        prefix: &str,
        fault: &AskFault,
    ) -> Result<String, AllocError> {
        words_now(alloc, &mut self.desk, prefix, fault)
    }
}
