//! By what answers are told.
use crate::naming::FolderNaming;
use lsp_documents::Documents;
use lsp_params::ClientAbilities;

/// What answers are told by: what the client can do, where the folder lies, and which documents are open.
#[derive(Clone, Copy)]
pub struct Telling<'a> {
    pub abilities: ClientAbilities,
    pub naming: &'a FolderNaming,
    pub documents: &'a Documents,
}
