//! What the server keeps of an editor.
ghost use Rattle.std.specs.Prelude.{◌≡◌, string_bytes};
ghost use Rattle.lsp_editor.specs.Editors.{IsNewEditor, TellsBy, as_opened, as_settled, is_awaiting, made_in_documents, opened_behind, redone, renamed, told_texts, undone};

use lsp_documents::Documents;
use lsp_edits::{FolderNaming, Telling};
use lsp_params::ClientAbilities;
use lsp_position::PositionEncoding;
use std::alloc::Global;
use std::collections::BTreeMap;

/// What was published last of a document: its URI, its version, and its faults as a text.
#[derive(Drop)]
pub struct Published {
    pub uri: String,
    pub version: i64,
    pub text: String,
}

/// What the client is yet to do of the edits that it was told.
#[derive(Clone, Copy)]
pub enum Awaited {
    /// It was told none, or the texts that it has count behind them.
    Nothing,
    /// A document that is open may have the text from before them.
    Documents,
    /// Each document that was open has the text from behind them. Other files may have texts from before them.
    OtherFiles,
}

/// What is awaited behind a document that was opened.
fn opened_behind(awaited: Awaited) -> Awaited
    ensures { result ≡ opened_behind awaited }
{
    match awaited {
        Awaited::Nothing => Awaited::Nothing,
        Awaited::Documents => Awaited::Documents,
        Awaited::OtherFiles => Awaited::Documents,
    }
}

/// What the server keeps of an editor beside the files.
#[derive(Drop)]
pub struct Editor {
    pub abilities: ClientAbilities,
    pub naming: FolderNaming,
    pub documents: Documents,
    pub published: BTreeMap<String, Published>,
    /// Files on the disk may have changed.
    pub is_stale: bool,
    /// What the client is yet to do of the edits that it was told.
    pub awaited: Awaited,
    /// How many renames can be taken back, and done again.
    pub undos: usize,
    pub redos: usize,
}

impl Editor {
    /// An editor that did not initialize yet. `root` is the folder, with a slash behind it.
    pub fn new(alloc: Global, root: String) -> Editor
        ensures { IsNewEditor (string_bytes root) result }
    {
        Editor {
            abilities: ClientAbilities {
                encoding: PositionEncoding::Utf16,
                has_document_changes: false,
            },
            naming: FolderNaming {
                root,
                prefix: String::new(alloc),
            },
            documents: Documents::new(alloc),
            published: BTreeMap::new(alloc),
            is_stale: true,
            awaited: Awaited::Nothing,
            undos: 0,
            redos: 0,
        }
    }

    /// By what answers are told.
    pub fn telling(&self) -> Telling<'_>
        ensures { TellsBy self.now result }
    {
        Telling {
            abilities: self.abilities,
            naming: &self.naming,
            documents: &self.documents,
        }
    }

    /// Whether the client is yet to make edits that it was told.
    pub fn is_awaiting(&self) -> bool
        ensures { result ≡ is_awaiting self.now.awaited }
    {
        match self.awaited {
            Awaited::Nothing => false,
            Awaited::Documents => true,
            Awaited::OtherFiles => true,
        }
    }

    /// A document was opened. It may have the text from before the edits that the client was told.
    pub(crate) fn note_opened(&mut self)
        ensures { self.new ≡ as_opened self.old }
    {
        self.awaited = opened_behind(self.awaited);
    }

    /// Each document that is open has the text from behind the edits that the client was told.
    pub fn note_made(&mut self)
        ensures { self.new ≡ made_in_documents self.old }
    {
        self.awaited = Awaited::OtherFiles;
    }

    /// No edits are awaited any more: the texts that the client and the disk have count.
    pub fn note_settled(&mut self)
        ensures { self.new ≡ as_settled self.old }
    {
        self.awaited = Awaited::Nothing;
    }

    /// A rename was told: the book has edits that the client is to make.
    pub fn note_rename(&mut self)
        ensures { self.new ≡ renamed self.old }
    {
        self.undos = self.undos.saturating_add(1);
        self.redos = 0;
        self.is_stale = true;
        self.awaited = Awaited::Documents;
    }

    /// A rename was taken back.
    pub fn note_undo(&mut self)
        ensures { self.new ≡ undone self.old }
    {
        self.undos = self.undos.saturating_sub(1);
        self.redos = self.redos.saturating_add(1);
        self.is_stale = true;
        self.awaited = Awaited::Documents;
    }

    /// A rename was done again.
    pub fn note_redo(&mut self)
        ensures { self.new ≡ redone self.old }
    {
        self.redos = self.redos.saturating_sub(1);
        self.undos = self.undos.saturating_add(1);
        self.is_stale = true;
        self.awaited = Awaited::Documents;
    }

    /// Texts came that are no rename's: no rename before them is taken back.
    pub fn note_texts(&mut self)
        ensures { self.new ≡ told_texts self.old }
    {
        self.undos = 0;
        self.redos = 0;
    }
}
