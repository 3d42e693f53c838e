//! The documents that are open.
ghost use Rattle.std.specs.Prelude.{◌≡◌, ℕ, List, IfOk, OnErr, OnOk, None, Some};
ghost use Rattle.std.specs.Option.{option_copied};
ghost use Rattle.lsp_documents.specs.Documents.{ChangesDocument, IsDocumentAfter, IsOnlyChange, KeepsDocuments, OpensDocument, document_at};

use crate::changes::{TextChange, bytes_of, changed_by};
use lsp_position::PositionEncoding;
use std::alloc::{AllocError, Global};
use std::collections::BTreeMap;

/// A document: its URI, its version, and its text, or none where a change could not be followed.
#[derive(Drop)]
pub struct Document {
    pub uri: String,
    pub version: i64,
    pub text: Option<Vec<u8>>,
}

/// The documents that are open, by the names of their files.
#[derive(Drop)]
pub struct Documents {
    entries: BTreeMap<String, Document>,
}

/// A document after content changes.
fn document_after(
    alloc: Global,
    encoding: PositionEncoding,
    version: i64,
    changes: &[TextChange<'_>],
    before: &Document,
) -> Result<Document, AllocError>
    ensures { IfOk result (IsDocumentAfter encoding version changes.now before.now) }
{
    let text = changed_by(alloc, encoding, bytes_of(&before.text), changes)?;
    let uri = before.uri.clone()?;
    Ok(Document { uri, version, text })
}

impl Documents {
    /// No document.
    pub fn new(alloc: Global) -> Documents
        ensures { (name : List ℕ) → document_at result name ≡ None }
    {
        Documents {
            entries: BTreeMap::new(alloc),
        }
    }

    /// The document of a name, if it is open.
    pub fn get(&self, name: &str) -> Option<&Document>
        ensures { option_copied result ≡ document_at self.now name.now }
    {
        self.entries.get(name)
    }

    /// All documents, by their names.
    pub fn entries(&self) -> &BTreeMap<String, Document>
        ensures { result.now ≡ self.now.entries }
    {
        &self.entries
    }

    /// Has the document of a name be this one.
    fn put(&mut self, alloc: Global, name: &str, document: Document) -> Result<(), AllocError>
        ensures put { OnOk result (IsOnlyChange name.now (Some document) self.old self.new) }
        ensures stays { OnErr result (KeepsDocuments self.old self.new) }
    {
        let key = String::from_str(alloc, name)?;
        match self.entries.insert(key, document) {
            Ok(_) => Ok(()),
            Err(_) => Err(AllocError),
        }
    }

    /// Opens a document, or gives one that is open this URI, version and text.
    pub fn open(
        &mut self,
        alloc: Global,
        name: &str,
        uri: &str,
        version: i64,
        text: &str,
    ) -> Result<(), AllocError>
        ensures opened { OnOk result (OpensDocument name.now uri.now version text.now self.old self.new) }
        ensures stays { OnErr result (KeepsDocuments self.old self.new) }
    {
        let uri = String::from_str(alloc, uri)?;
        let text = Some(Vec::from_slice(alloc, text.as_bytes())?);
        self.put(alloc, name, Document { uri, version, text })
    }

    /// Changes a document, if it is open.
    pub fn change(
        &mut self,
        alloc: Global,
        encoding: PositionEncoding,
        name: &str,
        version: i64,
        changes: &[TextChange<'_>],
    ) -> Result<(), AllocError>
        ensures changed { OnOk result (ChangesDocument encoding name.now version changes.now self.old self.new) }
        ensures stays { OnErr result (KeepsDocuments self.old self.new) }
    {
        match self.entries.get(name) {
            Some(document) => {
                let after = document_after(alloc, encoding, version, changes, document)?;
                self.put(alloc, name, after)
            }
            None => Ok(()),
        }
    }

    /// Closes a document, if it is open.
    pub fn close(&mut self, name: &str)
        ensures { IsOnlyChange name.now None self.old self.new }
    {
        let _closed = self.entries.remove(name);
    }
}
