//! The edits of a change, as a client takes them.
ghost use Rattle.std.specs.Prelude.{◌≡◌, IfOk, OnOk, string_bytes};
ghost use Rattle.serde_json.specs.View.{items_view, members_view, view};
ghost use Rattle.lsp_edits.specs.Edits.{IsDocumentEdit, IsToldUri, PutsEdits, TellsByUri, TellsDocuments, TellsEdit, edit_data, edits_data, file_bytes, file_edits, told_version};

use crate::naming::uri_for;
use crate::spans::between;
use crate::telling::Telling;
use base_edits::{Edit, FileChange};
use base_files::{Files, Path};
use lsp_answers::{changes_value, document_changes_value, document_edit_value, text_edit_value};
use lsp_position::PositionEncoding;
use serde_json::{Map, Value};
use std::alloc::{AllocError, Global};

/// An edit of a text.
fn edit_value(
    alloc: Global,
    encoding: PositionEncoding,
    text: &[u8],
    edit: &Edit,
) -> Result<Value, AllocError>
    ensures { IfOk result (λ value. view value ≡ edit_data encoding text.now edit.now) }
{
    let new = String::from_utf8_lossy(alloc, edit.text.bytes())?;
    let range = between(encoding, text, edit.span.start, edit.span.end);
    text_edit_value(alloc, range, new.as_str())
}

/// The edits of a text.
fn edit_values(
    alloc: Global,
    encoding: PositionEncoding,
    text: &[u8],
    edits: &[Edit],
) -> Result<Vec<Value>, AllocError>
    ensures { IfOk result (λ values. items_view values.items ≡ edits_data encoding text.now edits.now) }
{
    let mut values = Vec::new(alloc);
    for edit in edits {
        let value = edit_value(alloc, encoding, text, edit)?;
        values.push(value)?;
    }
    Ok(values)
}

/// The bytes of a file, or none where there is no file.
pub fn file_bytes<'a>(files: &'a Files, path: &Path) -> &'a [u8]
    ensures { result.now ≡ file_bytes files.now path.now }
{
    match files.get(path) {
        Some(text) => text.bytes(),
        None => b"",
    }
}

/// The URI of a file: that of its document, where it is open.
pub fn uri_told(alloc: Global, telling: Telling<'_>, name: &str) -> Result<String, AllocError>
    ensures { IfOk result (λ uri. IsToldUri telling.entry name.now (string_bytes uri)) }
{
    match telling.documents.get(name) {
        Some(document) => document.uri.clone(),
        None => uri_for(alloc, telling.naming, name),
    }
}

/// The version of a file's document, if it is open.
fn told_version(telling: Telling<'_>, name: &str) -> Option<i64>
    ensures { result ≡ told_version telling.entry name.now }
{
    match telling.documents.get(name) {
        Some(document) => Some(document.version),
        None => None,
    }
}

/// The edits of a changed file.
fn file_edits(
    alloc: Global,
    telling: Telling<'_>,
    files: &Files,
    change: &FileChange,
) -> Result<Vec<Value>, AllocError>
    ensures { IfOk result (λ values. items_view values.items ≡ file_edits telling.entry files.now change.now) }
{
    let text = file_bytes(files, &change.path);
    let encoding = telling.abilities.encoding;
    edit_values(alloc, encoding, text, change.edits.as_slice())
}

/// A changed file as the edits of a document with its version.
fn document_value(
    alloc: Global,
    telling: Telling<'_>,
    files: &Files,
    change: &FileChange,
) -> Result<Value, AllocError>
    ensures { IfOk result (λ value. IsDocumentEdit telling.entry files.now change.now (view value)) }
{
    let name = change.path.as_str();
    let edits = file_edits(alloc, telling, files, change)?;
    let uri = uri_told(alloc, telling, name)?;
    document_edit_value(alloc, uri.as_str(), told_version(telling, name), edits)
}

/// Changed files as edits of documents with their versions.
fn documents_value(
    alloc: Global,
    telling: Telling<'_>,
    files: &Files,
    changes: &[FileChange],
) -> Result<Value, AllocError>
    ensures { IfOk result (λ value. TellsDocuments telling.entry files.now changes.now (view value)) }
{
    let mut documents = Vec::new(alloc);
    for change in changes {
        let document = document_value(alloc, telling, files, change)?;
        documents.push(document)?;
    }
    document_changes_value(alloc, documents)
}

/// Puts the edits of a changed file under its URI.
fn put_edits(
    alloc: Global,
    telling: Telling<'_>,
    files: &Files,
    change: &FileChange,
    edits: &mut Map<String, Value>,
) -> Result<(), AllocError>
    ensures { OnOk result (PutsEdits telling.entry files.now change.now (members_view edits.old.entries) (members_view edits.new.entries)) }
{
    let values = file_edits(alloc, telling, files, change)?;
    let uri = uri_told(alloc, telling, change.path.as_str())?;
    match edits.insert(uri, Value::Array(values)) {
        Ok(_) => Ok(()),
        Err(_) => Err(AllocError),
    }
}

/// Changed files as edits by URIs.
fn edits_by_uri(
    alloc: Global,
    telling: Telling<'_>,
    files: &Files,
    changes: &[FileChange],
) -> Result<Value, AllocError>
    ensures { IfOk result (λ value. TellsByUri telling.entry files.now changes.now (view value)) }
{
    let mut edits = Map::new(alloc);
    for change in changes {
        put_edits(alloc, telling, files, change, &mut edits)?;
    }
    changes_value(alloc, edits)
}

/// Changed files as the client takes them: with versions, where it takes these. `files` are those before the change.
pub fn workspace_edit(
    alloc: Global,
    telling: Telling<'_>,
    files: &Files,
    changes: &[FileChange],
) -> Result<Value, AllocError>
    ensures { IfOk result (λ value. TellsEdit telling.entry files.now changes.now (view value)) }
{
    if telling.abilities.has_document_changes {
        documents_value(alloc, telling, files, changes)
    } else {
        edits_by_uri(alloc, telling, files, changes)
    }
}
