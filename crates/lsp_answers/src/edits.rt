//! Edits as JSON.
ghost use Rattle.std.specs.Prelude.{◌≡◌, IfOk};
ghost use Rattle.serde_json.specs.View.{items_view, members_view, view};
ghost use Rattle.lsp_answers.specs.Edits.{apply_edit_params, changes_value, document_changes_value, document_edit_value, text_edit_value, version_value, versioned_document};

use crate::places::{Between, range_value};
use serde_json::{Map, Value, json};
use std::alloc::{AllocError, Global};

/// A range that becomes another text.
pub fn text_edit_value(alloc: Global, range: Between, text: &str) -> Result<Value, AllocError>
    ensures { IfOk result (λ value. view value ≡ text_edit_value range text.now) }
{
    let range = range_value(alloc, range)?;
    json!(in alloc; {"range": range, "newText": text})
}

/// The version of a document: `null` where it is not open.
fn version_value(version: Option<i64>) -> Value
    ensures { view result ≡ version_value version }
{
    match version {
        Some(version) => Value::from(version),
        None => Value::Null,
    }
}

/// A document with its version.
fn versioned_document(alloc: Global, uri: &str, version: Option<i64>) -> Result<Value, AllocError>
    ensures { IfOk result (λ value. view value ≡ versioned_document uri.now version) }
{
    let version = version_value(version);
    json!(in alloc; {"uri": uri, "version": version})
}

/// The edits of a document, with its version.
pub fn document_edit_value(
    alloc: Global,
    uri: &str,
    version: Option<i64>,
    edits: Vec<Value>,
) -> Result<Value, AllocError>
    ensures { IfOk result (λ value. view value ≡ document_edit_value uri.now version (items_view edits.items)) }
{
    let document = versioned_document(alloc, uri, version)?;
    let edits = Value::Array(edits);
    json!(in alloc; {"textDocument": document, "edits": edits})
}

/// The edits of documents.
pub fn document_changes_value(alloc: Global, documents: Vec<Value>) -> Result<Value, AllocError>
    ensures { IfOk result (λ value. view value ≡ document_changes_value (items_view documents.items)) }
{
    let documents = Value::Array(documents);
    json!(in alloc; {"documentChanges": documents})
}

/// The edits of documents by their URIs, for clients that take no versions.
pub fn changes_value(alloc: Global, edits: Map<String, Value>) -> Result<Value, AllocError>
    ensures { IfOk result (λ value. view value ≡ changes_value (members_view edits.entries)) }
{
    let edits = Value::Object(edits);
    json!(in alloc; {"changes": edits})
}

/// The parameters of a request that the client apply an edit.
pub fn apply_edit_params(alloc: Global, label: &str, edit: Value) -> Result<Value, AllocError>
    ensures { IfOk result (λ value. view value ≡ apply_edit_params label.now (view edit)) }
{
    json!(in alloc; {"label": label, "edit": edit})
}
