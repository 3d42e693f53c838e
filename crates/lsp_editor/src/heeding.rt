//! Heeds notifications of the client.
ghost use Rattle.std.specs.Prelude.{◌≡◌, IfOk, OnOk, Some, true};
ghost use Rattle.serde_json.specs.View.{view};
ghost use Rattle.lsp_edits.specs.Naming.{owned_text};
ghost use Rattle.lsp_message.specs.Calls.{viewed};
ghost use Rattle.lsp_params.specs.Changed.{changes_in, document_view, opened_document};
ghost use Rattle.lsp_editor.specs.Heeding.{ChangesNamed, ChangesTo, ClosesNamed, FindsDocument, Heeds, HeedsNotice, OpensAsked, OpensIf, OpensNamed, is_known, notice_of};

use crate::editor::Editor;
use crate::taken::is_taken;
use lsp_edits::name_in;
use lsp_params::{
    OpenedDocument, changes_in, opened_document, uri_of_document, version_of_document,
};
use serde_json::Value;
use std::alloc::{AllocError, Global};

/// What a notification tells.
#[derive(Clone, Copy)]
pub enum Notice {
    /// A document was opened, or has another text.
    Opened,
    /// A document was changed.
    Changed,
    /// A document was closed.
    Closed,
    /// A document was saved.
    Saved,
    /// Files on the disk were changed.
    FilesChanged,
    /// It is no matter of this server.
    Other,
}

/// What a notification of a method tells.
fn notice_of(method: &str) -> Notice
    ensures { result ≡ notice_of method.now }
{
    if method == "textDocument/didOpen" {
        Notice::Opened
    } else if method == "textDocument/didChange" {
        Notice::Changed
    } else if method == "textDocument/didClose" {
        Notice::Closed
    } else if method == "textDocument/didSave" {
        Notice::Saved
    } else if method == "workspace/didChangeWatchedFiles" {
        Notice::FilesChanged
    } else if method == "workspace/didRenameFiles" {
        Notice::FilesChanged
    } else {
        Notice::Other
    }
}

/// Whether the server knows a notification: faults may have changed behind it.
fn is_known(notice: Notice) -> bool
    ensures { result ≡ is_known notice }
{
    match notice {
        Notice::Other => false,
        _ => true,
    }
}

/// Opens a document that is taken.
fn open_taken(
    alloc: Global,
    editor: &mut Editor,
    name: &str,
    opened: OpenedDocument<'_>,
) -> Result<(), AllocError>
    ensures { OnOk result (OpensIf true name.now (document_view opened.entry) editor.old editor.new) }
{
    let documents = &mut editor.documents;
    documents.open(alloc, name, opened.uri, opened.version, opened.text)?;
    editor.note_opened();
    Ok(())
}

/// Opens a document of a name, where it is taken.
fn open_named(
    alloc: Global,
    editor: &mut Editor,
    name: &str,
    opened: OpenedDocument<'_>,
) -> Result<(), AllocError>
    ensures { OnOk result (OpensNamed (Some name.now) (document_view opened.entry) editor.old editor.new) }
{
    if is_taken(&editor.naming, name, opened.text) {
        open_taken(alloc, editor, name, opened)
    } else {
        Ok(())
    }
}

/// Opens a document, where it is one of the folder.
fn open_document(
    alloc: Global,
    editor: &mut Editor,
    opened: OpenedDocument<'_>,
) -> Result<(), AllocError>
    ensures { OnOk result (OpensAsked (Some (document_view opened.entry)) editor.old editor.new) }
{
    match name_in(alloc, &editor.naming, opened.uri)? {
        Some(name) => open_named(alloc, editor, name.as_str(), opened),
        None => Ok(()),
    }
}

/// Opens the document that parameters give.
fn open_given(alloc: Global, editor: &mut Editor, params: &Value) -> Result<(), AllocError>
    ensures { OnOk result (OpensAsked (opened_document (view params.now)) editor.old editor.new) }
{
    match opened_document(params) {
        Some(opened) => open_document(alloc, editor, opened),
        None => Ok(()),
    }
}

/// Changes a document of a name by the content changes that parameters give, if they give some.
fn change_to(
    alloc: Global,
    editor: &mut Editor,
    name: &str,
    version: i64,
    params: &Value,
) -> Result<(), AllocError>
    ensures { OnOk result (ChangesTo name.now (Some version) (changes_in (view params.now)) editor.old editor.new) }
{
    match changes_in(alloc, params)? {
        Some(changes) => {
            let encoding = editor.abilities.encoding;
            let documents = &mut editor.documents;
            documents.change(alloc, encoding, name, version, changes.as_slice())
        }
        None => Ok(()),
    }
}

/// Changes a document of a name by content changes.
fn change_named(
    alloc: Global,
    editor: &mut Editor,
    name: &str,
    params: &Value,
) -> Result<(), AllocError>
    ensures { OnOk result (ChangesNamed (Some name.now) (view params.now) editor.old editor.new) }
{
    match version_of_document(params) {
        Some(version) => change_to(alloc, editor, name, version, params),
        None => Ok(()),
    }
}

/// The name of the document that parameters name, if it is one of the folder.
fn document_named(
    alloc: Global,
    editor: &Editor,
    params: &Value,
) -> Result<Option<String>, AllocError>
    ensures { IfOk result (λ name. FindsDocument editor.now.naming (view params.now) (owned_text name)) }
{
    match uri_of_document(params) {
        Some(uri) => name_in(alloc, &editor.naming, uri),
        None => Ok(None),
    }
}

/// Changes a document.
fn change(alloc: Global, editor: &mut Editor, params: &Value) -> Result<(), AllocError>
    ensures { OnOk result (HeedsNotice Notice.Changed (view params.now) editor.old editor.new) }
{
    match document_named(alloc, editor, params)? {
        Some(name) => change_named(alloc, editor, name.as_str(), params),
        None => Ok(()),
    }
}

/// Closes a document of a name: what lies on the disk counts again.
fn close_named(editor: &mut Editor, name: &str)
    ensures { ClosesNamed (Some name.now) editor.old editor.new }
{
    editor.documents.close(name);
    editor.is_stale = true;
}

/// Closes a document.
fn close(alloc: Global, editor: &mut Editor, params: &Value) -> Result<(), AllocError>
    ensures { OnOk result (HeedsNotice Notice.Closed (view params.now) editor.old editor.new) }
{
    match document_named(alloc, editor, params)? {
        Some(name) => {
            close_named(editor, name.as_str());
            Ok(())
        }
        None => Ok(()),
    }
}

/// Heeds a notification with parameters.
fn heed_with(
    alloc: Global,
    editor: &mut Editor,
    notice: Notice,
    params: &Value,
) -> Result<(), AllocError>
    ensures { OnOk result (HeedsNotice notice (view params.now) editor.old editor.new) }
{
    match notice {
        Notice::Opened => open_given(alloc, editor, params),
        Notice::Changed => change(alloc, editor, params),
        Notice::Closed => close(alloc, editor, params),
        Notice::Saved => {
            editor.note_settled();
            Ok(())
        }
        Notice::FilesChanged => {
            editor.note_settled();
            editor.is_stale = true;
            Ok(())
        }
        Notice::Other => Ok(()),
    }
}

/// Heeds a notification of a method with parameters. Returns whether faults may have changed.
fn heed_given(
    alloc: Global,
    editor: &mut Editor,
    method: &str,
    params: &Value,
) -> Result<bool, AllocError>
    ensures { IfOk result (λ told. Heeds method.now (Some (view params.now)) editor.old told editor.new) }
{
    let notice = notice_of(method);
    heed_with(alloc, editor, notice, params)?;
    Ok(is_known(notice))
}

/// Heeds a notification. Returns whether faults may have changed.
pub fn heed(
    alloc: Global,
    editor: &mut Editor,
    method: &str,
    params: Option<&Value>,
) -> Result<bool, AllocError>
    ensures { IfOk result (λ told. Heeds method.now (viewed params.entry) editor.old told editor.new) }
{
    match params {
        Some(params) => heed_given(alloc, editor, method, params),
        None => Ok(false),
    }
}
