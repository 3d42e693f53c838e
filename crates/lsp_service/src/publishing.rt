//! Publishes the faults of documents.
ghost use Rattle.std.specs.Prelude.{[], ◌≡◌, ◌++◌, IfOk, OnOk, Some, false, map, option_map, string_bytes};
ghost use Rattle.serde_json.specs.Data.{no_items};
ghost use Rattle.serde_json.specs.View.{items_view, view};
ghost use Rattle.serde_json.specs.Written.{items_have_float};
ghost use Rattle.lsp_documents.specs.Changes.{text_made};
ghost use Rattle.lsp_documents.specs.Documents.{document_at};
ghost use Rattle.lsp_editor.specs.Publications.{compact_lines, publication_of, publication_view, published_view};
ghost use Rattle.lsp_told.specs.Listed.{found_list};
ghost use Rattle.lsp_service.specs.Catching.{all_done};
ghost use Rattle.lsp_service.specs.Publishing.{AreToldClosed, AreToldOpen, IsToldOpen, Publishes, PublishesAfter, PublishesClosed, PublishesOpen, PublishesUnless, ThenPublishes, WaitsIf, is_waiting_by, seen_by, told_closed, told_unless};

use crate::catching_up::catch_up_by;
use crate::desk::RequestDesk;
use base_files::Refusal;
use lsp_documents::Document;
use lsp_editor::{Awaited, Editor, Publication, Published, is_told, lines_of, tell_publications};
use lsp_told::faults_of;
use serde_json::Value;
use std::alloc::{AllocError, Global};
use std::rt::Files;
use workspace_check::FileFault;

/// An open document of a name.
#[derive(Clone, Copy)]
struct OpenDocument<'a> {
    name: &'a str,
    document: &'a Document,
}

/// What is kept of an open document. `text` are the lines of its faults.
fn published_of(document: &Document, text: String) -> Result<Published, AllocError>
    ensures { IfOk result (λ published. (string_bytes published.uri ≡ string_bytes document.now.uri) × (published.version ≡ document.now.version) × (published.text ≡ text)) }
{
    let uri = document.uri.clone()?;
    Ok(Published {
        uri,
        version: document.version,
        text,
    })
}

/// What is published of an open document that has these faults. `text` are their lines.
fn publication_of(
    alloc: Global,
    opened: OpenDocument<'_>,
    text: String,
    faults: Vec<Value>,
) -> Result<Publication, AllocError>
    requires { string_bytes text ≡ compact_lines (items_view faults.items) }
    ensures { IfOk result (λ told. publication_view told ≡ publication_of opened.entry.name.now (string_bytes opened.entry.document.now.uri) opened.entry.document.now.version (items_view faults.items)) }
{
    let name = String::from_str(alloc, opened.name)?;
    let published = published_of(opened.document, text)?;
    Ok(Publication {
        name,
        published,
        faults,
    })
}

/// What is published of an open document that has these faults, unless they were told last.
fn unless_told(
    alloc: Global,
    editor: &Editor,
    opened: OpenDocument<'_>,
    faults: Vec<Value>,
) -> Result<Option<Publication>, AllocError>
    requires { items_have_float (items_view faults.items) ≡ false }
    ensures { IfOk result (λ told. option_map publication_view told ≡ told_unless editor.now (publication_of opened.entry.name.now (string_bytes opened.entry.document.now.uri) opened.entry.document.now.version (items_view faults.items))) }
{
    let lines = lines_of(alloc, faults.as_slice())?;
    if is_told(editor, opened.name, lines.as_str()) {
        Ok(None)
    } else {
        let one = publication_of(alloc, opened, lines, faults)?;
        Ok(Some(one))
    }
}

/// What is published of an open document that has this text.
fn tell_text(
    alloc: Global,
    editor: &Editor,
    opened: OpenDocument<'_>,
    text: &[u8],
    found: &[FileFault],
) -> Result<Option<Publication>, AllocError>
    ensures { IfOk result (λ told. IsToldOpen editor.now found.now opened.entry.name.now opened.entry.document.now (Some text.now) (option_map publication_view told)) }
{
    let faults = faults_of(alloc, editor.telling(), opened.name, text, found)?;
    unless_told(alloc, editor, opened, faults)
}

/// What is published of an open document. Of one whose text is not known that is nothing.
fn tell_document(
    alloc: Global,
    editor: &Editor,
    opened: OpenDocument<'_>,
    found: &[FileFault],
) -> Result<Option<Publication>, AllocError>
    ensures { IfOk result (λ told. IsToldOpen editor.now found.now opened.entry.name.now opened.entry.document.now (text_made opened.entry.document.now.text) (option_map publication_view told)) }
{
    match &opened.document.text {
        Some(text) => tell_text(alloc, editor, opened, text.as_slice(), found),
        None => Ok(None),
    }
}

/// Adds what is published of a document, if it is something.
fn push_publication(all: &mut Vec<Publication>, one: Option<Publication>) -> Result<(), AllocError>
    ensures { OnOk result (map publication_view all.new.items ≡ map publication_view all.old.items ++ found_list (option_map publication_view one)) }
{
    match one {
        Some(publication) => {
            all.push(publication)?;
            Ok(())
        }
        None => Ok(()),
    }
}

/// What is published of all documents that are open.
fn tell_documents(
    alloc: Global,
    editor: &Editor,
    found: &[FileFault],
) -> Result<Vec<Publication>, AllocError>
    ensures { IfOk result (λ told. AreToldOpen editor.now found.now (map publication_view told.items)) }
{
    let mut told = Vec::new(alloc);
    for (name, document) in editor.documents.entries().iter() {
        let opened = OpenDocument {
            name: name.as_str(),
            document,
        };
        let one = tell_document(alloc, editor, opened, found)?;
        push_publication(&mut told, one)?;
    }
    Ok(told)
}

/// What is published of the documents that are open, where the desk has caught up.
fn tell_found<D: RequestDesk>(
    alloc: Global,
    editor: &Editor,
    desk: &mut D,
) -> Result<Vec<Publication>, AllocError>
    ensures { IfOk result (λ told. ThenPublishes D.lists all_done editor.now desk.old (map publication_view told.items) desk.new) }
{
    match desk.faults(alloc) {
        Ok(found) => tell_documents(alloc, editor, found.as_slice()),
        Err(refusal) => {
            drop(refusal);
            Ok(Vec::new(alloc))
        }
    }
}

/// What is published of the documents that are open. Before, the desk gets these, and while edits are awaited in other files nothing else.
fn tell_open<R: Files + AllocGlobal + Clone + Drop, D: RequestDesk>(
    rt: &R,
    editor: &mut Editor,
    desk: &mut D,
) -> Result<Vec<Publication>, AllocError>
    ensures { IfOk result (λ told. PublishesAfter D.takes_disk D.takes_documents D.lists editor.old desk.old (map publication_view told.items) editor.new desk.new) }
{
    let by_documents = editor.is_awaiting();
    match catch_up_by(rt, editor, desk, by_documents) {
        Ok(()) => tell_found(rt.alloc(), editor, desk),
        Err(failure) => {
            drop(failure);
            Ok(Vec::new(rt.alloc()))
        }
    }
}

/// What is published of the documents that are open; that is nothing while edits in them are awaited.
fn tell_unless<R: Files + AllocGlobal + Clone + Drop, D: RequestDesk>(
    rt: &R,
    editor: &mut Editor,
    desk: &mut D,
    waits: bool,
) -> Result<Vec<Publication>, AllocError>
    ensures { IfOk result (λ told. PublishesUnless D.takes_disk D.takes_documents D.lists waits editor.old desk.old (map publication_view told.items) editor.new desk.new) }
{
    if waits {
        Ok(Vec::new(rt.alloc()))
    } else {
        tell_open(rt, editor, desk)
    }
}

/// Whether edits in documents are awaited, by whether a document differs from its file.
fn is_waiting_by(differs: Result<bool, Refusal>) -> bool
    ensures { result ≡ is_waiting_by differs }
{
    match differs {
        Ok(differs) => differs,
        Err(_) => true,
    }
}

/// Notes whether each document has the text from behind the edits that the client was told.
fn note_seen(editor: &mut Editor, waits: bool)
    ensures { editor.new ≡ seen_by waits editor.old }
{
    if waits {
        return;
    }
    editor.note_made();
}

/// Whether a document is yet to get the edits that the client was told. It is noted where each has them.
fn is_document_waiting<D: RequestDesk>(alloc: Global, editor: &mut Editor, desk: &mut D) -> bool
    ensures { WaitsIf D.differs Awaited.Documents editor.old desk.old result editor.new desk.new }
{
    let waits = is_waiting_by(desk.differ(alloc, &editor.documents));
    note_seen(editor, waits);
    waits
}

/// Whether a document is yet to get edits that the client was told.
fn is_waiting<D: RequestDesk>(alloc: Global, editor: &mut Editor, desk: &mut D) -> bool
    ensures { WaitsIf D.differs editor.old.awaited editor.old desk.old result editor.new desk.new }
{
    match editor.awaited {
        Awaited::Documents => is_document_waiting(alloc, editor, desk),
        Awaited::Nothing => false,
        Awaited::OtherFiles => false,
    }
}

/// Publishes the faults of the documents that are open.
fn publish_open<R: Files + AllocGlobal + Clone + Drop, D: RequestDesk>(
    rt: &R,
    editor: &mut Editor,
    desk: &mut D,
    values: &mut Vec<Value>,
) -> Result<(), AllocError>
    ensures { OnOk result (PublishesOpen D.takes_disk D.takes_documents D.differs D.lists editor.old desk.old (map view values.old.items) (map view values.new.items) editor.new desk.new) }
{
    let alloc = rt.alloc();
    let waits = is_waiting(alloc, editor, desk);
    let told = tell_unless(rt, editor, desk, waits)?;
    tell_publications(alloc, editor, told, values)
}

/// What is kept of a document that has no faults any more.
fn cleared_of(alloc: Global, published: &Published) -> Result<Published, AllocError>
    ensures { IfOk result (λ cleared. (string_bytes cleared.uri ≡ string_bytes published.now.uri) × (cleared.version ≡ published.now.version) × (string_bytes cleared.text ≡ [])) }
{
    let uri = published.uri.clone()?;
    Ok(Published {
        uri,
        version: published.version,
        text: String::new(alloc),
    })
}

/// What is published of a document that has no faults any more.
fn without_faults(
    alloc: Global,
    name: &str,
    published: &Published,
) -> Result<Publication, AllocError>
    ensures { IfOk result (λ told. publication_view told ≡ publication_of name.now (string_bytes published.now.uri) published.now.version no_items) }
{
    let name = String::from_str(alloc, name)?;
    let published = cleared_of(alloc, published)?;
    let faults = Vec::new(alloc);
    Ok(Publication {
        name,
        published,
        faults,
    })
}

/// What is published of a document that is closed: that it has no faults, unless none were told last.
fn tell_cleared(
    alloc: Global,
    editor: &Editor,
    name: &str,
    published: &Published,
) -> Result<Option<Publication>, AllocError>
    ensures { IfOk result (λ told. option_map publication_view told ≡ told_unless editor.now (publication_of name.now (string_bytes published.now.uri) published.now.version no_items)) }
{
    if is_told(editor, name, "") {
        Ok(None)
    } else {
        let one = without_faults(alloc, name, published)?;
        Ok(Some(one))
    }
}

/// What is published of a document that was published before, if it is closed.
fn tell_if_closed(
    alloc: Global,
    editor: &Editor,
    name: &str,
    published: &Published,
) -> Result<Option<Publication>, AllocError>
    ensures { IfOk result (λ told. option_map publication_view told ≡ told_closed editor.now (document_at editor.now.documents name.now) name.now (published_view published.now)) }
{
    match editor.documents.get(name) {
        Some(_) => Ok(None),
        None => tell_cleared(alloc, editor, name, published),
    }
}

/// What is published of the documents that are closed.
fn tell_closed(alloc: Global, editor: &Editor) -> Result<Vec<Publication>, AllocError>
    ensures { IfOk result (λ told. AreToldClosed editor.now (map publication_view told.items)) }
{
    let mut told = Vec::new(alloc);
    for (name, published) in editor.published.iter() {
        let one = tell_if_closed(alloc, editor, name.as_str(), published)?;
        push_publication(&mut told, one)?;
    }
    Ok(told)
}

/// Publishes that the documents that are closed have no faults.
fn publish_closed(
    alloc: Global,
    editor: &mut Editor,
    values: &mut Vec<Value>,
) -> Result<(), AllocError>
    ensures { OnOk result (PublishesClosed editor.old (map view values.old.items) (map view values.new.items) editor.new) }
{
    let told = tell_closed(alloc, editor)?;
    tell_publications(alloc, editor, told, values)
}

/// Publishes what changed in the faults of documents. Returns the parameters of what is published.
pub(crate) fn publish<R: Files + AllocGlobal + Clone + Drop, D: RequestDesk>(
    rt: &R,
    editor: &mut Editor,
    desk: &mut D,
) -> Result<Vec<Value>, AllocError>
    ensures { IfOk result (λ told. Publishes D.takes_disk D.takes_documents D.differs D.lists editor.old desk.old (map view told.items) editor.new desk.new) }
{
    let alloc = rt.alloc();
    let mut values = Vec::new(alloc);
    publish_closed(alloc, editor, &mut values)?;
    publish_open(rt, editor, desk, &mut values)?;
    Ok(values)
}
