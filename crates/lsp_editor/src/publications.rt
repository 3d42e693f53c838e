//! What is published of documents, and what is kept of it.
ghost use Rattle.std.specs.Prelude.{[], ◌≡◌, ◌++◌, ◌∷◌, IfOk, OnOk, false, map, string_bytes};
ghost use Rattle.std.specs.Str.{bytes_eq};
ghost use Rattle.serde_json.specs.View.{items_view, view};
ghost use Rattle.serde_json.specs.Written.{has_float, items_have_float};
ghost use Rattle.lsp_answers.specs.Faults.{diagnostics_params};
ghost use Rattle.lsp_editor.specs.Publications.{KeepsOne, TellsAll, TellsOne, compact_line, compact_lines, kept_at, lines_told, publication_view, published_view};

use crate::editor::{Editor, Published};
use lsp_answers::diagnostics_params;
use serde_json::Value;
use std::alloc::{AllocError, Global};

/// What is published of a document: its name, what is kept of it, and its faults.
#[derive(Drop)]
pub struct Publication {
    pub name: String,
    pub published: Published,
    pub faults: Vec<Value>,
}

/// Adds a fault as a line.
fn push_line(alloc: Global, lines: &mut String, fault: &Value) -> Result<(), AllocError>
    requires { has_float (view fault.now) ≡ false }
    ensures { OnOk result (string_bytes lines.new ≡ string_bytes lines.old ++ compact_line (view fault.now)) }
{
    let text = fault.to_string(alloc)?;
    lines.push_str(text.as_str())?;
    lines.push_str("\n")?;
    Ok(())
}

/// Faults as a text, a line for each.
pub fn lines_of(alloc: Global, faults: &[Value]) -> Result<String, AllocError>
    requires { items_have_float (items_view faults.now) ≡ false }
    ensures { IfOk result (λ lines. string_bytes lines ≡ compact_lines (items_view faults.now)) }
{
    let mut lines = String::new(alloc);
    for fault in faults {
        push_line(alloc, &mut lines, fault)?;
    }
    Ok(lines)
}

/// Whether these lines were told last of the faults of a document. Of one that was not published these are none.
pub fn is_told(editor: &Editor, name: &str, lines: &str) -> bool
    ensures { result ≡ bytes_eq lines.now (lines_told (kept_at editor.now name.now)) }
{
    match editor.published.get(name) {
        Some(published) => lines == published.text.as_str(),
        None => lines == "",
    }
}

/// Keeps what is published of a document.
fn keep(editor: &mut Editor, name: String, published: Published) -> Result<(), AllocError>
    ensures { OnOk result (KeepsOne (string_bytes name) (published_view published) editor.old editor.new) }
{
    match editor.published.insert(name, published) {
        Ok(_) => Ok(()),
        Err(_) => Err(AllocError),
    }
}

/// Adds the parameters with which the faults of a document are published.
fn push_params(
    alloc: Global,
    published: &Published,
    faults: Vec<Value>,
    values: &mut Vec<Value>,
) -> Result<(), AllocError>
    ensures { OnOk result (map view values.new.items ≡ map view values.old.items ++ diagnostics_params (string_bytes published.now.uri) published.now.version (items_view faults.items) ∷ []) }
{
    let uri = published.uri.as_str();
    let value = diagnostics_params(alloc, uri, published.version, faults)?;
    values.push(value)?;
    Ok(())
}

/// Tells the faults of a document, and keeps what is published.
fn tell_publication(
    alloc: Global,
    editor: &mut Editor,
    one: Publication,
    values: &mut Vec<Value>,
) -> Result<(), AllocError>
    ensures { OnOk result (TellsOne (publication_view one) (map view values.old.items) (map view values.new.items) editor.old editor.new) }
{
    let Publication {
        name,
        published,
        faults,
    } = one;
    push_params(alloc, &published, faults, values)?;
    keep(editor, name, published)
}

/// Tells the faults of documents, and keeps what is published.
pub fn tell_publications(
    alloc: Global,
    editor: &mut Editor,
    all: Vec<Publication>,
    values: &mut Vec<Value>,
) -> Result<(), AllocError>
    ensures { OnOk result (TellsAll (map publication_view all.items) (map view values.old.items) (map view values.new.items) editor.old editor.new) }
{
    for one in all {
        tell_publication(alloc, editor, one, values)?;
    }
    Ok(())
}
