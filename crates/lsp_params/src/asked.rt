//! What requests ask for: places, names and commands.
ghost use Rattle.std.specs.Prelude.{◌≡◌, option_map};
ghost use Rattle.serde_json.specs.View.{view};
ghost use Rattle.lsp_params.specs.Asked.{asked_at, asked_name, command_in, includes_declaration, named_view, place_view, uri_of_document};
ghost use Rattle.lsp_params.specs.Members.{shown_text};

use crate::members::{is_true_at, json_member, position_named, text_at};
use lsp_position::EditorPosition;
use serde_json::Value;

/// A place in a document.
#[derive(Clone, Copy, Debug)]
pub struct AskedAt<'a> {
    pub uri: &'a str,
    pub position: EditorPosition,
}

/// A place in a document, and the new name of what stands there.
#[derive(Clone, Copy, Debug)]
pub struct AskedName<'a> {
    pub at: AskedAt<'a>,
    pub name: &'a str,
}

/// The URI of the document that parameters name.
pub fn uri_of_document(params: &Value) -> Option<&str>
    ensures { shown_text result ≡ uri_of_document (view params.now) }
{
    match json_member(params, "textDocument") {
        Some(document) => text_at(document, "uri"),
        None => None,
    }
}

/// The place that parameters name.
pub fn asked_at(params: &Value) -> Option<AskedAt<'_>>
    ensures { option_map place_view result ≡ asked_at (view params.now) }
{
    let uri = uri_of_document(params)?;
    let position = position_named(params, "position")?;
    Some(AskedAt { uri, position })
}

/// The place and the new name that the parameters of a rename give.
pub fn asked_name(params: &Value) -> Option<AskedName<'_>>
    ensures { option_map named_view result ≡ asked_name (view params.now) }
{
    let at = asked_at(params)?;
    let name = text_at(params, "newName")?;
    Some(AskedName { at, name })
}

/// Whether references are to include the declaration.
pub fn includes_declaration(params: &Value) -> bool
    ensures { result ≡ includes_declaration (view params.now) }
{
    match json_member(params, "context") {
        Some(context) => is_true_at(context, "includeDeclaration"),
        None => false,
    }
}

/// The command that is to be executed.
pub fn command_in(params: &Value) -> Option<&str>
    ensures { shown_text result ≡ command_in (view params.now) }
{
    text_at(params, "command")
}
