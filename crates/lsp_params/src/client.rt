//! What a client says of itself.
ghost use Rattle.std.specs.Prelude.{◌≡◌};
ghost use Rattle.serde_json.specs.View.{items_view, view};
ghost use Rattle.lsp_params.specs.Client.{abilities_in, has_document_changes, is_utf8_name, lists_utf8, offers_utf8, root_in, within};
ghost use Rattle.lsp_params.specs.Members.{viewed_member, shown_text};

use crate::members::{is_true_at, json_member, text_at};
use lsp_position::PositionEncoding;
use serde_json::Value;

/// What a client can do that matters for answers.
#[derive(Clone, Copy, Debug, PartialEq, Eq)]
pub struct ClientAbilities {
    /// The units in which positions are counted: those of UTF-8 where the client can, and else those of UTF-16.
    pub encoding: PositionEncoding,
    /// Whether edits may name versions of documents.
    pub has_document_changes: bool,
}

/// A member of a member.
fn within<'a>(value: Option<&'a Value>, name: &str) -> Option<&'a Value>
    ensures { viewed_member result ≡ within (viewed_member value.entry) name.now }
{
    match value {
        Some(value) => json_member(value, name),
        None => None,
    }
}

/// Whether a value is the text `utf-8`.
fn is_utf8_name(value: &Value) -> bool
    ensures { result ≡ is_utf8_name (view value.now) }
{
    match value.as_str() {
        Some(text) => text == "utf-8",
        None => false,
    }
}

/// Whether a list has the text `utf-8`.
fn lists_utf8(items: &[Value]) -> bool
    ensures { result ≡ lists_utf8 (items_view items.now) }
{
    for item in items {
        if is_utf8_name(item) {
            return true;
        }
    }
    false
}

/// Whether the client can count in bytes.
fn offers_utf8(capabilities: Option<&Value>) -> bool
    ensures { result ≡ offers_utf8 (viewed_member capabilities.entry) }
{
    let offered = within(within(capabilities, "general"), "positionEncodings");
    match offered.and_then(Value::as_array) {
        Some(items) => lists_utf8(items),
        None => false,
    }
}

/// Whether the client takes edits that name versions.
fn has_document_changes(capabilities: Option<&Value>) -> bool
    ensures { result ≡ has_document_changes (viewed_member capabilities.entry) }
{
    match within(within(capabilities, "workspace"), "workspaceEdit") {
        Some(edit) => is_true_at(edit, "documentChanges"),
        None => false,
    }
}

/// What the client can do, by the parameters of initialize.
pub fn abilities_in(params: &Value) -> ClientAbilities
    ensures { result ≡ abilities_in (view params.now) }
{
    let capabilities = json_member(params, "capabilities");
    let encoding = if offers_utf8(capabilities) {
        PositionEncoding::Utf8
    } else {
        PositionEncoding::Utf16
    };
    ClientAbilities {
        encoding,
        has_document_changes: has_document_changes(capabilities),
    }
}

/// The URI of the folder that the parameters of initialize name.
pub fn root_in(params: &Value) -> Option<&str>
    ensures { shown_text result ≡ root_in (view params.now) }
{
    text_at(params, "rootUri")
}
