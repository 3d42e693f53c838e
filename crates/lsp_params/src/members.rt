//! Members of JSON values: texts, numbers and positions.
ghost use Rattle.std.specs.Prelude.{◌≡◌};
ghost use Rattle.serde_json.specs.Find.{get};
ghost use Rattle.serde_json.specs.View.{view};
ghost use Rattle.lsp_params.specs.Members.{is_true_at, unsigned_at, position_read, position_named, viewed_member, shown_text, text_at, json_member};

use lsp_position::EditorPosition;
use serde_json::Value;

/// A member of a value, if the value is an object that has it.
pub(crate) fn json_member<'a>(value: &'a Value, name: &str) -> Option<&'a Value>
    ensures { viewed_member result ≡ json_member name.now (view value.now) }
{
    value.get(name)
}

/// A member that is a text.
pub fn text_at<'a>(value: &'a Value, name: &str) -> Option<&'a str>
    ensures { shown_text result ≡ text_at name.now (view value.now) }
{
    json_member(value, name).and_then(Value::as_str)
}

/// A member that is a number of no sign.
pub(crate) fn unsigned_at(value: &Value, name: &str) -> Option<u64>
    ensures { result ≡ unsigned_at name.now (view value.now) }
{
    json_member(value, name).and_then(Value::as_u64)
}

/// Whether a member is `true`.
pub(crate) fn is_true_at(value: &Value, name: &str) -> bool
    ensures { result ≡ is_true_at name.now (view value.now) }
{
    match json_member(value, name).and_then(Value::as_bool) {
        Some(is_true) => is_true,
        None => false,
    }
}

/// The position that a value is.
pub fn position_read(value: &Value) -> Option<EditorPosition>
    ensures { result ≡ position_read (view value.now) }
{
    let line = unsigned_at(value, "line")?;
    let character = unsigned_at(value, "character")?;
    Some(EditorPosition {
        line: line as usize,
        character: character as usize,
    })
}

/// A member that is a position.
pub(crate) fn position_named(value: &Value, name: &str) -> Option<EditorPosition>
    ensures { result ≡ position_named name.now (view value.now) }
{
    match json_member(value, name) {
        Some(position) => position_read(position),
        None => None,
    }
}
