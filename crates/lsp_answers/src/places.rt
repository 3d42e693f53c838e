//! Positions, ranges and places as JSON.
ghost use Rattle.std.specs.Prelude.{◌≡◌, IfOk};
ghost use Rattle.serde_json.specs.View.{view};
ghost use Rattle.lsp_answers.specs.Places.{highlight_value, location_value, position_value, prepared_value, range_value};

use lsp_position::EditorPosition;
use serde_json::{Value, json};
use std::alloc::{AllocError, Global};

/// What stands between two positions.
#[derive(Clone, Copy, Debug, PartialEq, Eq)]
pub struct Between {
    pub start: EditorPosition,
    pub end: EditorPosition,
}

/// A position.
fn position_value(alloc: Global, at: EditorPosition) -> Result<Value, AllocError>
    ensures { IfOk result (λ value. view value ≡ position_value at) }
{
    json!(in alloc; {"line": at.line, "character": at.character})
}

/// A range.
pub fn range_value(alloc: Global, range: Between) -> Result<Value, AllocError>
    ensures { IfOk result (λ value. view value ≡ range_value range) }
{
    let start = position_value(alloc, range.start)?;
    let end = position_value(alloc, range.end)?;
    json!(in alloc; {"start": start, "end": end})
}

/// A range in a document.
pub fn location_value(alloc: Global, uri: &str, range: Between) -> Result<Value, AllocError>
    ensures { IfOk result (λ value. view value ≡ location_value uri.now range) }
{
    let range = range_value(alloc, range)?;
    json!(in alloc; {"uri": uri, "range": range})
}

/// A range that is shown beside others of the same declaration.
pub fn highlight_value(alloc: Global, range: Between) -> Result<Value, AllocError>
    ensures { IfOk result (λ value. view value ≡ highlight_value range) }
{
    let range = range_value(alloc, range)?;
    json!(in alloc; {"range": range})
}

/// What is to be renamed: its range and its text.
pub fn prepared_value(alloc: Global, range: Between, name: &str) -> Result<Value, AllocError>
    ensures { IfOk result (λ value. view value ≡ prepared_value range name.now) }
{
    let range = range_value(alloc, range)?;
    json!(in alloc; {"range": range, "placeholder": name})
}
