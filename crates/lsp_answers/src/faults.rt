//! Faults as JSON.
ghost use Rattle.std.specs.Prelude.{◌≡◌, IfOk};
ghost use Rattle.serde_json.specs.View.{items_view, view};
ghost use Rattle.lsp_answers.specs.Faults.{diagnostic_value, diagnostics_params};

use crate::places::{Between, range_value};
use serde_json::{Value, json};
use std::alloc::{AllocError, Global};

/// A fault: an error with the word of its kind, and what is told of it.
pub fn diagnostic_value(
    alloc: Global,
    range: Between,
    kind: &str,
    message: &str,
) -> Result<Value, AllocError>
    ensures { IfOk result (λ value. view value ≡ diagnostic_value range kind.now message.now) }
{
    let range = range_value(alloc, range)?;
    json!(in alloc; {"range": range, "severity": 1u64, "code": kind, "source": "gorefd", "message": message})
}

/// The parameters with which the faults of a document are published.
pub fn diagnostics_params(
    alloc: Global,
    uri: &str,
    version: i64,
    faults: Vec<Value>,
) -> Result<Value, AllocError>
    ensures { IfOk result (λ value. view value ≡ diagnostics_params uri.now version (items_view faults.items)) }
{
    let faults = Value::Array(faults);
    json!(in alloc; {"uri": uri, "version": version, "diagnostics": faults})
}
