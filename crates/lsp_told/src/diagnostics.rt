//! The faults of files, as the client is told of them.
ghost use Rattle.std.specs.Prelude.{◌≡◌, ◌++◌, IfOk, OnOk, drop, length, map, min, string_bytes};
ghost use Rattle.std.specs.Str.Lossy.{utf8_lossy};
ghost use Rattle.serde_json.specs.View.{items_view, view};
ghost use Rattle.tool_text.specs.Faults.{fault_words};
ghost use Rattle.lsp_told.specs.Diagnostics.{fault_data, faults_at, faults_data};

use base_files::FaultKind;
use lsp_answers::diagnostic_value;
use lsp_edits::{Telling, identifier_range};
use serde_json::Value;
use std::alloc::{AllocError, Global};
use tool_text::push_fault_words;
use workspace_check::FileFault;

/// What is told of a fault of a kind at an offset of a text.
fn words_at(
    alloc: Global,
    text: &[u8],
    kind: FaultKind,
    offset: usize,
) -> Result<String, AllocError>
    ensures { IfOk result (λ words. string_bytes words ≡ utf8_lossy (fault_words kind (drop (min offset (length text.now)) text.now))) }
{
    let mut words = Vec::new(alloc);
    push_fault_words(&mut words, kind, &text[offset.min(text.len())..])?;
    String::from_utf8_lossy(alloc, words.as_slice())
}

/// A fault of a text.
fn fault_value(
    alloc: Global,
    telling: Telling<'_>,
    text: &[u8],
    fault: &FileFault,
) -> Result<Value, AllocError>
    ensures { IfOk result (λ value. view value ≡ fault_data telling.entry text.now fault.now) }
{
    let words = words_at(alloc, text, fault.kind, fault.place.offset)?;
    let range = identifier_range(telling.abilities.encoding, text, fault.place.offset);
    diagnostic_value(alloc, range, fault.kind.name(), words.as_str())
}

/// Adds a fault of a text, if it is one of the file of the name.
fn push_fault(
    alloc: Global,
    telling: Telling<'_>,
    file: (&str, &[u8]),
    fault: &FileFault,
    values: &mut Vec<Value>,
) -> Result<(), AllocError>
    ensures { OnOk result (map view values.new.items ≡ map view values.old.items ++ faults_at telling.entry file.entry.0.now file.entry.1.now fault.now) }
{
    let (name, text) = file;
    if fault.place.path.as_str() == name {
        let value = fault_value(alloc, telling, text, fault)?;
        values.push(value)?;
        Ok(())
    } else {
        Ok(())
    }
}

/// The faults of the file of a name.
pub fn faults_of(
    alloc: Global,
    telling: Telling<'_>,
    name: &str,
    text: &[u8],
    faults: &[FileFault],
) -> Result<Vec<Value>, AllocError>
    ensures { IfOk result (λ values. items_view values.items ≡ faults_data telling.entry name.now text.now faults.now) }
{
    let mut values = Vec::new(alloc);
    for fault in faults {
        push_fault(alloc, telling, (name, text), fault, &mut values)?;
    }
    Ok(values)
}
