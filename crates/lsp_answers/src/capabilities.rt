//! What the server can do, as JSON.
ghost use Rattle.std.specs.Prelude.{◌≡◌, IfOk};
ghost use Rattle.serde_json.specs.View.{view};
ghost use Rattle.lsp_answers.specs.Capabilities.{capabilities_value, encoding_name, folders_value, initialize_result, operations_value, synchronized_value};

use lsp_position::PositionEncoding;
use serde_json::{Value, json};
use std::alloc::{AllocError, Global};

/// The name of an encoding of positions.
fn encoding_name(encoding: PositionEncoding) -> &'static str
    ensures { result.now ≡ encoding_name encoding }
{
    match encoding {
        PositionEncoding::Utf8 => "utf-8",
        PositionEncoding::Utf16 => "utf-16",
    }
}

/// How documents are kept the same: they are opened and closed, and changed in parts.
fn synchronized_value(alloc: Global) -> Result<Value, AllocError>
    ensures { IfOk result (λ value. view value ≡ synchronized_value) }
{
    json!(in alloc; {"openClose": true, "change": 2u64, "save": true})
}

/// That folders of files are meant.
fn folders_value(alloc: Global) -> Result<Value, AllocError>
    ensures { IfOk result (λ value. view value ≡ folders_value) }
{
    json!(in alloc; {"filters": [{"scheme": "file", "pattern": {"glob": "**", "matches": "folder"}}]})
}

/// What the server does where files are renamed.
fn operations_value(alloc: Global) -> Result<Value, AllocError>
    ensures { IfOk result (λ value. view value ≡ operations_value) }
{
    let before = folders_value(alloc)?;
    let behind = folders_value(alloc)?;
    json!(in alloc; {"fileOperations": {"willRename": before, "didRename": behind}})
}

/// What the server can do.
fn capabilities_value(alloc: Global, encoding: PositionEncoding) -> Result<Value, AllocError>
    ensures { IfOk result (λ value. view value ≡ capabilities_value encoding) }
{
    let synchronized = synchronized_value(alloc)?;
    let operations = operations_value(alloc)?;
    json!(in alloc; {
        "positionEncoding": encoding_name(encoding),
        "textDocumentSync": synchronized,
        "renameProvider": {"prepareProvider": true},
        "referencesProvider": true,
        "definitionProvider": true,
        "documentHighlightProvider": true,
        "executeCommandProvider": {"commands": ["gorefd.undo", "gorefd.redo"]},
        "workspace": operations
    })
}

/// The result of initialize.
pub fn initialize_result(alloc: Global, encoding: PositionEncoding) -> Result<Value, AllocError>
    ensures { IfOk result (λ value. view value ≡ initialize_result encoding) }
{
    let capabilities = capabilities_value(alloc, encoding)?;
    json!(in alloc; {"capabilities": capabilities, "serverInfo": {"name": "gorefd"}})
}
