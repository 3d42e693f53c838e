//! Notes what an editor says of itself.
ghost use Rattle.std.specs.Prelude.{OnOk, Some};
ghost use Rattle.serde_json.specs.View.{view};
ghost use Rattle.lsp_message.specs.Calls.{viewed};
ghost use Rattle.lsp_editor.specs.Folders.{NotesClient};

use crate::editor::Editor;
use crate::folders::folder_in;
use lsp_params::abilities_in;
use serde_json::Value;
use std::alloc::{AllocError, Global};

/// Notes what these parameters of initialize say.
fn note_params(alloc: Global, editor: &mut Editor, params: &Value) -> Result<(), AllocError>
    ensures { OnOk result (NotesClient (Some (view params.now)) editor.old editor.new) }
{
    editor.abilities = abilities_in(params);
    match folder_in(alloc, params)? {
        Some(root) => {
            editor.naming.root = root;
            Ok(())
        }
        None => Ok(()),
    }
}

/// Notes what the parameters of initialize say.
pub fn note_client(
    alloc: Global,
    editor: &mut Editor,
    params: Option<&Value>,
) -> Result<(), AllocError>
    ensures { OnOk result (NotesClient (viewed params.entry) editor.old editor.new) }
{
    match params {
        Some(params) => note_params(alloc, editor, params),
        None => Ok(()),
    }
}
