//! The folders that requests name.
ghost use Rattle.serde_json.specs.View.{view};
ghost use Rattle.lsp_told.specs.Folders.{FindsFolder};

use crate::fault::AskFault;
use lsp_edits::{Telling, name_in};
use lsp_params::text_at;
use serde_json::Value;
use std::alloc::Global;

/// The name of the folder that a member of a value names.
pub fn folder_named(
    alloc: Global,
    telling: Telling<'_>,
    value: &Value,
    member: &str,
) -> Result<Option<String>, AskFault>
    ensures { FindsFolder telling.entry member.now (view value.now) result }
{
    match text_at(value, member) {
        Some(uri) => Ok(name_in(alloc, telling.naming, uri)?),
        None => Err(AskFault::Params),
    }
}
