//! The folder of a session.
ghost use Rattle.std.specs.Prelude.{◌≡◌, ◌++◌, IfOk, Some, codes, string_bytes};
ghost use Rattle.serde_json.specs.View.{view};
ghost use Rattle.lsp_edits.specs.Naming.{owned_text};
ghost use Rattle.tool_text.specs.Plain.{plain_path};
ghost use Rattle.lsp_editor.specs.Folders.{IsFolderAt, IsFolderOf, NamesFolder, folder_from, with_slash, without_slash};

use lsp_documents::path_in;
use lsp_params::root_in;
use serde_json::Value;
use std::alloc::{AllocError, Global};
use std::env::Env;
use tool_text::plain_path;

/// The path with one slash more behind it.
fn slash_behind(path: String) -> Result<String, AllocError>
    ensures { IfOk result (λ folder. string_bytes folder ≡ string_bytes path ++ codes "/") }
{
    let mut folder = path;
    folder.push_str("/")?;
    Ok(folder)
}

/// The path with a slash behind it.
fn with_slash(alloc: Global, path: &str) -> Result<String, AllocError>
    ensures { IfOk result (λ folder. string_bytes folder ≡ with_slash path.now) }
{
    let folder = String::from_str(alloc, path)?;
    if path.as_bytes().ends_with(b"/") {
        Ok(folder)
    } else {
        slash_behind(folder)
    }
}

/// The path without a slash behind it, unless it is the root.
pub fn without_slash(path: &str) -> &str
    ensures { result.now ≡ without_slash path.now }
{
    if path == "/" {
        return path;
    }
    match path.strip_suffix("/") {
        Some(front) => front,
        None => path,
    }
}

/// The folder in which the program runs, or the root where the system does not tell it.
fn here<R: Env + AllocGlobal>(rt: &R) -> Result<String, AllocError> {
    let alloc = rt.alloc();
    match std::env::current_dir(rt) {
        Ok(path) => match path.to_str() {
            Some(path) => with_slash(alloc, path),
            None => String::from_str(alloc, "/"),
        },
        Err(_) => String::from_str(alloc, "/"),
    }
}

/// The folder of this name below another one.
fn folder_below(folder: String, name: &str) -> Result<String, AllocError>
    ensures { IfOk result (λ below. string_bytes below ≡ (string_bytes folder ++ plain_path name.now) ++ codes "/") }
{
    let mut below = folder;
    below.push_str(plain_path(name))?;
    slash_behind(below)
}

/// The folder that a word of the command line names, where the program runs in the folder `here`.
fn folder_from(alloc: Global, here: String, root: &str) -> Result<String, AllocError>
    ensures { IfOk result (λ folder. string_bytes folder ≡ folder_from (string_bytes here) root.now) }
{
    if root.as_bytes().starts_with(b"/") {
        with_slash(alloc, root)
    } else if root == "." {
        Ok(here)
    } else {
        folder_below(here, root)
    }
}

/// The absolute path of the folder that a word of the command line names, with a slash behind it.
pub fn folder_named<R: Env + AllocGlobal>(rt: &R, root: &str) -> Result<String, AllocError> {
    folder_from(rt.alloc(), here(rt)?, root)
}

/// The folder of a path that is a text.
fn text_folder(alloc: Global, path: &str) -> Result<Option<String>, AllocError>
    ensures { IfOk result (λ folder. owned_text folder ≡ Some (with_slash path.now)) }
{
    let folder = with_slash(alloc, path)?;
    Ok(Some(folder))
}

/// The folder of a path, if the path is a text.
fn folder_at(alloc: Global, path: &[u8]) -> Result<Option<String>, AllocError>
    ensures { IfOk result (λ folder. IsFolderAt path.now (owned_text folder)) }
{
    match std::str::from_utf8(path) {
        Ok(text) => text_folder(alloc, text),
        Err(_) => Ok(None),
    }
}

/// The folder of the path that a URI names.
fn folder_of(alloc: Global, uri: &str) -> Result<Option<String>, AllocError>
    ensures { IfOk result (λ folder. IsFolderOf (Some uri.now) (owned_text folder)) }
{
    match path_in(alloc, uri)? {
        Some(path) => folder_at(alloc, path.as_slice()),
        None => Ok(None),
    }
}

/// The folder that the parameters of initialize name, if they name one.
pub(crate) fn folder_in(alloc: Global, params: &Value) -> Result<Option<String>, AllocError>
    ensures { IfOk result (λ folder. NamesFolder (view params.now) (owned_text folder)) }
{
    match root_in(params) {
        Some(uri) => folder_of(alloc, uri),
        None => Ok(None),
    }
}
