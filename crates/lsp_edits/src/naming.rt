//! The names of files, and their URIs.
ghost use Rattle.std.specs.Prelude.{◌≡◌, IfOk, IsUtf8, MatchOption, string_bytes};
ghost use Rattle.lsp_edits.specs.Naming.{IsBelowFolder, IsFileName, IsUriFor, NamesFile, NamesFileAt, owned_text};

use lsp_documents::{path_in, text_behind, uri_of};
use std::alloc::{AllocError, Global};

/// Where the folder of a session lies: its absolute path with a slash behind it, and what stands before it in the names of its files.
#[derive(Drop)]
pub struct FolderNaming {
    pub root: String,
    pub prefix: String,
}

/// The name of the file at an absolute path, or `None` where the file does not lie below the folder.
fn name_of(alloc: Global, naming: &FolderNaming, path: &str) -> Result<Option<String>, AllocError>
    ensures { IfOk result (λ name. IsFileName naming.now path.now (owned_text name)) }
{
    match text_behind(naming.root.as_str(), path) {
        Some(rest) => {
            let mut name = String::from_str(alloc, naming.prefix.as_str())?;
            name.push_str(rest)?;
            Ok(Some(name))
        }
        None => Ok(None),
    }
}

/// A path as a text, or `None` where it is no UTF-8.
fn path_text(path: &[u8]) -> Option<&str>
    ensures { MatchOption result (IsUtf8 path.now → ⊥) (λ text. (text.now ≡ path.now) × IsUtf8 path.now) }
{
    match std::str::from_utf8(path) {
        Ok(text) => Some(text),
        Err(_) => None,
    }
}

/// The name of the file at a path, if the path is a text and lies below the folder.
fn name_at_path(
    alloc: Global,
    naming: &FolderNaming,
    path: &[u8],
) -> Result<Option<String>, AllocError>
    ensures { IfOk result (λ name. NamesFileAt naming.now path.now (owned_text name)) }
{
    match path_text(path) {
        Some(text) => name_of(alloc, naming, text),
        None => Ok(None),
    }
}

/// The name of the file that a URI names, or `None` where it names none below the folder.
pub fn name_in(
    alloc: Global,
    naming: &FolderNaming,
    uri: &str,
) -> Result<Option<String>, AllocError>
    ensures { IfOk result (λ name. NamesFile naming.now uri.now (owned_text name)) }
{
    match path_in(alloc, uri)? {
        Some(path) => name_at_path(alloc, naming, path.as_slice()),
        None => Ok(None),
    }
}

/// The path below the folder of a file of this name.
pub fn below_folder<'a>(naming: &FolderNaming, name: &'a str) -> &'a str
    ensures { IsBelowFolder naming.now name.now result.now }
{
    match text_behind(naming.prefix.as_str(), name) {
        Some(rest) => rest,
        None => name,
    }
}

/// The URI of the file of a name.
pub fn uri_for(alloc: Global, naming: &FolderNaming, name: &str) -> Result<String, AllocError>
    ensures { IfOk result (λ uri. IsUriFor naming.now name.now (string_bytes uri)) }
{
    let mut path = String::from_str(alloc, naming.root.as_str())?;
    path.push_str(below_folder(naming, name))?;
    uri_of(alloc, path.as_bytes())
}
