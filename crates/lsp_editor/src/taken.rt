//! Which documents are files of the packages that are looked at.
ghost use Rattle.std.specs.Prelude.{◌≡◌, ◌≤◌, ◌==◌, length};
ghost use Rattle.std.specs.List.{position_or_len};
ghost use Rattle.lsp_editor.specs.Taken.{takes_name, takes_path, takes_text};
ghost use Rattle.lsp_editor.specs.Heeding.{TakesDocument};

use lsp_edits::{FolderNaming, below_folder};
use tool_text::{has_build_line, names_platform, takes_file, takes_folder};

/// Whether Go takes a file of this name on each platform.
fn takes_name(name: &[u8]) -> bool
    ensures { result ≡ takes_name name.now }
{
    takes_file(name) && !names_platform(name)
}

/// How many bytes stand before the first slash of a path.
fn front_len(path: &[u8]) -> usize
    ensures len { result ≡ position_or_len (λ byte. byte == 47) path.now }
    ensures within { result ≤ length path.now }
{
    let mut end = 0;
    while end < path.len() && path[end] != b'/' {
        end += 1;
    }
    end
}

/// Whether Go looks into all folders of a path, and takes its file.
fn takes_path(path: &[u8]) -> bool
    ensures { result ≡ takes_path path.now }
{
    let mut rest = path;
    let mut end = front_len(rest);
    'folders: while end < rest.len() {
        if !takes_folder(&rest[..end]) {
            return false;
        }
        rest = &rest[end + 1..];
        end = front_len(rest);
    }
    takes_name(rest)
}

/// Whether a text at a path is a file of a package, which no build constraint restricts.
fn takes_text(path: &str, text: &str) -> bool
    ensures { result ≡ takes_text path.now text.now }
{
    takes_path(path.as_bytes()) && !has_build_line(text.as_bytes())
}

/// Whether a document is a file of a package below the folder, which no build constraint restricts.
pub(crate) fn is_taken(naming: &FolderNaming, name: &str, text: &str) -> bool
    ensures { TakesDocument naming.now name.now text.now result }
{
    takes_text(below_folder(naming, name), text)
}
