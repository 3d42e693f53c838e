//! Parsed files in which names are replaced by names, and strings by strings.
ghost use Rattle.std.specs.Prelude.{◌≡◌, IfOk, IfSome};
ghost use Rattle.base_edits.specs.Edits.{edited_text};
ghost use Rattle.go_respelled.specs.Renamings.{recut};
ghost use Rattle.go_respelled.specs.Replaced.{Respell};

use crate::between::edits_between;
use crate::moved::moved_tokens;
use crate::token_edits::replace_tokens;
use base_edits::Edit;
use base_files::{FileText, Path};
use go_ast::FileTree;
use go_scanner::Pieces;
use std::alloc::{AllocError, Global};

/// The new text with its tokens, which are those of the old text, moved.
fn respelled_pieces(
    alloc: Global,
    old: &Pieces,
    edits: &[Edit],
    new: &FileText,
) -> Result<Pieces, AllocError>
    requires { Respell old.now edits.now new.now }
    ensures { IfOk result (λ made. made ≡ recut edits.now old.now) }
{
    let _ = old.file();
    let _ = new.len();
    let tokens = moved_tokens(alloc, old.tokens(), edits)?;
    Ok(Pieces::of_tokens(new.clone()?, tokens))
}

/// The parsed file of the text that edits make of that of `like`. It shares the tree of `like`, and its tokens are moved and not scanned.
fn respelled_tree(
    alloc: Global,
    path: &Path,
    text: &FileText,
    like: &FileTree,
    edits: &[Edit],
) -> Result<FileTree, AllocError>
    requires { Respell like.now.cut edits.now text.now }
    ensures { IfOk result (λ file. (file.path ≡ path.now) × (file.cut.text ≡ text.now)) }
{
    let old = like.pieces();
    let _ = like.file();
    let pieces = respelled_pieces(alloc, old, edits, text)?;
    let path = path.clone()?;
    let file = like.sharing_tree(alloc, path, pieces)?;
    Ok(file)
}

/// The parsed file of a text that differs from that of `like` in names and interpreted strings alone. It shares the tree of `like`, and
/// its tokens are moved and not scanned. `None` where the texts differ otherwise.
pub fn respelled(
    alloc: Global,
    path: &Path,
    text: &FileText,
    like: &FileTree,
) -> Result<Option<FileTree>, AllocError>
    ensures { IfOk result (λ made. IfSome made (λ file. (file.path ≡ path.now) × (file.cut.text ≡ text.now))) }
{
    let old = like.pieces();
    let Some(edits) = edits_between(alloc, old, text.bytes())? else {
        return Ok(None);
    };
    let file = respelled_tree(alloc, path, text, like, &edits)?;
    Ok(Some(file))
}

/// The same of a text of which the edits are known that make it of the text of `like`. So the texts are not compared. `None` where an edit
/// replaces anything but a name or an interpreted string.
pub fn respelled_by(
    alloc: Global,
    path: &Path,
    text: &FileText,
    like: &FileTree,
    edits: &[Edit],
) -> Result<Option<FileTree>, AllocError>
    requires { text.now ≡ edited_text edits.now like.now.cut.text }
    ensures { IfOk result (λ made. IfSome made (λ file. (file.path ≡ path.now) × (file.cut.text ≡ text.now))) }
{
    let replace = replace_tokens(alloc, like.pieces(), edits)?;
    if !replace {
        return Ok(None);
    }
    let file = respelled_tree(alloc, path, text, like, edits)?;
    Ok(Some(file))
}
