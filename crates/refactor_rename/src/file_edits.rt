//! The edits of a rename in one file.
ghost use Rattle.std.specs.Prelude.{ℕ, ◌≡◌, ◌≤◌, ◌↔◌, ◌++◌, ◌∷◌, [], Contains, IsTrue, IfOk, OnOk, Some, slice_get};
ghost use Rattle.std.specs.List.Sorted.{IsStrictlySortedBy};
ghost use Rattle.go_scanner.specs.CutText.{tokens_in};
ghost use Rattle.go_scanner.specs.declared.piece.Class.TheVariants.{Name};
ghost use Rattle.go_ast.specs.SourceFile.{source_of};
ghost use Rattle.refs_binding.specs.Places.{place_cmp};
ghost use Rattle.refactor_rename.specs.Replacements.{EndsImport, FollowsImportWord, IsNameBefore};
ghost use Rattle.refactor_rename.specs.FileEdits.{IsLiteralAt, RenamesToken, InsertsName, AppendsEdit, AppendsEditsAt, EndBy, AreFileEdits};

use crate::here::places_in;
use crate::renamed::{Literal, Renamed};
use crate::replacing::{is_identifier, replacements};
use base_edits::Edit;
use base_files::{FileText, Path, Place, Span};
use go_ast::FileTree;
use go_scanner::Piece;
use std::alloc::{AllocError, Global};
use std::cmp::Ordering;

/// Compares a place with a path and an offset: by path first.
fn compare_place(place: &Place, path: &Path, offset: usize) -> Ordering
    ensures { result ≡ place_cmp place.now (record { path = path.now; offset = offset }) }
{
    place.path.cmp(path).then(place.offset.cmp(&offset))
}

/// Whether one of the sorted places has this path and offset.
fn is_among(places: &[Place], path: &Path, offset: usize) -> bool
    requires { IsStrictlySortedBy place_cmp places.now }
    ensures { IsTrue result ↔ Contains places.now (record { path = path.now; offset = offset }) }
{
    match places.binary_search_by(|place| compare_place(place, path, offset)) {
        Ok(_) => true,
        Err(_) => false,
    }
}

/// Whether a token of the file at this path is an identifier at one of the sorted places.
fn is_renamed(places: &[Place], path: &Path, token: Piece) -> bool
    requires { IsStrictlySortedBy place_cmp places.now }
    ensures { IsTrue result ↔ ((token.class ≡ Name) × Contains places.now (record { path = path.now; offset = token.span.start })) }
{
    is_identifier(token) && is_among(places, path, token.span.start)
}

/// Whether the literal is the token with this number of the file at this path.
fn is_literal(literal: &Option<Literal>, path: &Path, number: usize) -> bool
    ensures { IsTrue result ↔ IsLiteralAt literal.now path.now number }
{
    match literal {
        None => false,
        Some(literal) => literal.path == *path && literal.token == number,
    }
}

/// Whether a token is the word `import` and ends at an offset.
fn ends_import(file: &FileTree, before: usize, offset: usize) -> bool
    ensures { IsTrue result ↔ EndsImport (source_of file.now) before offset }
{
    let word = file.spelling(before);
    word == b"import".as_slice()
        && file.offset(before) <= offset
        && offset - file.offset(before) == word.len()
}

/// Whether the word `import` ends where a token of the file begins.
fn follows_import_word(file: &FileTree, number: usize) -> bool
    ensures { IsTrue result ↔ FollowsImportWord (source_of file.now) number }
{
    number > 0 && ends_import(file, number - 1, file.offset(number))
}

/// The bytes `before`, the name and a space.
fn spaced(alloc: Global, before: &[u8], name: &[u8]) -> Result<FileText, AllocError>
    ensures { IfOk result (λ text. text ≡ before.now ++ (name.now ++ 32 ∷ [])) }
{
    let mut text = Vec::from_slice(alloc, before)?;
    text.extend_from_slice(name)?;
    text.push(b' ')?;
    FileText::new(alloc, text)
}

/// The text that gives an import a name before its literal: the name, with the spaces that separate it from its neighbours.
fn name_before(
    alloc: Global,
    file: &FileTree,
    number: usize,
    name: &[u8],
) -> Result<FileText, AllocError>
    ensures { IfOk result (λ text. IsNameBefore (source_of file.now) number name.now text) }
{
    if follows_import_word(file, number) {
        spaced(alloc, b" ", name)
    } else {
        spaced(alloc, b"", name)
    }
}

/// Appends the insertion of the name before a token, if the token is the literal.
fn add_insertion(
    alloc: Global,
    edits: &mut Vec<Edit>,
    file: &FileTree,
    number: usize,
    token: Piece,
    renamed: &Renamed,
) -> Result<(), AllocError>
    requires at { slice_get (tokens_in (source_of file.now).cut) number ≡ Some token }
    requires order { EndBy edits.old.items token.span.start }
    ensures order { OnOk result (EndBy edits.new.items token.span.start) }
    ensures adds { OnOk result (AppendsEdit (InsertsName (source_of file.now) renamed.now number) edits.old.items edits.new.items) }
{
    if is_literal(&renamed.literal, file.path(), number) {
        let start = token.span.start;
        let text = name_before(alloc, file, number, renamed.name.bytes())?;
        edits.push(Edit {
            span: Span { start, end: start },
            text,
        })?;
    }
    Ok(())
}

/// Appends the replacement of a token by the name, if the token is one of the identifiers.
fn add_replacement(
    edits: &mut Vec<Edit>,
    file: &FileTree,
    number: usize,
    token: Piece,
    renamed: &Renamed,
) -> Result<(), AllocError>
    requires sorted { IsStrictlySortedBy place_cmp renamed.now.places }
    requires at { slice_get (tokens_in (source_of file.now).cut) number ≡ Some token }
    requires span { token.span.start ≤ token.span.end }
    requires order { EndBy edits.old.items token.span.start }
    ensures order { OnOk result (EndBy edits.new.items token.span.end) }
    ensures adds { OnOk result (AppendsEdit (RenamesToken (source_of file.now) renamed.now number) edits.old.items edits.new.items) }
{
    if is_renamed(renamed.places.as_slice(), file.path(), token) {
        let text = renamed.name.clone()?;
        edits.push(Edit {
            span: token.span,
            text,
        })?;
    }
    Ok(())
}

/// Appends the edits of a token.
fn add_edits(
    alloc: Global,
    edits: &mut Vec<Edit>,
    file: &FileTree,
    number: usize,
    token: Piece,
    renamed: &Renamed,
) -> Result<(), AllocError>
    requires sorted { IsStrictlySortedBy place_cmp renamed.now.places }
    requires at { slice_get (tokens_in (source_of file.now).cut) number ≡ Some token }
    requires span { token.span.start ≤ token.span.end }
    requires order { EndBy edits.old.items token.span.start }
    ensures order { OnOk result (EndBy edits.new.items token.span.end) }
    ensures adds { OnOk result (AppendsEditsAt (source_of file.now) renamed.now number edits.old.items edits.new.items) }
{
    add_insertion(alloc, edits, file, number, token, renamed)?;
    add_replacement(edits, file, number, token, renamed)
}

/// The edits of a rename in a file, token by token.
pub fn edits_of(alloc: Global, file: &FileTree, renamed: &Renamed) -> Result<Vec<Edit>, AllocError>
    requires { IsStrictlySortedBy place_cmp renamed.now.places }
    ensures { IfOk result (λ edits. AreFileEdits (source_of file.now) renamed.now edits.items) }
{
    let tokens = file.pieces().tokens();
    let mut edits = Vec::new(alloc);
    for number in 0..tokens.len() {
        let token = tokens[number].piece();
        add_edits(alloc, &mut edits, file, number, token, renamed)?;
    }
    Ok(edits)
}

/// Whether the literal is a token of the file at this path.
fn has_literal(literal: &Option<Literal>, path: &Path) -> bool
    ensures { (number : ℕ) → IsLiteralAt literal.now path.now number → IsTrue result }
{
    match literal {
        None => false,
        Some(literal) => literal.path == *path,
    }
}

/// The edits of a rename in a file, place by place, unless the literal is in the file. The search for the places starts at the index `near`,
/// where the last answer ended.
pub(crate) fn edits_near(
    alloc: Global,
    file: &FileTree,
    renamed: &Renamed,
    near: &mut usize,
) -> Result<Vec<Edit>, AllocError>
    requires { IsStrictlySortedBy place_cmp renamed.now.places }
    ensures { IfOk result (λ edits. AreFileEdits (source_of file.now) renamed.now edits.items) }
{
    let path = file.path();
    if has_literal(&renamed.literal, path) {
        return edits_of(alloc, file, renamed);
    }
    let here = places_in(renamed.places.as_slice(), near, path);
    replacements(alloc, file, here, &renamed.name)
}
