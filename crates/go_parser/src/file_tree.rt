//! Parses a file from its text: scans it, then parses its tokens.
ghost use Rattle.std.specs.Prelude.{◌≡◌, IfOk, IfErr, IsTrue};
ghost use Rattle.go_parser.specs.ParseResults.{IsRefusalOfText};
ghost use Rattle.go_ast.specs.Faults.{IsParsable};
ghost use Rattle.go_ast.specs.Kinds.{kinds_of};

use crate::kinds::kinds_of;
use crate::parser::{Tree, parse};
use crate::refusal::ParseRefusal;
use base_files::{FileText, Path};
use go_ast::FileTree;
use go_scanner::{Pieces, ScanRefusal, scan};
use std::alloc::{AllocError, Global};

/// Cuts a text into pieces and tokens.
fn cut(alloc: Global, text: &FileText) -> Result<Pieces, ParseRefusal>
    ensures text { IfOk result (λ pieces. pieces.text ≡ text.now) }
    ensures refused { IfErr result (IsRefusalOfText text.now) }
{
    match scan(alloc, text) {
        Ok(pieces) => Ok(pieces),
        Err(ScanRefusal::Fault(fault)) => Err(ParseRefusal::Fault(fault)),
        Err(ScanRefusal::Memory) => Err(ParseRefusal::Memory),
    }
}

/// Parses the tokens of a cut text.
fn read(alloc: Global, path: &Path, pieces: Pieces) -> Result<FileTree, ParseRefusal>
    ensures path { IfOk result (λ file. file.path ≡ path.now) }
    ensures text { IfOk result (λ file. file.cut.text ≡ pieces.text) }
    ensures sound { IfOk result (λ file. IsParsable pieces.text) }
    ensures refused { IfErr result (IsRefusalOfText pieces.text) }
{
    let _ = pieces.file();
    let Tree { file, tokens: _ } = parse(alloc, &pieces)?;
    let path = path.clone()?;
    let file = FileTree::new(alloc, path, pieces, file)?;
    Ok(file)
}

/// Parses a Go file. Refuses a text by its first fault: one of its pieces, or else one of its tokens.
pub fn parse_file(alloc: Global, path: &Path, text: &FileText) -> Result<FileTree, ParseRefusal>
    ensures path { IfOk result (λ file. file.path ≡ path.now) }
    ensures text { IfOk result (λ file. file.cut.text ≡ text.now) }
    ensures sound { IfOk result (λ file. IsParsable text.now) }
    ensures refused { IfErr result (IsRefusalOfText text.now) }
{
    let pieces = cut(alloc, text)?;
    read(alloc, path, pieces)
}

/// Whether two texts have tokens of the same kinds, in order.
fn have_same_kinds(alloc: Global, before: &Pieces, after: &Pieces) -> Result<bool, AllocError>
    ensures { IfOk result (λ same. IsTrue same → kinds_of before.now ≡ kinds_of after.now) }
{
    if before.tokens().len() != after.tokens().len() {
        return Ok(false);
    }
    let before = kinds_of(alloc, before)?;
    let after = kinds_of(alloc, after)?;
    Ok(before == after)
}

/// A parsed file that shares the syntax tree of `like`, whose tokens are of the same kinds.
fn shared(
    alloc: Global,
    path: &Path,
    pieces: Pieces,
    like: &FileTree,
) -> Result<FileTree, AllocError>
    requires { kinds_of like.now.cut ≡ kinds_of pieces }
    ensures path { IfOk result (λ file. file.path ≡ path.now) }
    ensures text { IfOk result (λ file. file.cut.text ≡ pieces.text) }
    ensures sound { IfOk result (λ file. IsParsable pieces.text) }
{
    let _ = pieces.file();
    let _ = like.file();
    let path = path.clone()?;
    like.sharing_tree(alloc, path, pieces)
}

/// Parses a Go file as `parse_file` does, but shares the syntax tree of `like` where the tokens are of the same kinds. This is so where
/// only names or literals differ from `like`, as after a rename.
pub fn parse_file_sharing(
    alloc: Global,
    path: &Path,
    text: &FileText,
    like: &FileTree,
) -> Result<FileTree, ParseRefusal>
    ensures path { IfOk result (λ file. file.path ≡ path.now) }
    ensures text { IfOk result (λ file. file.cut.text ≡ text.now) }
    ensures sound { IfOk result (λ file. IsParsable text.now) }
    ensures refused { IfErr result (IsRefusalOfText text.now) }
{
    let pieces = cut(alloc, text)?;
    if have_same_kinds(alloc, like.pieces(), &pieces)? {
        let file = shared(alloc, path, pieces, like)?;
        return Ok(file);
    }
    read(alloc, path, pieces)
}
