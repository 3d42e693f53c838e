//! Parses one file of a package.
ghost use Rattle.std.specs.Prelude.{◌≡◌, IfOk, IfErr};
ghost use Rattle.go_parser.specs.ParseResults.{IsRefusalOfText};
ghost use Rattle.go_ast.specs.Faults.{IsFaultOf};
ghost use Rattle.go_ast.specs.SourceFile.{IsSourceFile, source_of};
ghost use Rattle.workspace_graph.specs.Parsed.{IsParsedAs};

use crate::faulty_file::FaultyFile;
use base_files::{FileText, Path};
use go_ast::FileTree;
use go_parser::{ParseRefusal, parse_file, parse_file_sharing};
use go_respelled::respelled;
use go_scanner::TextFault;
use std::alloc::{AllocError, Global};

/// The tree of a Go file, or the file with its first fault.
#[derive(Drop)]
pub(crate) enum ParsedFile {
    Sound(FileTree),
    Faulty(FaultyFile),
}

/// A lemma: the tree of a `FileTree` is the tree of its tokens.
pub(crate) fn is_source_file(tree: &FileTree)
    ensures { IsSourceFile (source_of tree.now) }
{
    let _ = tree.file();
}

/// A file without a tree, with the first fault of its text.
fn faulty(path: &Path, text: &FileText, fault: TextFault) -> Result<ParsedFile, AllocError>
    requires { IsFaultOf text.now fault }
    ensures { IfOk result (IsParsedAs path.now text.now) }
{
    let file = FaultyFile::new(path, text, fault)?;
    Ok(ParsedFile::Faulty(file))
}

/// Parses a file. Where its text differs from that of `like` in names and strings alone, its tokens are those of `like`, moved. Where the
/// tokens are of the same kinds, both share their tree.
fn read_like(
    alloc: Global,
    path: &Path,
    text: &FileText,
    like: &FileTree,
) -> Result<FileTree, ParseRefusal>
    ensures path { IfOk result (λ file. file.path ≡ path.now) }
    ensures text { IfOk result (λ file. file.cut.text ≡ text.now) }
    ensures refused { IfErr result (IsRefusalOfText text.now) }
{
    match respelled(alloc, path, text, like)? {
        Some(file) => Ok(file),
        None => parse_file_sharing(alloc, path, text, like),
    }
}

/// Parses a file. It may share tokens and tree with `like`.
fn read(
    alloc: Global,
    path: &Path,
    text: &FileText,
    like: Option<&FileTree>,
) -> Result<FileTree, ParseRefusal>
    ensures path { IfOk result (λ file. file.path ≡ path.now) }
    ensures text { IfOk result (λ file. file.cut.text ≡ text.now) }
    ensures refused { IfErr result (IsRefusalOfText text.now) }
{
    match like {
        None => parse_file(alloc, path, text),
        Some(like) => read_like(alloc, path, text, like),
    }
}

/// Parses a file. Returns its tree, which it may share with `like`, or its first fault.
pub(crate) fn parse(
    alloc: Global,
    path: &Path,
    text: &FileText,
    like: Option<&FileTree>,
) -> Result<ParsedFile, AllocError>
    ensures { IfOk result (IsParsedAs path.now text.now) }
{
    match read(alloc, path, text, like) {
        Ok(tree) => {
            is_source_file(&tree);
            Ok(ParsedFile::Sound(tree))
        }
        Err(ParseRefusal::Fault(fault)) => faulty(path, text, fault),
        Err(ParseRefusal::Memory) => Err(AllocError),
    }
}
