//! The edits of a move in one file.
ghost use Rattle.std.specs.Prelude.{◌≡◌, ◌≤◌, ◌↔◌, ◌++◌, IfOk, OnOk, IsTrue, Some, Contains, slice_get};
ghost use Rattle.go_scanner.specs.declared.piece.Class.TheVariants.{Name};
ghost use Rattle.go_scanner.specs.CutText.{tokens_in};
ghost use Rattle.go_ast.specs.SourceFile.{source_of};
ghost use Rattle.workspace_graph.specs.FileImports.{import_literals};
ghost use Rattle.refs_binding.specs.Bindings.{AddsAll};
ghost use Rattle.refactor_rename.specs.FileEdits.{EndBy};
ghost use Rattle.refactor_move.specs.FileEdits.{ReplacesPath};
ghost use Rattle.refactor_move.specs.Steps.{edits_with};
ghost use Rattle.refactor_move.specs.Uses.{AreMarkedEdits, IsMarkedEditAt, ReplacesMarkedName};

use crate::literals::new_literal;
use crate::marks::import_marks;
use crate::moved::Moved;
use crate::names::is_package_name;
use base_edits::Edit;
use base_files::{FileText, Span};
use go_ast::FileTree;
use go_scanner::{Class, Piece};
use std::alloc::{AllocError, Global};
use types_expr::symbol::SharedPath;

/// Appends the edit that replaces a span by a text, if there is one.
fn push_some(edits: &mut Vec<Edit>, span: Span, text: Option<FileText>) -> Result<(), AllocError>
    ensures { OnOk result (edits.new.items ≡ edits.old.items ++ edits_with span text) }
{
    match text {
        None => Ok(()),
        Some(text) => {
            edits.push(Edit { span, text })?;
            Ok(())
        }
    }
}

/// Appends the replacement of the string literal of an import, if the imported package moves.
fn add_path(
    alloc: Global,
    edits: &mut Vec<Edit>,
    file: &FileTree,
    number: usize,
    token: Piece,
    moved: &Moved,
) -> Result<(), AllocError>
    requires at { slice_get (tokens_in (source_of file.now).cut) number ≡ Some token }
    requires is_import { Contains (import_literals (source_of file.now).tree) number }
    requires span { token.span.start ≤ token.span.end }
    requires order { EndBy edits.old.items token.span.start }
    ensures order { OnOk result (EndBy edits.new.items token.span.end) }
    ensures adds { OnOk result (AddsAll edits.old.items edits.new.items (ReplacesPath (source_of file.now) moved.now number)) }
{
    let text = new_literal(alloc, file, number, moved)?;
    push_some(edits, token.span, text)
}

/// A file of the package of a path, with the marks of the names that refer to the package that moves, and the move. `rank`: that of the
/// file in its package.
#[derive(Clone, Copy)]
pub(crate) struct MovedFile<'a> {
    pub(crate) path: &'a SharedPath,
    pub(crate) file: &'a FileTree,
    pub(crate) rank: usize,
    pub(crate) moved: &'a Moved,
    pub(crate) rows: &'a [Vec<bool>],
}

/// Appends the replacement of a name by the new name of the package that moves, if it refers to this package.
fn add_name(
    edits: &mut Vec<Edit>,
    of: &MovedFile<'_>,
    number: usize,
    token: Piece,
) -> Result<(), AllocError>
    requires at { slice_get (tokens_in (source_of of.now.file.now).cut) number ≡ Some token }
    requires is_name { token.class ≡ Name }
    requires span { token.span.start ≤ token.span.end }
    requires order { EndBy edits.old.items token.span.start }
    ensures order { OnOk result (EndBy edits.new.items token.span.end) }
    ensures adds { OnOk result (AddsAll edits.old.items edits.new.items (ReplacesMarkedName of.now.path.now of.now.rank (source_of of.now.file.now) of.now.moved.now of.now.rows.now number)) }
{
    if let Some(name) = &of.moved.name {
        if is_package_name(of, number) {
            edits.push(Edit {
                span: token.span,
                text: name.clone()?,
            })?;
        }
    }
    Ok(())
}

/// Appends the edit of a token, if it has one.
fn add_edit(
    alloc: Global,
    edits: &mut Vec<Edit>,
    of: &MovedFile<'_>,
    number: usize,
    token: Piece,
    is_import: bool,
) -> Result<(), AllocError>
    requires at { slice_get (tokens_in (source_of of.now.file.now).cut) number ≡ Some token }
    requires is_import { IsTrue is_import ↔ Contains (import_literals (source_of of.now.file.now).tree) number }
    requires span { token.span.start ≤ token.span.end }
    requires order { EndBy edits.old.items token.span.start }
    ensures order { OnOk result (EndBy edits.new.items token.span.end) }
    ensures adds { OnOk result (AddsAll edits.old.items edits.new.items (IsMarkedEditAt of.now.path.now of.now.rank (source_of of.now.file.now) of.now.moved.now of.now.rows.now number)) }
{
    if token.class == Class::Name {
        add_name(edits, of, number, token)
    } else if is_import {
        add_path(alloc, edits, of.file, number, token, of.moved)
    } else {
        Ok(())
    }
}

/// The edits of a move in a file, in the order of its tokens.
pub(crate) fn edits_of(alloc: Global, of: &MovedFile<'_>) -> Result<Vec<Edit>, AllocError>
    ensures { IfOk result (λ edits. AreMarkedEdits of.now.path.now of.now.rank (source_of of.now.file.now) of.now.moved.now of.now.rows.now edits.items) }
{
    let file = of.file;
    let marks = import_marks(alloc, file)?;
    let tokens = file.pieces().tokens();
    let mut edits = Vec::new(alloc);
    for number in 0..tokens.len() {
        let token = tokens[number].piece();
        add_edit(alloc, &mut edits, of, number, token, marks[number])?;
    }
    Ok(edits)
}
