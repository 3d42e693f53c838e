//! Reads the imports of a file.
ghost use Rattle.std.specs.Prelude.{◌≡◌, ◌++◌, map, IfOk, OnOk};
ghost use Rattle.workspace_graph.specs.FileImports.{paths_in, import_literals, HasValue, ListsImports};
ghost use Rattle.go_ast.specs.SourceFile.{source_of};
ghost use Rattle.go_ast.specs.View.{group_view};
ghost use Rattle.go_ast.specs.FileView.{import_view, file_view};

use go_ast::FileTree;
use go_ast::tree::{File, Group, ImportSpec, Item};
use std::alloc::{AllocError, Global};

/// An import of a file: the token index of its string literal, and the value of the literal, which is its import path.
#[derive(Drop)]
pub struct FileImport {
    pub literal: usize,
    pub path: Option<Vec<u8>>,
}

/// Adds the string literals of import specs in parentheses, by token index.
fn add_items(literals: &mut Vec<usize>, items: &[Item<ImportSpec>]) -> Result<(), AllocError>
    ensures { OnOk result (literals.new.items ≡ literals.old.items ++ map (λ item. item.value.path) items.now) }
{
    for item in items {
        literals.push(item.value.path as usize)?;
    }
    Ok(())
}

/// Adds the string literals of an import declaration, by token index.
fn add_group(literals: &mut Vec<usize>, group: &Group<ImportSpec>) -> Result<(), AllocError>
    ensures { OnOk result (literals.new.items ≡ literals.old.items ++ paths_in (group_view import_view group.now)) }
{
    match group {
        Group::Single(spec) => {
            literals.push(spec.path as usize)?;
            Ok(())
        }
        Group::Several { items, .. } => add_items(literals, items),
    }
}

/// The string literals of all import specs of a file, by token index.
pub(crate) fn import_literals(alloc: Global, file: &File) -> Result<Vec<usize>, AllocError>
    ensures { IfOk result (λ literals. literals.items ≡ import_literals (file_view file.now)) }
{
    let mut literals = Vec::new(alloc);
    for decl in &file.imports {
        add_group(&mut literals, &decl.group)?;
    }
    Ok(literals)
}

/// The value of a token if it is a string literal, and otherwise `None`.
fn token_value(alloc: Global, file: &FileTree, token: usize) -> Result<Option<Vec<u8>>, AllocError>
    ensures { IfOk result (HasValue (source_of file.now) token) }
{
    let pieces = file.pieces();
    if token < pieces.tokens().len() {
        pieces.string_value(alloc, token)
    } else {
        Ok(None)
    }
}

/// The imports of a file, in their order in the file.
pub fn read_imports(alloc: Global, file: &FileTree) -> Result<Vec<FileImport>, AllocError>
    ensures { IfOk result (λ imports. ListsImports (source_of file.now) imports.items) }
{
    let literals = import_literals(alloc, file.file())?;
    let mut imports = Vec::new(alloc);
    for literal in &literals {
        let literal = *literal;
        imports.push(FileImport {
            literal,
            path: token_value(alloc, file, literal)?,
        })?;
    }
    Ok(imports)
}
