//! The names of packages' declarations in objects, as they are kept.

use base_files::PathTable;
use go_ast::FileTree;
use types_declared::Declared;

/// The tables of a package's declarations, by ranks: the declarations, and the position of each field in its struct.
#[derive(Drop)]
pub struct DeclaredTables<'a> {
    pub declared: Declared<'a>,
    pub positions: Vec<usize>,
}

/// The path and the files of a package, from which the names of its declarations are made when they are asked for.
#[derive(Drop)]
pub struct NamedPackage<'a> {
    pub path: &'a [u8],
    pub files: &'a [FileTree],
}

/// The names of packages' declarations, by the paths of the packages. A package in which many names are looked up has tables. In others the
/// files are gone over.
#[derive(Drop)]
pub struct ObjectNames<'a> {
    pub names: PathTable<NamedPackage<'a>>,
    pub tables: PathTable<DeclaredTables<'a>>,
}
