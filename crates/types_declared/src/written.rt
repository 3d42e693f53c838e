//! Resolves the type expressions of a package: which type one names, and which type definition it mentions.
ghost use Rattle.std.specs.Prelude.{◌≡◌, ◌<◌, ◌↔◌, length, option_map, IsTrue, IfOk, MatchOption};
ghost use Rattle.go_ast.specs.View.{type_view};
ghost use Rattle.types_expr.specs.declared.types.Basic.{Basic};
ghost use Rattle.types_expr.specs.Types.{PlainType, Defined, TypeName};
ghost use Rattle.types_expr.specs.View.{type_of};
ghost use Rattle.go_ast.specs.Tree.{Local};
ghost use Rattle.types_declared.specs.Package.{symbol_in};
ghost use Rattle.types_declared.specs.Written.{IsPredeclared, IsExportOf, IsExportAt, NamesExport, basic_name};
ghost use Rattle.types_declared.specs.WrittenView.{IsTypeDeclared, IsNamedBy, IsMentionedBy, IsOneExport};
ghost use Rattle.types_declared.specs.ExportTablesView.{export_of};
ghost use Rattle.types_declared.specs.PackageView.{package_of, IsIndexOf};

use crate::index::{Index, Package};
use go_ast::tree::TypeExpr;
use go_scope::model::Block;
use std::alloc::{AllocError, Global};
use types_expr::exports::{Export, ExportMeaning};
use types_expr::symbol::Symbol;
use types_expr::types::{Basic, GoType};

/// Whether `d` is the predeclared declaration of a name.
fn is_predeclared(pkg: Package<'_>, d: usize, name: &[u8]) -> bool
    requires { d < length pkg.table.now.sites }
    ensures { IsTrue result ↔ IsPredeclared (package_of pkg.entry) d name.now }
{
    let role = pkg.table.role(d);
    role.is_implied() && role.block().same(Block::Universe) && pkg.table.name(d) == name
}

/// The predeclared type that `d` declares: `bool`, `int` or `string`; none otherwise.
fn basic_type(pkg: Package<'_>, d: usize) -> Option<Basic>
    requires { d < length pkg.table.now.sites }
    ensures { MatchOption result ((b : Basic) → IsPredeclared (package_of pkg.entry) d (basic_name b) → ⊥) (λ b. IsPredeclared (package_of pkg.entry) d (basic_name b)) }
{
    if is_predeclared(pkg, d, b"bool".as_slice()) {
        Some(Basic::Bool)
    } else if is_predeclared(pkg, d, b"int".as_slice()) {
        Some(Basic::Int)
    } else if is_predeclared(pkg, d, b"string".as_slice()) {
        Some(Basic::String)
    } else {
        None
    }
}

/// The type of the type definition of this rank.
#[tactic(auto, unfolding(types_expr::specs::View::type_of))]
pub fn defined_type(pkg: Package<'_>, rank: usize) -> Result<GoType, AllocError>
    ensures { IfOk result (λ t. type_of t ≡ Defined (symbol_in (package_of pkg.entry) rank)) }
{
    let package = pkg.path.clone()?;
    Ok(GoType::Defined(Symbol { package, rank }))
}

/// The type that `d` declares, predeclared or defined in the package; none where it declares none.
fn declared_type(
    pkg: Package<'_>,
    index: &Index<'_>,
    d: usize,
) -> Result<Option<GoType>, AllocError>
    requires index { IsIndexOf (package_of pkg) index.now }
    requires in_range { d < length pkg.table.now.sites }
    ensures { IfOk result (λ t. IsTypeDeclared (package_of pkg.entry) d (option_map type_of t)) }
{
    if let Some(basic) = basic_type(pkg, d) {
        return Ok(Some(GoType::Basic(basic)));
    }
    match index.definition(pkg, d) {
        None => Ok(None),
        Some(rank) => Ok(Some(defined_type(pkg, rank)?)),
    }
}

/// The type that the unqualified name at a token names; none where it names no type.
fn local_type(
    pkg: Package<'_>,
    index: &Index<'_>,
    file: usize,
    name: usize,
) -> Result<Option<GoType>, AllocError>
    requires { IsIndexOf (package_of pkg) index.now }
    ensures { IfOk result (λ t. IsNamedBy (package_of pkg.entry) file (Local name) (option_map type_of t)) }
{
    match index.binding(pkg, file, name) {
        None => Ok(None),
        Some(d) => declared_type(pkg, index, d),
    }
}

/// The export that the package of the import `d` has under the name spelled at a token.
fn export_of_import<'a>(
    pkg: Package<'a>,
    index: &Index<'_>,
    d: usize,
    file: usize,
    name: usize,
) -> Option<&'a Export>
    requires index { IsIndexOf (package_of pkg) index.now }
    requires in_range { d < length pkg.table.now.sites }
    ensures { IsOneExport (IsExportOf (package_of pkg.entry) d file name) result }
{
    match index.path(pkg, d) {
        None => None,
        Some(path) => pkg.export_table.export(path, pkg.spelling(file, name)),
    }
}

/// The export that a qualified identifier `p.N` denotes; none where `p` is no import name or the package doesn't export `N`.
pub fn export_at<'a>(
    pkg: Package<'a>,
    index: &Index<'_>,
    file: usize,
    qualifier: usize,
    name: usize,
) -> Option<&'a Export>
    requires { IsIndexOf (package_of pkg) index.now }
    ensures { IsOneExport (IsExportAt (package_of pkg.entry) file qualifier name) result }
{
    match index.binding(pkg, file, qualifier) {
        None => None,
        Some(d) => export_of_import(pkg, index, d, file, name),
    }
}

/// The type that an export names; none where it is a variable or a function.
#[tactic(auto, unfolding(crate::specs::ExportTablesView::meaning_of))]
fn exported_type(export: &Export) -> Option<&GoType>
    ensures { MatchOption result ((t : PlainType) → (export_of export.now).meaning ≡ TypeName t → ⊥) (λ t. (export_of export.now).meaning ≡ TypeName (type_of t.now)) }
{
    match &export.meaning {
        ExportMeaning::TypeName(own) => Some(own),
        ExportMeaning::Variable(_) | ExportMeaning::Function(_) => None,
    }
}

/// The type that a qualified identifier `p.T` names; none where it names no type.
fn imported_type<'a>(
    pkg: Package<'a>,
    index: &Index<'_>,
    file: usize,
    qualifier: usize,
    name: usize,
) -> Option<&'a GoType>
    requires { IsIndexOf (package_of pkg) index.now }
    ensures { MatchOption result ((t : PlainType) → NamesExport (package_of pkg.entry) file qualifier name t → ⊥) (λ t. NamesExport (package_of pkg.entry) file qualifier name (type_of t.now)) }
{
    match export_at(pkg, index, file, qualifier, name) {
        None => None,
        Some(export) => exported_type(export),
    }
}

/// The type that a type expression names, whether or not its definition is broken; none where it names no type.
pub fn named_type(
    alloc: Global,
    pkg: Package<'_>,
    index: &Index<'_>,
    file: usize,
    written: &TypeExpr,
) -> Result<Option<GoType>, AllocError>
    requires { IsIndexOf (package_of pkg) index.now }
    ensures { IfOk result (λ t. IsNamedBy (package_of pkg.entry) file (type_view written.now) (option_map type_of t)) }
{
    match written {
        TypeExpr::Local(name) => local_type(pkg, index, file, *name as usize),
        TypeExpr::Imported { package, name, .. } => {
            match imported_type(pkg, index, file, *package as usize, *name as usize) {
                None => Ok(None),
                Some(own) => Ok(Some(own.copy(alloc)?)),
            }
        }
        TypeExpr::Pointer { target, .. } => match named_type(alloc, pkg, index, file, target)? {
            None => Ok(None),
            Some(target) => Ok(Some(GoType::Pointer(Box::new(alloc, target)?))),
        },
        TypeExpr::Slice { element, .. } => match named_type(alloc, pkg, index, file, element)? {
            None => Ok(None),
            Some(element) => Ok(Some(GoType::Slice(Box::new(alloc, element)?))),
        },
    }
}

/// The rank of the type definition that an unqualified name is bound to; none where it is bound to no definition of the package.
pub fn local_definition(
    pkg: Package<'_>,
    index: &Index<'_>,
    file: usize,
    name: usize,
) -> Option<usize>
    requires { IsIndexOf (package_of pkg) index.now }
    ensures { IsMentionedBy (package_of pkg.entry) file (Local name) result }
{
    match index.binding(pkg, file, name) {
        None => None,
        Some(d) => index.definition(pkg, d),
    }
}

/// The rank of the package's type definition that a type expression mentions, itself or under pointers and slices.
pub fn mentioned(
    pkg: Package<'_>,
    index: &Index<'_>,
    file: usize,
    written: &TypeExpr,
) -> Option<usize>
    requires { IsIndexOf (package_of pkg) index.now }
    ensures { IsMentionedBy (package_of pkg.entry) file (type_view written.now) result }
{
    match written {
        TypeExpr::Local(name) => local_definition(pkg, index, file, *name as usize),
        TypeExpr::Imported { .. } => None,
        TypeExpr::Pointer { target, .. } => mentioned(pkg, index, file, target),
        TypeExpr::Slice { element, .. } => mentioned(pkg, index, file, element),
    }
}
