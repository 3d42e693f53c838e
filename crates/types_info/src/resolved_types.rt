//! Finds the types of type expressions that are not broken.
ghost use Rattle.std.specs.Prelude.{◌↔◌, option_map, IsTrue, IfOk};
ghost use Rattle.go_ast.specs.View.{type_view};
ghost use Rattle.types_expr.specs.View.{type_of};
ghost use Rattle.types_declared.specs.Broken.{AreBroken};
ghost use Rattle.types_declared.specs.WrittenView.{IsTypeFound, MentionsBroken};
ghost use Rattle.types_declared.specs.PackageView.{package_of, IsIndexOf};

use go_ast::tree::TypeExpr;
use std::alloc::{AllocError, Global};
use types_declared::{Index, Package, mentioned, named_type};
use types_expr::types::GoType;

/// Whether a type expression mentions a broken definition.
fn mentions_broken(
    pkg: Package<'_>,
    index: &Index<'_>,
    broken: &[bool],
    file: usize,
    written: &TypeExpr,
) -> bool
    requires index { IsIndexOf (package_of pkg) index.now }
    requires broken { AreBroken (package_of pkg) broken.now }
    ensures { IsTrue result ↔ MentionsBroken (package_of pkg.entry) file (type_view written.now) }
{
    match mentioned(pkg, index, file, written) {
        None => false,
        Some(rank) => rank < broken.len() && broken[rank],
    }
}

/// The type of a type expression; none where it names no type or mentions a broken definition.
pub fn valid_type(
    alloc: Global,
    pkg: Package<'_>,
    index: &Index<'_>,
    broken: &[bool],
    file: usize,
    written: &TypeExpr,
) -> Result<Option<GoType>, AllocError>
    requires index { IsIndexOf (package_of pkg) index.now }
    requires broken { AreBroken (package_of pkg) broken.now }
    ensures { IfOk result (λ t. IsTypeFound (package_of pkg.entry) file (type_view written.now) (option_map type_of t)) }
{
    if mentions_broken(pkg, index, broken, file, written) {
        Ok(None)
    } else {
        named_type(alloc, pkg, index, file, written)
    }
}
