//! Finds the signatures of functions.
ghost use Rattle.std.specs.Prelude.{◌≡◌, map, option_map, IfOk, OnOk};
ghost use Rattle.go_ast.specs.View.{list_view};
ghost use Rattle.go_ast.specs.FileView.{param_view, results_view};
ghost use Rattle.types_declared.specs.Appending.{Appends};
ghost use Rattle.types_declared.specs.MeaningOf.{parameter_types, result_types};
ghost use Rattle.types_info.specs.SignatureView.{AreTypesFound, tree_of, plain_types};
ghost use Rattle.types_expr.specs.View.{signature_of};
ghost use Rattle.types_declared.specs.Definitions.{IsFoundSignature, IsSignatureFound};
ghost use Rattle.types_declared.specs.DeclaredView.{function_of};
ghost use Rattle.types_declared.specs.Broken.{AreBroken};
ghost use Rattle.types_declared.specs.PackageView.{package_of, IsIndexOf};

use crate::resolved_types::valid_type;
use go_ast::tree::{Item, Param, Results, TypeExpr};
use std::alloc::{AllocError, Global};
use types_declared::{Function, Index, Package};
use types_expr::types::{GoType, Signature};

/// The types of type expressions, in order; none where one of them names no type or mentions a broken definition.
pub fn valid_types(
    alloc: Global,
    pkg: Package<'_>,
    index: &Index<'_>,
    broken: &[bool],
    file: usize,
    written: &[&TypeExpr],
) -> Result<Option<Vec<GoType>>, AllocError>
    requires index { IsIndexOf (package_of pkg) index.now }
    requires broken { AreBroken (package_of pkg) broken.now }
    ensures { IfOk result (λ types. AreTypesFound (package_of pkg.entry) file (map tree_of written.now) (option_map plain_types types)) }
{
    let mut types = Vec::with_capacity(alloc, written.len())?;
    for one in written {
        match valid_type(alloc, pkg, index, broken, file, one)? {
            None => return Ok(None),
            Some(own) => types.push(own)?,
        }
    }
    Ok(Some(types))
}

/// Appends the type expression of a parameter declaration, once for each name.
#[tactic(auto, unfolding(go_ast::specs::FileView::param_view))]
fn add_param<'a>(found: &mut Vec<&'a TypeExpr>, param: &'a Param) -> Result<(), AllocError>
    ensures { OnOk result (Appends tree_of found.old.items found.new.items (map (λ n. (param_view param.now).type_use) (param_view param.now).names)) }
{
    for _name in &param.names {
        found.push(&param.param_type)?;
    }
    Ok(())
}

/// The type expressions of parameters, once for each name.
fn param_types<'a>(
    alloc: Global,
    params: &'a [Item<Param>],
) -> Result<Vec<&'a TypeExpr>, AllocError>
    ensures { IfOk result (λ found. map tree_of found.items ≡ parameter_types (list_view param_view params.now)) }
{
    let mut found = Vec::new(alloc);
    for param in params {
        add_param(&mut found, &param.value)?;
    }
    Ok(found)
}

/// Appends the type expressions of results.
fn add_results<'a>(found: &mut Vec<&'a TypeExpr>, results: &'a Results) -> Result<(), AllocError>
    ensures { OnOk result (Appends tree_of found.old.items found.new.items (result_types (results_view results.now))) }
{
    match results {
        Results::None => Ok(()),
        Results::Single(own) => {
            found.push(own)?;
            Ok(())
        }
        Results::Several { types, .. } => {
            for item in types {
                found.push(&item.value)?;
            }
            Ok(())
        }
    }
}

/// The signature of parameters and results that a file writes; none where a type expression in them names no type or mentions a broken
/// definition.
pub fn written_signature(
    alloc: Global,
    pkg: Package<'_>,
    index: &Index<'_>,
    broken: &[bool],
    file: usize,
    params: &[Item<Param>],
    results: &Results,
) -> Result<Option<Signature>, AllocError>
    requires index { IsIndexOf (package_of pkg) index.now }
    requires broken { AreBroken (package_of pkg) broken.now }
    ensures { IfOk result (λ s. IsSignatureFound (package_of pkg.entry) file (list_view param_view params.now) (results_view results.now) (option_map signature_of s)) }
{
    let params = param_types(alloc, params)?;
    let mut written = Vec::new(alloc);
    add_results(&mut written, results)?;
    let Some(parameters) = valid_types(alloc, pkg, index, broken, file, &params)? else {
        return Ok(None);
    };
    let Some(results) = valid_types(alloc, pkg, index, broken, file, &written)? else {
        return Ok(None);
    };
    Ok(Some(Signature {
        parameters,
        results,
    }))
}

/// The signature of a function; none where a type expression in it names no type or mentions a broken definition.
#[tactic(auto, unfolding(go_ast::specs::FileView::func_view))]
pub fn signature(
    alloc: Global,
    pkg: Package<'_>,
    index: &Index<'_>,
    broken: &[bool],
    function: Function<'_>,
) -> Result<Option<Signature>, AllocError>
    requires index { IsIndexOf (package_of pkg) index.now }
    requires broken { AreBroken (package_of pkg) broken.now }
    ensures { IfOk result (λ s. IsFoundSignature (package_of pkg.entry) (function_of function.entry) (option_map signature_of s)) }
{
    written_signature(
        alloc,
        pkg,
        index,
        broken,
        function.file,
        &function.func.params,
        &function.func.results,
    )
}
