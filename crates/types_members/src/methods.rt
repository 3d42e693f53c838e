//! Finds for each function of a package the definition of which it is a method.
ghost use Rattle.std.specs.Prelude.{IfOk};
ghost use Rattle.types_declared.specs.DeclaredView.{function_of};
ghost use Rattle.types_members.specs.MethodsView.{IsOwnedBy};
ghost use Rattle.types_members.specs.MembersView.{AreOwners};
ghost use Rattle.types_declared.specs.PackageView.{package_of, IsIndexOf};

use std::alloc::{AllocError, Global};
use types_declared::{Function, Index, Package, local_definition};

/// The rank of the definition to which a function's receiver type is bound; none where the function is no method.
#[tactic(auto, unfolding(go_ast::specs::FileView::func_view, go_ast::specs::FileView::receiver_view))]
fn owner(pkg: Package<'_>, index: &Index<'_>, function: Function<'_>) -> Option<usize>
    requires { IsIndexOf (package_of pkg) index.now }
    ensures { IsOwnedBy (package_of pkg.entry) (function_of function.entry) result }
{
    match &function.func.receiver {
        None => None,
        Some(receiver) => local_definition(pkg, index, function.file, receiver.type_name as usize),
    }
}

/// Returns for each function of a package the rank of the definition of which it is a method; none where it is no method.
pub fn owners(
    alloc: Global,
    pkg: Package<'_>,
    index: &Index<'_>,
) -> Result<Vec<Option<usize>>, AllocError>
    requires { IsIndexOf (package_of pkg) index.now }
    ensures { IfOk result (λ owners. AreOwners (package_of pkg.entry) owners.items) }
{
    let functions = &index.declared.functions;
    let mut owners = Vec::new(alloc);
    for rank in 0..functions.len() {
        let function = functions[rank];
        owners.push(owner(pkg, index, function))?;
    }
    Ok(owners)
}
