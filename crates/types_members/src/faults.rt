//! Finds the faults of members: repeated fields and methods, and type definitions that contain themselves.
ghost use Rattle.std.specs.Prelude.{◌≡◌, ◌&&◌, is_some, not, map, IfOk, OnOk};
ghost use Rattle.std.specs.List.Sorted.{IsStrictlySortedBy};
ghost use Rattle.types_declared.specs.contracts.fault.FaultOrd.TheImpl as order;
ghost use Rattle.types_declared.specs.Listing.{AddsFaults, HoldsExactly};
ghost use Rattle.types_declared.specs.Definitions.{package_fields};
ghost use Rattle.types_members.specs.FieldsView.{field_of};
ghost use Rattle.types_members.specs.MemberFaults.{IsRepeatedField, IsRepeatedMethod, IsRecursive, IsMemberFault};
ghost use Rattle.types_members.specs.MembersView.{AreCountingFields, AreOwners, AreCountingMethods};
ghost use Rattle.types_members.specs.Recursion.{AreRecursive};
ghost use Rattle.types_members.specs.TypeMembers.{AreMembers};
ghost use Rattle.types_declared.specs.PackageView.{package_of, IsIndexOf};

use crate::recursion::recursive_definitions;
use crate::struct_fields::FieldDef;
use crate::type_members::Members;
use base_files::FaultKind;
use std::alloc::{AllocError, Global};
use types_declared::{Fault, Index, Package, push_if, sort};

/// Adds the faults of fields that don't count.
fn add_fields(
    found: &mut Vec<Fault>,
    pkg: Package<'_>,
    fields: &[FieldDef<'_>],
    counting: &[bool],
) -> Result<(), AllocError>
    requires fields { map field_of fields.now ≡ package_fields (package_of pkg) }
    requires counting { AreCountingFields (package_of pkg) counting.now }
    ensures { OnOk result (AddsFaults found.old.items found.new.items (IsRepeatedField (package_of pkg.entry))) }
{
    for rank in 0..fields.len() {
        let field = fields[rank];
        let counts = counting[rank];
        let fault = Fault {
            file: field.file,
            token: field.name,
            kind: FaultKind::Repeated,
        };
        push_if(found, !counts, fault)?;
    }
    Ok(())
}

/// Whether a function is a method that doesn't count.
fn is_displaced(owner: Option<usize>, counts: bool) -> bool
    ensures { result ≡ (is_some owner && not counts) }
{
    owner.is_some() && !counts
}

/// Adds the faults of methods that don't count.
#[tactic(auto, unfolding(go_ast::specs::FileView::func_view))]
fn add_methods(
    found: &mut Vec<Fault>,
    pkg: Package<'_>,
    index: &Index<'_>,
    owners: &[Option<usize>],
    counting: &[bool],
) -> Result<(), AllocError>
    requires index { IsIndexOf (package_of pkg) index.now }
    requires owners { AreOwners (package_of pkg) owners.now }
    requires counting { AreCountingMethods (package_of pkg) counting.now }
    ensures { OnOk result (AddsFaults found.old.items found.new.items (IsRepeatedMethod (package_of pkg.entry))) }
{
    pkg.table.is_well_formed();
    let functions = &index.declared.functions;
    for rank in 0..functions.len() {
        let function = functions[rank];
        let owner = owners[rank];
        let counts = counting[rank];
        let fault = Fault {
            file: function.file,
            token: function.func.name as usize,
            kind: FaultKind::Repeated,
        };
        push_if(found, is_displaced(owner, counts), fault)?;
    }
    Ok(())
}

/// Adds the faults of type definitions that contain themselves.
#[tactic(auto, unfolding(go_ast::specs::FileView::type_spec_view))]
fn add_recursive(
    found: &mut Vec<Fault>,
    pkg: Package<'_>,
    index: &Index<'_>,
    recursive: &[bool],
) -> Result<(), AllocError>
    requires index { IsIndexOf (package_of pkg) index.now }
    requires recursive { AreRecursive (package_of pkg) recursive.now }
    ensures { OnOk result (AddsFaults found.old.items found.new.items (IsRecursive (package_of pkg.entry))) }
{
    let types = &index.declared.types;
    for rank in 0..types.len() {
        let definition = types[rank];
        let holds_itself = recursive[rank];
        let fault = Fault {
            file: definition.file,
            token: definition.spec.name as usize,
            kind: FaultKind::Recursive,
        };
        push_if(found, holds_itself, fault)?;
    }
    Ok(())
}

/// Returns the faults of a package's members, unsorted, given the marks of the definitions that contain themselves.
fn faults_found(
    alloc: Global,
    pkg: Package<'_>,
    index: &Index<'_>,
    members: &Members<'_>,
    recursive: &[bool],
) -> Result<Vec<Fault>, AllocError>
    requires index { IsIndexOf (package_of pkg) index.now }
    requires members { AreMembers (package_of pkg) members.now }
    requires recursive { AreRecursive (package_of pkg) recursive.now }
    ensures { IfOk result (λ found. HoldsExactly (IsMemberFault (package_of pkg.entry)) found.items) }
{
    let fields = &members.fields;
    let methods = &members.methods;
    let mut found = Vec::new(alloc);
    add_fields(&mut found, pkg, &fields.all, &fields.counting)?;
    add_methods(&mut found, pkg, index, &methods.owners, &methods.counting)?;
    add_recursive(&mut found, pkg, index, recursive)?;
    Ok(found)
}

/// Returns the faults of a package's members, sorted by file and token: fields and methods that don't count, and type definitions that
/// contain themselves.
pub fn member_faults(
    alloc: Global,
    pkg: Package<'_>,
    index: &Index<'_>,
    members: &Members<'_>,
) -> Result<Vec<Fault>, AllocError>
    requires index { IsIndexOf (package_of pkg) index.now }
    requires members { AreMembers (package_of pkg) members.now }
    ensures listed { IfOk result (λ found. HoldsExactly (IsMemberFault (package_of pkg.entry)) found.items) }
    ensures order { IfOk result (λ found. IsStrictlySortedBy order.ghosts.cmp found.items) }
{
    let recursive = recursive_definitions(alloc, pkg, index)?;
    let mut found = faults_found(alloc, pkg, index, members, &recursive)?;
    sort(&mut found);
    Ok(found)
}
