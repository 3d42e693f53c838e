//! The underlying types, fields and methods of a package's type definitions.
ghost use Rattle.std.specs.Prelude.{◌≡◌, map, IfOk};
ghost use Rattle.types_declared.specs.Definitions.{package_fields};
ghost use Rattle.types_declared.specs.PackageView.{package_of, IsIndexOf};
ghost use Rattle.types_members.specs.FieldsView.{field_of};
ghost use Rattle.types_members.specs.MembersView.{AreUnderlying};
ghost use Rattle.types_members.specs.TypeMembers.{AreFields, AreMethods, AreMembers};

use crate::field_marks::counting_fields;
use crate::method_marks::counting_methods;
use crate::methods::owners;
use crate::struct_fields::{FieldDef, fields};
use crate::underlying::underlying_types;
use std::alloc::{AllocError, Global};
use types_declared::{Index, Package};
use types_expr::world::Underlying;

/// The fields of a package, and a mark for each that counts.
#[derive(Drop)]
pub struct Fields<'a> {
    pub all: Vec<FieldDef<'a>>,
    pub counting: Vec<bool>,
}

/// For each function of a package the definition of which it is a method, if any. A mark for each method that counts.
#[derive(Drop)]
pub struct Methods {
    pub owners: Vec<Option<usize>>,
    pub counting: Vec<bool>,
}

/// The underlying types of a package's definitions, by rank, its fields and its methods.
#[derive(Drop)]
pub struct Members<'a> {
    pub underlying: Vec<Option<Underlying>>,
    pub fields: Fields<'a>,
    pub methods: Methods,
}

/// Collects the fields of a package and marks those that count.
fn fields_found<'a>(
    alloc: Global,
    pkg: Package<'_>,
    index: &Index<'a>,
) -> Result<Fields<'a>, AllocError>
    requires { IsIndexOf (package_of pkg) index.now }
    ensures { IfOk result (AreFields (package_of pkg.entry)) }
{
    let all = fields(alloc, pkg, index)?;
    let counting = counting_fields(alloc, pkg, &all)?;
    Ok(Fields { all, counting })
}

/// Finds the methods of a package and marks those that count.
fn methods_found(
    alloc: Global,
    pkg: Package<'_>,
    index: &Index<'_>,
    fields: &[FieldDef<'_>],
    underlying: &[Option<Underlying>],
) -> Result<Methods, AllocError>
    requires index { IsIndexOf (package_of pkg) index.now }
    requires fields { map field_of fields.now ≡ package_fields (package_of pkg) }
    requires underlying { AreUnderlying (package_of pkg) underlying.now }
    ensures { IfOk result (AreMethods (package_of pkg.entry)) }
{
    let owners = owners(alloc, pkg, index)?;
    let counting = counting_methods(alloc, pkg, index, fields, &owners, underlying)?;
    Ok(Methods { owners, counting })
}

/// Finds the fields and methods of a package, given the underlying types of its definitions.
fn members_found<'a>(
    alloc: Global,
    pkg: Package<'_>,
    index: &Index<'a>,
    underlying: Vec<Option<Underlying>>,
) -> Result<Members<'a>, AllocError>
    requires index { IsIndexOf (package_of pkg) index.now }
    requires underlying { AreUnderlying (package_of pkg) underlying.items }
    ensures { IfOk result (AreMembers (package_of pkg.entry)) }
{
    let fields = fields_found(alloc, pkg, index)?;
    let methods = methods_found(alloc, pkg, index, &fields.all, &underlying)?;
    Ok(Members {
        underlying,
        fields,
        methods,
    })
}

impl<'a> Members<'a> {
    /// Finds the underlying types, fields and methods of a package.
    pub fn of(alloc: Global, pkg: Package<'_>, index: &Index<'a>) -> Result<Members<'a>, AllocError>
        requires { IsIndexOf (package_of pkg) index.now }
        ensures { IfOk result (AreMembers (package_of pkg.entry)) }
    {
        let underlying = underlying_types(alloc, pkg, index)?;
        members_found(alloc, pkg, index, underlying)
    }
}
