//! Decides which fields count: the first of each name in a struct.
ghost use Rattle.std.specs.Prelude.{◌≡◌, length, map, not, IfOk, OnOk};
ghost use Rattle.types_declared.specs.Package.{spelled};
ghost use Rattle.types_declared.specs.Definitions.{package_fields};
ghost use Rattle.types_members.specs.FieldsView.{field_of, IsFieldNamed};
ghost use Rattle.types_members.specs.MemberNames.{is_noted, AddsMemberName, AreNamesBelow};
ghost use Rattle.types_members.specs.MembersView.{AreCountingFields};
ghost use Rattle.types_declared.specs.PackageView.{package_of};

use crate::member_names::MemberNames;
use crate::struct_fields::FieldDef;
use std::alloc::{AllocError, Global};
use types_declared::Package;

/// Adds the name of a field to those of its definition; returns whether it is new there.
fn note_field<'a>(
    alloc: Global,
    pkg: Package<'a>,
    names: &mut MemberNames<'a>,
    field: &FieldDef<'_>,
) -> Result<bool, AllocError>
    ensures added { IfOk result (λ added. added ≡ not (is_noted names.old field.now.definition (spelled (package_of pkg.entry) field.now.file field.now.name))) }
    ensures noted { OnOk result (AddsMemberName (is_noted names.old) (is_noted names.new) field.now.definition (spelled (package_of pkg.entry) field.now.file field.now.name)) }
{
    names.note(
        alloc,
        field.definition,
        pkg.spelling(field.file, field.name),
    )
}

/// Collects the names of the fields of each definition.
pub(crate) fn struct_names<'a>(
    alloc: Global,
    pkg: Package<'a>,
    fields: &[FieldDef<'_>],
) -> Result<MemberNames<'a>, AllocError>
    requires { map field_of fields.now ≡ package_fields (package_of pkg) }
    ensures { IfOk result (λ names. AreNamesBelow (IsFieldNamed (package_of pkg.entry)) (length (package_fields (package_of pkg.entry))) (is_noted names)) }
{
    let mut names = MemberNames::new(alloc);
    for field in fields {
        note_field(alloc, pkg, &mut names, field)?;
    }
    Ok(names)
}

/// Marks the fields of a package that count, by rank.
pub fn counting_fields(
    alloc: Global,
    pkg: Package<'_>,
    fields: &[FieldDef<'_>],
) -> Result<Vec<bool>, AllocError>
    requires { map field_of fields.now ≡ package_fields (package_of pkg) }
    ensures { IfOk result (λ marks. AreCountingFields (package_of pkg.entry) marks.items) }
{
    let mut names = MemberNames::new(alloc);
    let mut marks = Vec::new(alloc);
    for field in fields {
        let counts = note_field(alloc, pkg, &mut names, field)?;
        marks.push(counts)?;
    }
    Ok(marks)
}
