//! Makes the table in which an import without a name declares the name of the package that it imports.
ghost use Rattle.std.specs.Prelude.{◌≡◌, ◌<◌, Some, length, map, IfOk};
ghost use Rattle.go_scope.specs.IdentifierViews.{site_of};
ghost use Rattle.go_scope.specs.Named.{is_unnamed_import, name_value, name_given, with_names, named_site, named_sites, NamesSite};

use crate::contents::table_contents;
use crate::identifiers::Identifiers;
use crate::model::{Block, Identifier, Purpose, Role};
use crate::table::ScopeTable;
use std::alloc::{AllocError, Global};

impl Role {
    /// Whether the role is that of the string literal of an import without a name.
    pub fn is_unnamed_import(self) -> bool
        ensures { result ≡ is_unnamed_import self }
    {
        match self {
            Role::NotLexical(Purpose::UnnamedImport) => true,
            _ => false,
        }
    }
}

/// The name at an index, or none beyond the end of the list.
fn name_given<'a>(names: &[Option<&'a [u8]>], u: usize) -> Option<&'a [u8]>
    ensures { name_value result ≡ name_given names.now u }
{
    match names.get(u) {
        None => None,
        Some(name) => *name,
    }
}

/// Lets an identifier declare `name` in its file if it is the string literal of an import without a name.
fn name_identifier<'a>(identifier: &mut Identifier<'a>, name: &'a [u8])
    ensures { site_of identifier.new ≡ named_site (Some name.now) (site_of identifier.old) }
{
    if identifier.role.is_unnamed_import() {
        identifier.name = name;
        identifier.role = Role::Declaring(Block::File(identifier.place.file), 0);
    }
}

/// Lets the identifier `u` declare the name that is given for it, if it is the string literal of an import without a name.
fn name_numbered<'a>(identifiers: &mut Vec<Identifier<'a>>, u: usize, name: Option<&'a [u8]>)
    requires { u < length identifiers.old.items }
    ensures { NamesSite (map site_of identifiers.old.items) (map site_of identifiers.new.items) u (name_value name.entry) }
{
    match name {
        None => {}
        Some(name) => name_identifier(&mut identifiers[u], name),
    }
}

/// Lets the string literal of each import without a name declare the name that `names` gives for its number.
fn name_identifiers<'a>(identifiers: &mut Vec<Identifier<'a>>, names: &[Option<&'a [u8]>])
    ensures { map site_of identifiers.new.items ≡ named_sites (name_given names.now) (map site_of identifiers.old.items) }
{
    for u in 0..identifiers.len() {
        name_numbered(identifiers, u, name_given(names, u));
    }
}

/// The table of a package's identifiers, with their bindings.
fn known_table<'a>(
    alloc: Global,
    identifiers: Identifiers<'a>,
) -> Result<ScopeTable<'a>, AllocError>
    ensures { IfOk result (λ table. table ≡ identifiers.entry) }
{
    let known = table_contents(alloc, &identifiers)?;
    Ok(ScopeTable::new(identifiers, known))
}

/// The table in which an import without a name declares, in its file, the name of the package that it imports. `names` gives the package's
/// name by the number of the literal. An import whose package's name is not known declares nothing.
pub fn name_imports<'a>(
    alloc: Global,
    plain: Identifiers<'a>,
    names: &[Option<&'a [u8]>],
) -> Result<ScopeTable<'a>, AllocError>
    ensures { IfOk result (λ laid. laid ≡ with_names (name_given names.now) plain.entry) }
{
    plain.are_laid_out();
    let files = plain.files();
    let mut list = plain.into_list();
    name_identifiers(&mut list, names);
    known_table(alloc, Identifiers::new(files, list))
}
