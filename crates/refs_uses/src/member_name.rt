//! Finds the name of a field or method among the type definitions of its package.
ghost use Rattle.std.specs.Prelude.{◌≡◌, Contains, option_map, slice_get, IsTrue};
ghost use Rattle.base_files.specs.Packages.{package_paths};
ghost use Rattle.go_scope.specs.Named.{name_value};
ghost use Rattle.types_expr.specs.WorldView.{definition_of, field_of, plain_method_of};
ghost use Rattle.types_declared.specs.Package.{Package as Checked};
ghost use Rattle.refs_binding.specs.declared.declaration.Declaration.{Declaration as Named};
ghost use Rattle.refs_binding.specs.Uses.{IsCheckedPackage};
ghost use Rattle.refs_binding.specs.Workspaces.{known_in, home_path, IsHome};
ghost use Rattle.refs_uses.specs.MemberNames.{NamesField, NamesMethod, HasOneOf, IsFoundName, IsNameFound, IsOnlyName};
ghost use Rattle.refs_uses.specs.SoughtMembers.{AllHaveName};

use crate::may_use::home_of;
use refs_binding::{Declaration, FaultlessWorkspace, own_of};
use types_expr::world::{Definition, Field, Method};

/// Returns the field of that name of the struct that a definition writes.
fn field_in<'a>(definition: &'a Definition, name: &[u8]) -> Option<&'a Field>
    ensures { option_map (λ f. field_of f.now) result ≡ (definition_of definition.now).field name.now }
{
    definition.fields.get(name)
}

/// Returns the method of that name of a definition.
fn method_in<'a>(definition: &'a Definition, name: &[u8]) -> Option<&'a Method>
    ensures { option_map (λ m. plain_method_of m.now) result ≡ (definition_of definition.now).method name.now }
{
    definition.methods.get(name)
}

/// Whether a definition has under this name the field of a rank.
fn has_field(definition: &Definition, name: &[u8], rank: usize) -> bool
    ensures { IsTrue result → NamesField (definition_of definition.now) rank name.now }
{
    match field_in(definition, name) {
        None => false,
        Some(field) => field.symbol.rank == rank,
    }
}

/// Whether a definition has under this name the method of a rank.
fn has_method(definition: &Definition, name: &[u8], rank: usize) -> bool
    ensures { IsTrue result → NamesMethod (definition_of definition.now) rank name.now }
{
    match method_in(definition, name) {
        None => false,
        Some(method) => method.symbol.rank == rank,
    }
}

/// Returns the name under which a definition has the field of a rank, if it is found there.
fn field_name(definition: &Definition, rank: usize) -> Option<&[u8]>
    ensures { IsFoundName (NamesField (definition_of definition.now) rank) result }
{
    for (name, field) in &definition.fields {
        if field.symbol.rank == rank && has_field(definition, name, rank) {
            return Some(name.as_slice());
        }
    }
    None
}

/// Returns the name under which a definition has the method of a rank, if it is found there.
fn method_name(definition: &Definition, rank: usize) -> Option<&[u8]>
    ensures { IsFoundName (NamesMethod (definition_of definition.now) rank) result }
{
    for (name, method) in &definition.methods {
        if method.symbol.rank == rank && has_method(definition, name, rank) {
            return Some(name.as_slice());
        }
    }
    None
}

/// Returns the name of the field of a rank, if one of the definitions has it.
fn field_among(own: &[Definition], rank: usize) -> Option<&[u8]>
    ensures { IsFoundName (λ name. HasOneOf own.now (λ d. NamesField d rank name)) result }
{
    for k in 0..own.len() {
        if let Some(name) = field_name(&own[k], rank) {
            return Some(name);
        }
    }
    None
}

/// Returns the name of the method of a rank, if one of the definitions has it.
fn method_among(own: &[Definition], rank: usize) -> Option<&[u8]>
    ensures { IsFoundName (λ name. HasOneOf own.now (λ d. NamesMethod d rank name)) result }
{
    for k in 0..own.len() {
        if let Some(name) = method_name(&own[k], rank) {
            return Some(name);
        }
    }
    None
}

/// Returns the name of a field or method of the package `home`, if it is found.
fn name_at_home<'a>(
    workspace: &FaultlessWorkspace<'a>,
    declaration: &Declaration,
    home: usize,
) -> Option<&'a [u8]>
    requires { slice_get (package_paths workspace.now.graph) home ≡ home_path declaration.now }
    ensures { IsNameFound workspace.now.graph (known_in workspace.now.findings) declaration.now (name_value result) }
{
    workspace.has_no_faults();
    match declaration {
        Declaration::Predeclared(_) | Declaration::Declared(_, _) => None,
        Declaration::Field(symbol) => field_among(own_of(workspace, home), symbol.rank),
        Declaration::Method(symbol) => method_among(own_of(workspace, home), symbol.rank),
    }
}

/// Returns the name of a field or method, if it is found. `home` is the number of its package.
pub(crate) fn member_name<'a>(
    workspace: &FaultlessWorkspace<'a>,
    declaration: &Declaration,
    home: Option<usize>,
) -> Option<&'a [u8]>
    requires { IsHome workspace.now.graph declaration.now home }
    ensures { IsNameFound workspace.now.graph (known_in workspace.now.findings) declaration.now (name_value result) }
{
    match home {
        None => None,
        Some(number) => name_at_home(workspace, declaration, number),
    }
}

/// Returns the name of a field or method, if it is found among the type definitions of its package.
pub fn name_of_member<'a>(
    workspace: &FaultlessWorkspace<'a>,
    declaration: &Declaration,
) -> Option<&'a [u8]>
    ensures { IsNameFound workspace.now.graph (known_in workspace.now.findings) declaration.now (name_value result) }
{
    member_name(workspace, declaration, home_of(workspace, declaration))
}

/// Whether a name was found for a field or method, and is this one.
fn has_only_name(workspace: &FaultlessWorkspace<'_>, member: &Declaration, name: &[u8]) -> bool
    ensures { IsTrue result → (p : Checked) → IsCheckedPackage workspace.now.graph (known_in workspace.now.findings) p → IsOnlyName p member.now name.now }
{
    match name_of_member(workspace, member) {
        None => false,
        Some(found) => found == name,
    }
}

/// Whether this name was found for all members of a list.
fn have_only_name(workspace: &FaultlessWorkspace<'_>, set: &[Declaration], name: &[u8]) -> bool
    ensures { IsTrue result → (d : Named) → Contains set.now d → (p : Checked) → IsCheckedPackage workspace.now.graph (known_in workspace.now.findings) p → IsOnlyName p d name.now }
{
    for member in set {
        if !has_only_name(workspace, member, name) {
            return false;
        }
    }
    true
}

/// The name of a member, if it was found for it and for all members of a list.
fn name_with_all<'a>(
    workspace: &FaultlessWorkspace<'a>,
    member: &Declaration,
    set: &[Declaration],
) -> Option<&'a [u8]>
    ensures { AllHaveName workspace.now.graph (known_in workspace.now.findings) set.now (name_value result) }
{
    match name_of_member(workspace, member) {
        None => None,
        Some(name) => if have_only_name(workspace, set, name) {
            Some(name)
        } else {
            None
        },
    }
}

/// The name of the members of a list, if it was found for all of them.
pub fn name_of_all<'a>(workspace: &FaultlessWorkspace<'a>, set: &[Declaration]) -> Option<&'a [u8]>
    ensures { AllHaveName workspace.now.graph (known_in workspace.now.findings) set.now (name_value result) }
{
    match set.first() {
        None => None,
        Some(first) => name_with_all(workspace, first, set),
    }
}
