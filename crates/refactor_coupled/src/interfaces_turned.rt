//! The first interface whose implementing types a rename changes.
ghost use Rattle.std.specs.Prelude.{◌≡◌, ◌↔◌, true, map, option_map, slice_get, IsTrue, IfOk, OnOk};
ghost use Rattle.types_declared.specs.DeclaredView.{type_of};
ghost use Rattle.types_declared.specs.Package.{type_place};
ghost use Rattle.std.specs.Option.{option_copied};
ghost use Rattle.std.specs.declared.cmp.Ordering.TheVariants.{Less};
ghost use Rattle.go_ast.specs.SourceFile.{source_of};
ghost use Rattle.refs_binding.specs.Places.{place_cmp};
ghost use Rattle.refs_binding.specs.Uses.{IsCheckedPackage};
ghost use Rattle.refs_binding.specs.Workspaces.{known_in};
ghost use Rattle.refs_places.specs.DeclaredPlaces.{IsChoice, TokenBeginsAt};
ghost use Rattle.refactor_coupled.specs.Called.{AreCalled};
ghost use Rattle.refactor_coupled.specs.FirstTurns.{IsBeforeFirst, IsTypeNameAt, IsTypeNameIn, KeepsFirst, KeepsFound, KeepsTurned, TellsFirstTurn, named_turns};
ghost use Rattle.refactor_coupled.specs.RenamedTypesView.{definitions_in, interface_of, rename_of};
ghost use Rattle.refactor_coupled.specs.Turning.{HasParts};

use crate::called::{interfaces_called, types_of};
use crate::renamed_types::{RenamedSet, RenamedTypes};
use crate::turning::{CalledTypes, called_types, turns_called};
use base_files::Place;
use go_ast::FileTree;
use go_scope::model::Position;
use refs_binding::{FaultlessWorkspace, trees};
use refs_places::place_of;
use std::alloc::{AllocError, Global};
use types_declared::{Declared, TypeDef};
use types_expr::symbol::Symbol;
use types_expr::world::{Definitions, Underlying};

/// The interface that is the underlying type of a type definition, if it has one.
#[tactic(auto, unfolding(types_expr::specs::WorldView::underlying_of))]
fn interface_of<'a>(types: &'a Definitions, named: &Symbol) -> Option<&'a Symbol>
    ensures { option_copied result ≡ interface_of (definitions_in types.now named.now).underlying }
{
    match &types.get(named)?.underlying {
        Underlying::Interface(written) => Some(written),
        Underlying::Plain(_)
        | Underlying::PointerTo(_)
        | Underlying::SliceOf(_)
        | Underlying::Struct(_) => None,
    }
}

/// Whether the rename changes which of the called types implement the interface that a type definition names.
fn turns_named(types: &RenamedTypes<'_>, called: &CalledTypes, named: &Symbol) -> bool
    requires { HasParts types.now called.now }
    ensures { result ≡ named_turns types.now.types.now (rename_of types.now.rename) called.now.all.items named.now }
{
    match interface_of(types.types, named) {
        None => false,
        Some(interface) => turns_called(types, called, interface),
    }
}

/// The type definition of a rank in a list.
fn definition_at<'a, 'b>(types: &'b [TypeDef<'a>], rank: usize) -> Option<&'b TypeDef<'a>>
    ensures { option_copied result ≡ slice_get types.now rank }
{
    types.get(rank)
}

/// The position of the name of the type definition of a rank in a list.
fn listed_name(types: &[TypeDef<'_>], rank: usize) -> Option<Position>
    ensures { result ≡ option_map type_place (slice_get (map type_of types.now) rank) }
{
    match definition_at(types, rank) {
        None => None,
        Some(definition) => Some(Position {
            file: definition.file,
            index: definition.spec.name as usize,
        }),
    }
}

/// Where the token at a position begins, if there is a position.
fn beginning_at(files: &[FileTree], at: Option<Position>) -> Result<Option<Place>, AllocError>
    ensures { IfOk result (IsChoice (TokenBeginsAt (map source_of files.now) at)) }
{
    match at {
        None => Ok(None),
        Some(at) => place_of(files, at),
    }
}

/// Where the name of the type definition of a rank begins, in the files of its package.
fn name_in(alloc: Global, files: &[FileTree], rank: usize) -> Result<Option<Place>, AllocError>
    ensures { IfOk result (IsChoice (IsTypeNameIn (map source_of files.now) rank)) }
{
    let declared = Declared::of(alloc, files)?;
    let at = listed_name(declared.types.as_slice(), rank);
    beginning_at(files, at)
}

/// Where the name of a type definition begins.
fn name_of(
    alloc: Global,
    workspace: &FaultlessWorkspace<'_>,
    named: &Symbol,
) -> Result<Option<Place>, AllocError>
    ensures { IfOk result (IsChoice (IsTypeNameAt (IsCheckedPackage workspace.now.graph (known_in workspace.now.findings)) named.now)) }
{
    workspace.has_no_faults();
    match workspace.number_of(named.package.path()) {
        None => Ok(None),
        Some(number) => name_in(alloc, trees(workspace, number), named.rank),
    }
}

/// Whether a place comes before another one: by the bytes of their paths, then by their offsets.
fn comes_first(place: &Place, other: &Place) -> bool
    ensures { IsTrue result ↔ (place_cmp place.now other.now ≡ Less) }
{
    let by_path = place.path.cmp(&other.path);
    by_path.then(place.offset.cmp(&other.offset)).is_lt()
}

/// Whether a place comes before the first one found so far. True where none is found.
fn is_earlier(place: &Place, first: &Option<Place>) -> bool
    ensures { IsTrue result ↔ IsBeforeFirst place.now first.now }
{
    match first {
        None => true,
        Some(other) => comes_first(place, other),
    }
}

/// Makes a place the first one, if it comes before the first found so far.
fn keep_first(first: &mut Option<Place>, place: Place)
    ensures { KeepsFirst place first.old first.new }
{
    if !is_earlier(&place, first) {
        return;
    }
    *first = Some(place);
}

/// Makes a place that was found the first one, if it comes before the first found so far.
fn keep_found(first: &mut Option<Place>, found: Option<Place>)
    ensures { KeepsFound found first.old first.new }
{
    if let Some(place) = found {
        keep_first(first, place);
    }
}

/// Keeps the place of the name of a type definition whose interface turns, if it is the first.
fn keep_if_turned(
    alloc: Global,
    first: &mut Option<Place>,
    workspace: &FaultlessWorkspace<'_>,
    types: &RenamedTypes<'_>,
    called: &CalledTypes,
    named: &Symbol,
) -> Result<(), AllocError>
    requires { HasParts types.now called.now }
    ensures { OnOk result (KeepsTurned workspace.now types.now called.now.all.items named.now first.old first.new) }
{
    if !turns_named(types, called, named) {
        return Ok(());
    }
    let found = name_of(alloc, workspace, named)?;
    keep_found(first, found);
    Ok(())
}

/// The first of the names of type definitions, by place, whose interface some type turns.
fn first_turned(
    alloc: Global,
    workspace: &FaultlessWorkspace<'_>,
    rename: RenamedSet<'_>,
    interfaces: &[Symbol],
) -> Result<Option<Place>, AllocError>
    requires { AreCalled workspace.now rename.old.now rename.new.now true interfaces.now }
    ensures { IfOk result (TellsFirstTurn workspace.now (rename_of rename.entry)) }
{
    workspace.has_no_faults();
    let types = RenamedTypes {
        types: types_of(workspace),
        rename,
    };
    let called = called_types(alloc, workspace, &types)?;
    let mut first = None;
    for named in interfaces {
        keep_if_turned(alloc, &mut first, workspace, &types, &called, named)?;
    }
    Ok(first)
}

/// The place of the name of a type definition whose underlying type is an interface and whose implementing types the rename changes. It is the
/// first one by path and offset, or `None` where there is none.
///
/// Types and interfaces that have neither name are not asked. The answer is right where no definition of a renamed member has the new name.
pub fn first_change(
    alloc: Global,
    workspace: &FaultlessWorkspace<'_>,
    rename: RenamedSet<'_>,
) -> Result<Option<Place>, AllocError>
    ensures { IfOk result (TellsFirstTurn workspace.now (rename_of rename.entry)) }
{
    workspace.has_no_faults();
    let interfaces = interfaces_called(alloc, workspace, rename)?;
    if interfaces.is_empty() {
        return Ok(None);
    }
    first_turned(alloc, workspace, rename, interfaces.as_slice())
}
