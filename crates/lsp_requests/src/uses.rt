//! Uses, definitions and highlights.
ghost use Rattle.std.specs.Prelude.{◌≡◌};
ghost use Rattle.std.specs.Option.{option_copied};
ghost use Rattle.lsp_told.specs.Locations.{TellsLocation};
ghost use Rattle.lsp_requests.specs.Uses.{
  ListsOthers,
  ListsReferences,
  ListsUsesBut,
  TellsDefinition,
  TellsHighlights,
  TellsHighlightsOf,
  TellsReferences,
};

use crate::declared::declaration_place;
use crate::sight::Sight;
use base_files::Place;
use lsp_told::{AskFault, AskedByte, highlights_of, locations_of, place_told};
use serde_json::Value;
use server_commands::{Desk, find_uses};
use std::alloc::Global;

/// Uses as locations, but for the place that is left out.
fn places_told(
    alloc: Global,
    sight: Sight<'_>,
    places: &[Place],
    left_out: Option<&Place>,
) -> Result<Value, AskFault>
    ensures { ListsUsesBut sight.entry.telling sight.entry.view.now.snapshot.files places.now (option_copied left_out.entry) result }
{
    let told = locations_of(alloc, sight.telling, sight.files(), places, left_out)?;
    Ok(told)
}

/// Uses as locations, without the declaration.
fn others_of<D: Desk>(
    alloc: Global,
    desk: &mut D,
    sight: Sight<'_>,
    at: &AskedByte,
    places: &[Place],
) -> Result<Value, AskFault>
    requires { D.sees desk.old sight.view.now.snapshot.files }
    ensures told { ListsOthers sight.entry.telling sight.entry.view.now.snapshot.files at.now places.now result }
    ensures same { desk.new ≡ desk.old }
{
    match declaration_place(alloc, desk, sight.view, at) {
        Ok(declared) => places_told(alloc, sight, places, declared.as_ref()),
        Err(refusal) => Err(AskFault::from(refusal)),
    }
}

/// Uses as locations, with the declaration or without it.
fn references_of<D: Desk>(
    alloc: Global,
    desk: &mut D,
    sight: Sight<'_>,
    at: &AskedByte,
    places: &[Place],
    with_declaration: bool,
) -> Result<Value, AskFault>
    requires { D.sees desk.old sight.view.now.snapshot.files }
    ensures told { ListsReferences sight.entry.telling sight.entry.view.now.snapshot.files at.now with_declaration places.now result }
    ensures same { desk.new ≡ desk.old }
{
    if with_declaration {
        places_told(alloc, sight, places, None)
    } else {
        others_of(alloc, desk, sight, at, places)
    }
}

/// The identifiers that are bound to the declaration of the one at a byte, with the declaring one or without it.
pub(crate) fn references<D: Desk>(
    alloc: Global,
    desk: &mut D,
    sight: Sight<'_>,
    at: &AskedByte,
    with_declaration: bool,
) -> Result<Value, AskFault>
    requires { D.sees desk.old sight.view.now.snapshot.files }
    ensures told { TellsReferences sight.entry.telling sight.entry.view.now.snapshot.files with_declaration at.now result }
    ensures same { desk.new ≡ desk.old }
{
    match find_uses(alloc, desk, sight.view, at.path.as_str(), at.offset) {
        Ok(places) => references_of(alloc, desk, sight, at, places.as_slice(), with_declaration),
        Err(refusal) => Err(AskFault::from(refusal)),
    }
}

/// The place of a declaration, as it is told.
fn declared_told(alloc: Global, sight: Sight<'_>, place: Option<&Place>) -> Result<Value, AskFault>
    ensures { TellsLocation sight.entry.telling sight.entry.view.now.snapshot.files (option_copied place.entry) result }
{
    place_told(alloc, sight.telling, sight.files(), place)
}

/// The place of the declaration of the identifier at a byte.
pub(crate) fn definition<D: Desk>(
    alloc: Global,
    desk: &mut D,
    sight: Sight<'_>,
    at: &AskedByte,
) -> Result<Value, AskFault>
    requires { D.sees desk.old sight.view.now.snapshot.files }
    ensures told { TellsDefinition sight.entry.telling sight.entry.view.now.snapshot.files at.now result }
    ensures same { desk.new ≡ desk.old }
{
    match declaration_place(alloc, desk, sight.view, at) {
        Ok(place) => declared_told(alloc, sight, place.as_ref()),
        Err(refusal) => Err(AskFault::from(refusal)),
    }
}

/// The highlights of uses in the file of a byte.
fn highlights_told(
    alloc: Global,
    sight: Sight<'_>,
    at: &AskedByte,
    places: &[Place],
) -> Result<Value, AskFault>
    ensures { TellsHighlightsOf sight.entry.telling sight.entry.view.now.snapshot.files at.now places.now result }
{
    let told = highlights_of(alloc, sight.telling, sight.files(), at, places)?;
    Ok(told)
}

/// The identifiers in the same file that are bound to the declaration of the one at a byte.
pub(crate) fn highlights<D: Desk>(
    alloc: Global,
    desk: &mut D,
    sight: Sight<'_>,
    at: &AskedByte,
) -> Result<Value, AskFault>
    requires { D.sees desk.old sight.view.now.snapshot.files }
    ensures told { TellsHighlights sight.entry.telling sight.entry.view.now.snapshot.files at.now result }
    ensures same { desk.new ≡ desk.old }
{
    match find_uses(alloc, desk, sight.view, at.path.as_str(), at.offset) {
        Ok(places) => highlights_told(alloc, sight, at, places.as_slice()),
        Err(refusal) => Err(AskFault::from(refusal)),
    }
}
