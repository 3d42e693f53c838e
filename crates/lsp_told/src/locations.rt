//! Identifiers as ranges, locations and highlights.
ghost use Rattle.std.specs.Prelude.{◌≡◌, ◌++◌, IfOk, OnOk, map, option_map, string_bytes};
ghost use Rattle.std.specs.Option.{option_copied};
ghost use Rattle.serde_json.specs.View.{view};
ghost use Rattle.lsp_told.specs.Listed.{found_list};
ghost use Rattle.lsp_told.specs.Locations.{
  IsLocation,
  IsLocationUnless,
  ListsLocations,
  TellsLocation,
  highlight_at,
  highlights_at,
  highlights_in,
  is_place,
  name_from,
  place_range,
  prepared_at,
};

use crate::asked_byte::AskedByte;
use crate::fault::AskFault;
use base_files::{Files, Place};
use lsp_answers::{Between, highlight_value, location_value, prepared_value};
use lsp_edits::{Telling, file_bytes, identifier_at, identifier_range, uri_told};
use serde_json::Value;
use std::alloc::{AllocError, Global};

/// The range of the identifier at a place.
fn range_of(telling: Telling<'_>, files: &Files, place: &Place) -> Between
    ensures { result ≡ place_range telling.entry files.now place.now }
{
    let text = file_bytes(files, &place.path);
    identifier_range(telling.abilities.encoding, text, place.offset)
}

/// A place as a location.
fn location_of(
    alloc: Global,
    telling: Telling<'_>,
    files: &Files,
    place: &Place,
) -> Result<Value, AllocError>
    ensures { IfOk result (λ value. IsLocation telling.entry files.now place.now (view value)) }
{
    let uri = uri_told(alloc, telling, place.path.as_str())?;
    location_value(alloc, uri.as_str(), range_of(telling, files, place))
}

/// Whether a place is this one.
fn is_place(place: &Place, other: Option<&Place>) -> bool
    ensures { result ≡ is_place place.now (option_copied other.entry) }
{
    match other {
        Some(other) => {
            place.offset == other.offset && place.path.as_str() == other.path.as_str()
        }
        None => false,
    }
}

/// A place as a location, unless it is the one that is left out.
fn location_unless(
    alloc: Global,
    telling: Telling<'_>,
    files: &Files,
    left_out: Option<&Place>,
    place: &Place,
) -> Result<Option<Value>, AllocError>
    ensures { IfOk result (λ value. IsLocationUnless telling.entry files.now (option_copied left_out.entry) place.now (option_map view value)) }
{
    if is_place(place, left_out) {
        Ok(None)
    } else {
        Ok(Some(location_of(alloc, telling, files, place)?))
    }
}

/// Adds a value, if there is one.
fn push_found(values: &mut Vec<Value>, value: Option<Value>) -> Result<(), AllocError>
    ensures { OnOk result (map view values.new.items ≡ map view values.old.items ++ found_list (option_map view value)) }
{
    match value {
        Some(value) => {
            values.push(value)?;
            Ok(())
        }
        None => Ok(()),
    }
}

/// Places as locations, but for one that is left out.
pub fn locations_of(
    alloc: Global,
    telling: Telling<'_>,
    files: &Files,
    places: &[Place],
    left_out: Option<&Place>,
) -> Result<Value, AllocError>
    ensures { IfOk result (λ value. ListsLocations telling.entry files.now (option_copied left_out.entry) places.now (view value)) }
{
    let mut values = Vec::new(alloc);
    for place in places {
        let value = location_unless(alloc, telling, files, left_out, place)?;
        push_found(&mut values, value)?;
    }
    Ok(Value::Array(values))
}

/// A place as a location, or `null` where there is none.
pub fn place_told(
    alloc: Global,
    telling: Telling<'_>,
    files: &Files,
    place: Option<&Place>,
) -> Result<Value, AskFault>
    ensures { TellsLocation telling.entry files.now (option_copied place.entry) result }
{
    match place {
        Some(place) => Ok(location_of(alloc, telling, files, place)?),
        None => Ok(Value::Null),
    }
}

/// A place as a highlight.
fn highlight_of(
    alloc: Global,
    telling: Telling<'_>,
    files: &Files,
    place: &Place,
) -> Result<Value, AllocError>
    ensures { IfOk result (λ value. view value ≡ highlight_at telling.entry files.now place.now) }
{
    highlight_value(alloc, range_of(telling, files, place))
}

/// Adds the highlight of a place, if it lies in the file of a byte.
fn push_highlight(
    alloc: Global,
    told: (Telling<'_>, &Files),
    at: &AskedByte,
    place: &Place,
    values: &mut Vec<Value>,
) -> Result<(), AllocError>
    ensures { OnOk result (map view values.new.items ≡ map view values.old.items ++ highlights_at told.entry.0 told.entry.1.now at.now.path place.now) }
{
    if place.path.as_str() == at.path.as_str() {
        let value = highlight_of(alloc, told.0, told.1, place)?;
        values.push(value)?;
        Ok(())
    } else {
        Ok(())
    }
}

/// Highlights of the places that lie in the file of a byte.
pub fn highlights_of(
    alloc: Global,
    telling: Telling<'_>,
    files: &Files,
    at: &AskedByte,
    places: &[Place],
) -> Result<Value, AllocError>
    ensures { IfOk result (λ value. view value ≡ highlights_in telling.entry files.now at.now places.now) }
{
    let mut values = Vec::new(alloc);
    for place in places {
        push_highlight(alloc, (telling, files), at, place, &mut values)?;
    }
    Ok(Value::Array(values))
}

/// The name that begins at a byte.
pub fn name_from(alloc: Global, files: &Files, at: &AskedByte) -> Result<String, AllocError>
    ensures { IfOk result (λ name. string_bytes name ≡ name_from files.now at.now) }
{
    let text = file_bytes(files, &at.path);
    String::from_utf8_lossy(alloc, identifier_at(text, at.offset))
}

/// The range and the name of the identifier that begins at a byte.
pub fn prepared_at(
    alloc: Global,
    telling: Telling<'_>,
    files: &Files,
    at: &AskedByte,
) -> Result<Value, AllocError>
    ensures { IfOk result (λ value. view value ≡ prepared_at telling.entry files.now at.now) }
{
    let name = name_from(alloc, files, at)?;
    let text = file_bytes(files, &at.path);
    let range = identifier_range(telling.abilities.encoding, text, at.offset);
    prepared_value(alloc, range, name.as_str())
}
