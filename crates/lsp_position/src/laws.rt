//! Laws of positions and offsets.
ghost use Rattle.lsp_position.specs.Laws.{OffsetsKeepOrder, PlacesAreNamed, UnitsAreCounted};

/// The position of each place names this place, and no other.
pub fn places_are_named()
    ensures { PlacesAreNamed }
{}

/// A later position names no earlier offset.
pub fn offsets_keep_order()
    ensures { OffsetsKeepOrder }
{}

/// The units of a text are the code units of its characters.
pub fn units_are_counted()
    ensures { UnitsAreCounted }
{}
