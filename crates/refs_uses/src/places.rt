//! A list of places that contracts treat as a plain list.
ghost use Rattle.std.specs.Prelude.{◌≡◌};

use base_files::Place;
use std::marker::Model;

/// Places in files of a workspace.
#[derive(Drop)]
pub struct Places {
    items: Vec<Place>,
}

impl Model for Places {
    ghost use Rattle.std.specs.Prelude.{List};
    ghost use Rattle.base_files.specs.declared.place.Place.{Place};

    ghost Value = { List Place };

    ghost view = { λ a. a.items.items };
}

impl Places {
    /// Wraps a vector of places.
    pub fn new(items: Vec<Place>) -> Places
        ensures { result ≡ items.items }
    {
        Places { items }
    }

    /// The places as a slice.
    pub fn as_slice(&self) -> &[Place]
        ensures { result.now ≡ self.now }
    {
        self.items.as_slice()
    }
}
