//! The law of the texts of objects in which a declaration gets another name.
ghost use Rattle.law_objects.specs.Legible.{LegibleTextsFollow};

/// A text of an object whose names are legible gets a new name exactly where the object has the old one.
pub fn legible_texts_follow()
    ensures { LegibleTextsFollow }
{}
