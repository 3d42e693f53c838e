//! Laws of objects with other names.
ghost use Rattle.law_objects.specs.SourcesBy.{SourcesGiveObjects};

/// Sources with other names give the object with these names.
pub fn sources_give_objects()
    ensures { SourcesGiveObjects }
{}
