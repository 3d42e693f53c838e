//! Laws of two packages of one layout with the same bindings.
ghost use Rattle.law_changed_types.specs.SameBindings.{TypesAreDotted, TokensStay, TypesStay, BrokenStay, UnderlyingStay, MeaningsStay, NamesStay};
ghost use Rattle.law_changed_types.specs.SameBindings.{WorldsBindAlike};

/// In a package of parsed files the name of each qualified type follows a dot.
pub fn types_are_dotted()
    ensures { TypesAreDotted }
{}

/// The name at a token is bound to one and the same declaration.
pub fn tokens_stay()
    ensures { TokensStay }
{}

/// Type expressions name the same types.
pub fn types_stay()
    ensures { TypesStay }
{}

/// The same definitions are broken.
pub fn broken_definitions_stay()
    ensures { BrokenStay }
{}

/// Types have the same underlying types.
pub fn underlying_types_stay()
    ensures { UnderlyingStay }
{}

/// Declarations have the same meanings.
pub fn meanings_stay()
    ensures { MeaningsStay }
{}

/// The names of a file have the same meanings.
pub fn names_stay()
    ensures { NamesStay }
{}

/// The worlds of a file bind its tokens alike, and have the same underlying types.
pub fn worlds_bind_alike()
    ensures { WorldsBindAlike }
{}
