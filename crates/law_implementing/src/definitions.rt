//! The type definitions of a workspace without faults, before and after a plain rename.
ghost use Rattle.law_implementing.specs.Definitions.{DefinitionsAreGiven, EditedDefinitionsAreAfter, TypesBecomeThemselves};
ghost use Rattle.law_implementing.specs.MembersCalled.{LookupsAreAfter, NamesAreFreed, TurnsAreTold};

/// One function gives each type definition.
pub fn definitions_are_given()
    ensures { DefinitionsAreGiven }
{}

/// A rename that preserves bindings leaves each type definition, with new names of its members.
pub fn definitions_stay()
    ensures after { EditedDefinitionsAreAfter }
    ensures types { TypesBecomeThemselves }
{}

/// The definitions after a rename of members are found by lookups under its two names. So are the places at which the types that implement an
/// interface change.
pub fn lookups_are_after()
    ensures after { LookupsAreAfter }
    ensures free { NamesAreFreed }
    ensures turns { TurnsAreTold }
{}
