//! The laws of a package in which tokens and identifiers get other numbers.
ghost use Rattle.law_changed_types.specs.RenumberedPackage.{
  BrokenRenumber,
  DefinitionsRenumber,
  FoundRenumbers,
  MeaningsRenumber,
  NamesRenumber,
  TypesRenumber,
  UnderlyingRenumber,
};

/// Type expressions name the same types.
pub fn types_renumber()
    ensures { TypesRenumber }
{}

/// The same definitions are broken.
pub fn broken_renumber()
    ensures { BrokenRenumber }
{}

/// Types have the same underlying types.
pub fn underlying_renumber()
    ensures { UnderlyingRenumber }
{}

/// Declarations have the same meanings, locals those at their new tokens.
pub fn meanings_renumber()
    ensures { MeaningsRenumber }
{}

/// Definitions are the same.
pub fn definitions_renumber()
    ensures { DefinitionsRenumber }
{}

/// Names at tokens have the same meanings at their new tokens.
pub fn names_renumber()
    ensures { NamesRenumber }
{}

/// What judging finds of a file is what it found before, at the new tokens.
pub fn found_renumbers()
    ensures { FoundRenumbers }
{}
