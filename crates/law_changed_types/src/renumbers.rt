//! The laws of judging where the tokens of a file get other numbers.
ghost use Rattle.law_changed_types.specs.Renumbers.{ExpressionsRenumber, FilesRenumber, StatementsRenumber};

/// What is found of an expression whose tokens got other numbers is what was found before, with the new numbers.
pub fn expressions_renumber()
    ensures { ExpressionsRenumber }
{}

/// What is found of a statement whose tokens got other numbers is what was found before, with the new numbers.
pub fn statements_renumber()
    ensures { StatementsRenumber }
{}

/// What is found of a file whose tokens got other numbers is what was found before, with the new numbers.
pub fn files_renumber()
    ensures { FilesRenumber }
{}
