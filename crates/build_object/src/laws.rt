//! The laws of objects.
ghost use Rattle.build_object.specs.Laws.{HaveOneObject, HaveOneText, HaveFittingCode};

/// A package has at most one object, and at most one text of it.
pub fn objects_are_unique()
    ensures object { HaveOneObject }
    ensures text { HaveOneText }
{}

/// In each function of an object each jump leads to one of its lines, and each parameter or local has one of its slots.
pub fn code_stays_in_its_function()
    ensures { HaveFittingCode }
{}
