//! Laws of the lines of an object.
ghost use Rattle.law_faultless.specs.Lines.{ObjectsHaveLines, TextsHaveLines};

/// In a workspace without faults each type definition, package-level variable and function of a package has its line in the object. They are
/// in the order of the definitions. No type is left out of them, and each has a name.
pub fn each_definition_has_its_line()
    ensures objects { ObjectsHaveLines }
    ensures texts { TextsHaveLines }
{}
