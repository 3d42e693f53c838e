//! The law of imports without a name.
ghost use Rattle.law_gained_names.specs.BareImports.{BareImportsDeclare};

/// An import without a name has a spec in its file, and a path. It declares the name of the package there, which is an identifier.
pub fn bare_imports_declare()
    ensures { BareImportsDeclare }
{}
