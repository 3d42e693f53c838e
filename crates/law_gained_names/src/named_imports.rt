//! The law of a package in which an import without a name gets the name that it declares already.
ghost use Rattle.law_gained_names.specs.NamedPackage.{ImportsKeepPaths, NamedPackagesAreRenumbered};

/// The package in which the import has its name is the old one with the new numbers of tokens and identifiers.
pub fn named_packages_are_renumbered()
    ensures { NamedPackagesAreRenumbered }
{}

/// Imports keep their paths, where string literals keep their values and are where imports expect them.
pub fn imports_keep_paths()
    ensures { ImportsKeepPaths }
{}
