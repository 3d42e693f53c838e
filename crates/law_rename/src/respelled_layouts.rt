//! Laws of files whose tokens have other spellings under one and the same tree: identifiers, roles and layouts are kept.
ghost use Rattle.law_rename.specs.Respelled.{FileIsRespelled, PackageIsRespelled, LayoutStays};

/// A file keeps its identifiers with their positions and roles if it keeps which functions without a receiver are called `init`. Each
/// identifier gets the spelling of its token as its name.
pub fn file_is_respelled()
    ensures { FileIsRespelled }
{}

/// A package keeps its identifiers, with their positions and roles, and its predeclared names, if each of its files keeps its roles.
pub fn package_is_respelled()
    ensures { PackageIsRespelled }
{}

/// A package keeps its layout, with positions, roles, blocks and scopes, also where imports without a name declare their packages' names.
pub fn layout_stays()
    ensures { LayoutStays }
{}
