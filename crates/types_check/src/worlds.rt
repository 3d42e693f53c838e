//! Makes the world that a file is checked in: the meanings of its names, and the type definitions.
ghost use Rattle.std.specs.Prelude.{◌≡◌, Some, slice_get};
ghost use Rattle.go_ast.specs.SourceFile.{SourceFile};
ghost use Rattle.types_expr.specs.WorldView.{world_of};
ghost use Rattle.types_stmt.specs.View.{is_init_in};
ghost use Rattle.types_info.specs.DefinitionsView.{HaveDefinitions};
ghost use Rattle.types_info.specs.Worlds.{IsWorldOf, is_init};
ghost use Rattle.types_info.specs.NamesView.{AreNames};
ghost use Rattle.types_declared.specs.PackageView.{package_of};

use types_declared::Package;
use types_expr::world::{Bound, Definition, Name, World};

/// The world that a file is checked in.
pub fn file_world<'w>(
    pkg: Package<'w>,
    names: &'w [Name<'w>],
    bounds: &'w [Bound],
    definitions: &'w [Definition],
    file: usize,
) -> World<'w>
    requires names { AreNames (package_of pkg) file bounds.now names.now }
    requires definitions { HaveDefinitions (package_of pkg) definitions.now }
    ensures world { (s : SourceFile) → slice_get (package_of pkg.entry).files file ≡ Some s → IsWorldOf (package_of pkg.entry) file s (world_of result) }
    ensures init { (s : SourceFile) → slice_get (package_of pkg.entry).files file ≡ Some s → is_init_in result ≡ is_init s }
{
    World {
        package: pkg.path,
        names,
        bounds,
        own: definitions,
        imported: pkg.export_table.definitions(),
    }
}
