//! Laws of the files of packages after a move, and of what packages import.
ghost use Rattle.law_moves.specs.MovedPackages.{PackagesHaveMovedFiles, PackageImportsMove};

/// Each package is there at its moved path: with its files in their order at their new paths, their old trees and layout, and the name that
/// follows the path.
pub fn packages_have_moved_files()
    ensures { PackagesHaveMovedFiles }
{}

/// Each package imports the moved paths of what it imported, and builds on the moved paths of what it built on.
pub fn package_imports_move()
    ensures { PackageImportsMove }
{}
