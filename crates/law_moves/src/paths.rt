//! Laws of the paths of packages and files where a package moves.
ghost use Rattle.law_moves.specs.Moves.{PackagesStayApart, PackagePathsMove, PackageFilesMove};

/// A move gives no two packages one path.
pub fn packages_stay_apart()
    ensures { PackagesStayApart }
{}

/// The packages after the move are those of before at their moved paths. The files of each keep their order, at their new paths.
pub fn packages_move()
    ensures paths { PackagePathsMove }
    ensures files { PackageFilesMove }
{}
