//! Laws: a declaration has at most one meaning, and a file at most one world.
ghost use Rattle.std.specs.Prelude.{map};
ghost use Rattle.go_ast.specs.SourceFile.{source_of};
ghost use Rattle.types_info.specs.Uniqueness.{TokensRise, HasOneMeaning, HasOneWorld};
ghost use Rattle.types_declared.specs.PackageView.{package_of};

use go_ast::FileTree;
use types_declared::Package;

/// The tokens in the trees of parsed files are in order.
fn are_in_order(files: &[FileTree])
    ensures { TokensRise (map source_of files.now) }
{
    for rank in 0..files.len() {
        let _tree = files[rank].file();
    }
}

/// A declaration has at most one meaning.
pub fn has_one_meaning(pkg: Package<'_>)
    ensures { HasOneMeaning (package_of pkg.entry) }
{
    pkg.table.is_well_formed();
    are_in_order(pkg.files);
}

/// A file has at most one world.
pub fn has_one_world(pkg: Package<'_>)
    ensures { HasOneWorld (package_of pkg.entry) }
{
    pkg.table.is_well_formed();
    are_in_order(pkg.files);
}
