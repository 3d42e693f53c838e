//! Collects the identifiers of a package from the syntax trees of its files.
ghost use Rattle.std.specs.Prelude.{◌≡◌, ◌∷◌, [], OnOk, IfOk, map};
ghost use Rattle.go_scope.specs.FileSites.{universe, universe_site, package_sites};
ghost use Rattle.go_scope.specs.IdentifierViews.{AddsTo, site_of};
ghost use Rattle.go_scope.specs.SpelledFiles.{spelled_file};
ghost use Rattle.go_scope.specs.Packages.{scoped};
ghost use Rattle.go_scope.specs.Trees.{AreNumbered};

use crate::capacity::list_of_identifiers;
use crate::declarations::add_file;
use crate::identifiers::Identifiers;
use crate::model::{Block, Identifier, Position, Role};
use crate::source::RankedFile;
use go_ast::FileTree;
use std::alloc::{AllocError, Global};

/// Adds a predeclared name.
fn add_predeclared<'a>(found: &mut Vec<Identifier<'a>>, name: &'a [u8]) -> Result<(), AllocError>
    ensures { OnOk result (AddsTo found.old.items found.new.items (universe_site name.now ∷ [])) }
{
    let place = Position { file: 0, index: 0 };
    let role = Role::Implied(Block::Universe, 0);
    found.push(Identifier { place, name, role })?;
    Ok(())
}

/// Adds the predeclared names.
fn add_universe(found: &mut Vec<Identifier<'_>>) -> Result<(), AllocError>
    ensures { OnOk result (AddsTo found.old.items found.new.items (map universe_site universe)) }
{
    add_predeclared(found, b"bool")?;
    add_predeclared(found, b"int")?;
    add_predeclared(found, b"string")?;
    add_predeclared(found, b"true")?;
    add_predeclared(found, b"false")?;
    add_predeclared(found, b"nil")?;
    add_predeclared(found, b"append")?;
    add_predeclared(found, b"len")?;
    add_predeclared(found, b"panic")?;
    add_predeclared(found, b"print")?;
    add_predeclared(found, b"println")
}

/// The identifiers of a package whose files are in the order of their paths.
fn identifiers_of<'a>(
    alloc: Global,
    files: &'a [FileTree],
) -> Result<Vec<Identifier<'a>>, AllocError>
    ensures sites { IfOk result (λ v. map site_of v.items ≡ package_sites (map spelled_file files.now)) }
    ensures numbered { IfOk result (λ v. AreNumbered (map spelled_file files.now)) }
{
    let mut found = list_of_identifiers(alloc, files)?;
    add_universe(&mut found)?;
    for rank in 0..files.len() {
        let tree = &files[rank];
        let source = RankedFile { rank, tree };
        add_file(&source, &mut found, tree.file())?;
    }
    Ok(found)
}

/// The identifiers of a package whose files are in the order of their paths, after the predeclared names.
pub fn declare<'a>(alloc: Global, files: &'a [FileTree]) -> Result<Identifiers<'a>, AllocError>
    ensures { IfOk result (λ identifiers. identifiers ≡ scoped files.now) }
{
    let list = identifiers_of(alloc, files)?;
    Ok(Identifiers::new(files, list))
}
