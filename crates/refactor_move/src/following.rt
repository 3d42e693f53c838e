//! Whether the name of a package follows its path.
ghost use Rattle.std.specs.Prelude.{◌≡◌, ◌<◌, ◌↔◌, IsTrue, IfOk, map};
ghost use Rattle.go_ast.specs.SourceFile.{source_of};
ghost use Rattle.types_declared.specs.Files.{package_name};
ghost use Rattle.refs_binding.specs.Uses.{IsCheckedPackage};
ghost use Rattle.refs_binding.specs.Workspaces.{known_in};
ghost use Rattle.refs_binding.specs.DeclaringPlaces.{InPackage};
ghost use Rattle.refactor_rename.specs.NewName.{IsNewName, IsReserved};
ghost use Rattle.refactor_move.specs.Paths.{last_of};
ghost use Rattle.refactor_move.specs.Following.{Follows, IsFollowingName};
ghost use Rattle.refactor_move.specs.Steps.{MayFollowPath};

use base_files::{FileText, Path};
use go_ast::FileTree;
use refactor_rename::is_new_name;
use refs_binding::{FaultlessWorkspace, trees};
use std::alloc::{AllocError, Global};
use types_declared::clause_name;

/// The last element of a path.
fn last_of(path: &str) -> &str
    ensures { result.now ≡ last_of path.now }
{
    match path.rsplit_once('/') {
        None => path,
        Some((_, last)) => last,
    }
}

/// Whether a name is legal for a package.
fn is_package_name(name: &str) -> bool
    ensures { IsTrue result ↔ (IsNewName name.now × ¬ (IsReserved name.now)) }
{
    name != "init" && name != "main" && is_new_name(name)
}

/// Whether the name of a package that is called `last` can follow its path and become `name`.
fn may_follow(last: &str, name: &str) -> bool
    ensures { IsTrue result ↔ MayFollowPath last.now name.now }
{
    last != "main" && name != last && is_package_name(name)
}

/// The name of the package with these files.
fn name_of(files: &[FileTree]) -> &[u8]
    ensures { result.now ≡ package_name (map source_of files.now) }
{
    match files.first() {
        None => &[],
        Some(file) => clause_name(file),
    }
}

/// Whether this is the name of the package with these files.
fn is_called(files: &[FileTree], name: &str) -> bool
    ensures { IsTrue result ↔ (package_name (map source_of files.now) ≡ name.now) }
{
    name_of(files) == name.as_bytes()
}

/// Whether the name of the package at a path is the last element of that path.
fn is_called_so(workspace: &FaultlessWorkspace<'_>, from: &Path) -> bool
    ensures { IsTrue result ↔ InPackage (IsCheckedPackage workspace.now.graph (known_in workspace.now.findings)) from.now (λ p. package_name p.files ≡ last_of from.now) }
{
    workspace.has_no_faults();
    match workspace.number_of(from.as_str().as_bytes()) {
        None => false,
        Some(number) => is_called(trees(workspace, number), last_of(from.as_str())),
    }
}

/// Whether the name of a package follows its path.
fn follows(workspace: &FaultlessWorkspace<'_>, from: &Path, to: &Path) -> bool
    ensures { IsTrue result ↔ Follows (IsCheckedPackage workspace.now.graph (known_in workspace.now.findings)) from.now to.now }
{
    let last = last_of(from.as_str());
    let name = last_of(to.as_str());
    may_follow(last, name) && is_called_so(workspace, from)
}

/// The new name of a package whose path changes, or `None` where it keeps its name.
pub fn name_after(
    alloc: Global,
    workspace: &FaultlessWorkspace<'_>,
    from: &Path,
    to: &Path,
) -> Result<Option<FileText>, AllocError>
    ensures { IfOk result (IsFollowingName (IsCheckedPackage workspace.now.graph (known_in workspace.now.findings)) from.now to.now) }
{
    if follows(workspace, from, to) {
        let name = Vec::from_slice(alloc, last_of(to.as_str()).as_bytes())?;
        Ok(Some(FileText::new(alloc, name)?))
    } else {
        Ok(None)
    }
}
