//! Decides which packages may use a declaration, by their imports and by the names of the members that they use.
ghost use Rattle.std.specs.Prelude.{ℕ, ◌≡◌, ◌≢◌, ◌<◌, ◌↔◌, Some, [], true, false, List, Contains, length, map, slice_get, IfOk, IsTrue};
ghost use Rattle.base_files.specs.declared.place.Place.{Place};
ghost use Rattle.base_files.specs.Packages.{package_paths};
ghost use Rattle.go_ast.specs.SourceFile.{source_of};
ghost use Rattle.go_scope.specs.Named.{name_value};
ghost use Rattle.workspace_graph.specs.Graphs.{OfPackage};
ghost use Rattle.workspace_graph.specs.Packages.{PackageImports};
ghost use Rattle.workspace_graph.specs.Reaching.{MarksClosuresWith};
ghost use Rattle.types_expr.specs.declared.found.MemberUse.{MemberUse as FoundUse};
ghost use Rattle.types_declared.specs.Laid.{is_exported};
ghost use Rattle.types_declared.specs.Package.{Package as Checked, spelled, spelled_at};
ghost use Rattle.refs_binding.specs.declared.declaration.Declaration.{Declaration as Bound};
ghost use Rattle.refs_binding.specs.Binding.{UsesMemberAt};
ghost use Rattle.refs_binding.specs.Members.{uses_or_none};
ghost use Rattle.refs_uses.specs.Importing.{AreImporting};
ghost use Rattle.refs_uses.specs.MemberNames.{IsNameFound};
ghost use Rattle.refs_binding.specs.Workspaces.{IsPackageAt, known_in, home_path, IsHome, IsUseAt};

use crate::qualified_abroad::is_spelled;
use go_ast::FileTree;
use go_scope::model::Position;
use refs_binding::{Declaration, FaultlessWorkspace, members_of, trees};
use std::alloc::{AllocError, Global};
use types_declared::is_exported;
use types_expr::found::MemberUse;
use workspace_check::is_marked;
use workspace_graph::is_among;

/// A declaration whose uses are listed. `name` is the name under which it is exported, and `home` is the number of its package, if it has
/// them. `member` is its name if it is a field or method. `importing` marks its package and those that import it, directly or indirectly.
#[derive(Clone, Copy)]
pub struct Sought<'a> {
    pub declaration: &'a Declaration,
    pub name: Option<&'a [u8]>,
    pub member: Option<&'a [u8]>,
    pub home: Option<usize>,
    pub importing: &'a [bool],
}

/// Marks the package of a number and the packages that import it, directly or indirectly.
fn importing_number(
    alloc: Global,
    workspace: &FaultlessWorkspace<'_>,
    number: usize,
) -> Result<Vec<bool>, AllocError>
    ensures { IfOk result (λ marks. OfPackage workspace.now.graph number (λ q. MarksClosuresWith workspace.now.graph q marks.items)) }
{
    if number < workspace.len() {
        workspace.graph.importing(alloc, number)
    } else {
        Ok(Vec::new(alloc))
    }
}

/// Marks the package `home` and the packages that import it, directly or indirectly. Without `home` there are no marks.
pub(crate) fn importing_home(
    alloc: Global,
    workspace: &FaultlessWorkspace<'_>,
    home: Option<usize>,
) -> Result<Vec<bool>, AllocError>
    ensures { IfOk result (λ marks. AreImporting workspace.now.graph home marks.items) }
{
    match home {
        None => Ok(Vec::new(alloc)),
        Some(number) => importing_number(alloc, workspace, number),
    }
}

/// Whether a package imports another one directly.
fn imports(workspace: &FaultlessWorkspace<'_>, number: usize, other: usize) -> bool
    requires { number < length (package_paths workspace.now.graph) }
    ensures { OfPackage workspace.now.graph number (λ p. OfPackage workspace.now.graph other (λ q. IsTrue result ↔ PackageImports workspace.now.graph p q)) }
{
    is_among(workspace.imports(number), other)
}

/// Whether some file uses a member.
fn uses_members(members: &[Vec<MemberUse>]) -> bool
    ensures { result ≡ false → (file : ℕ) → uses_or_none (slice_get members.now file) ≡ [] }
{
    for uses in members {
        if !uses.is_empty() {
            return true;
        }
    }
    false
}

/// Whether one of the uses of members in a file is spelled so.
fn is_one_spelled(files: &[FileTree], file: usize, uses: &[MemberUse], name: &[u8]) -> bool
    ensures { result ≡ false → (u : FoundUse) → Contains uses.now u → spelled_at (slice_get (map source_of files.now) file) u.place ≡ name.now → ⊥ }
{
    for member in uses {
        let at = Position {
            file,
            index: member.place,
        };
        if is_spelled(files, at, name) {
            return true;
        }
    }
    false
}

/// Whether one of the uses of members in all files is spelled so.
fn is_any_spelled(files: &[FileTree], members: &[Vec<MemberUse>], name: &[u8]) -> bool
    ensures { result ≡ false → (file : ℕ) (u : FoundUse) → Contains (uses_or_none (slice_get members.now file)) u →
        spelled_at (slice_get (map source_of files.now) file) u.place ≡ name.now → ⊥ }
{
    for file in 0..members.len() {
        if is_one_spelled(files, file, &members[file], name) {
            return true;
        }
    }
    false
}

/// Whether the package `number` has a use of a member that may have this name. With no name, each use of a member may.
pub(crate) fn uses_name(
    workspace: &FaultlessWorkspace<'_>,
    number: usize,
    member: Option<&[u8]>,
) -> bool
    requires in_range { number < length (package_paths workspace.now.graph) }
    ensures { (p : Checked) → IsPackageAt workspace.now.graph (known_in workspace.now.findings) number p → (file token : ℕ) (d : Bound) → UsesMemberAt p file token d →
        ((name : List ℕ) → name_value member.entry ≡ Some name → spelled p file token ≡ name) → IsTrue result }
{
    workspace.has_no_faults();
    let uses = members_of(workspace, number);
    match member {
        None => uses_members(uses),
        Some(name) => is_any_spelled(trees(workspace, number), uses, name),
    }
}

/// Whether a name may be that of an exported member. With no name, it may.
fn may_be_exported(member: Option<&[u8]>) -> bool
    ensures { ((name : List ℕ) → name_value member.entry ≡ Some name → is_exported name ≡ true) → IsTrue result }
{
    match member {
        None => true,
        Some(name) => is_exported(name),
    }
}

/// Whether the package `number` has a use of a member that may have this exported name. With no name, each use of a member may.
fn may_name(workspace: &FaultlessWorkspace<'_>, number: usize, member: Option<&[u8]>) -> bool
    requires in_range { number < length (package_paths workspace.now.graph) }
    ensures { (p : Checked) → IsPackageAt workspace.now.graph (known_in workspace.now.findings) number p → (file token : ℕ) (d : Bound) → UsesMemberAt p file token d →
        ((name : List ℕ) → name_value member.entry ≡ Some name → (spelled p file token ≡ name) × (is_exported name ≡ true)) → IsTrue result }
{
    may_be_exported(member) && uses_name(workspace, number, member)
}

/// Whether the package `number` may use a member of another package, `home`: it must import `home`, directly or indirectly, and use a
/// member of that name, which must be exported.
fn may_use_member(
    workspace: &FaultlessWorkspace<'_>,
    number: usize,
    home: usize,
    sought: &Sought<'_>,
) -> bool
    requires in_range { number < length (package_paths workspace.now.graph) }
    requires home { slice_get (package_paths workspace.now.graph) home ≡ home_path sought.now.declaration.now }
    requires other { home ≢ number }
    requires named { IsNameFound workspace.now.graph (known_in workspace.now.findings) sought.now.declaration.now (name_value sought.now.member) }
    requires importing { OfPackage workspace.now.graph home (λ q. MarksClosuresWith workspace.now.graph q sought.now.importing.now) }
    ensures { (p : Checked) → IsPackageAt workspace.now.graph (known_in workspace.now.findings) number p → (file token : ℕ) → UsesMemberAt p file token sought.now.declaration.now → IsTrue result }
{
    workspace.has_no_faults();
    is_marked(sought.importing, number) && may_name(workspace, number, sought.member)
}

/// Whether the package `number` may use a declaration of another package, `home`.
fn may_use_other(
    workspace: &FaultlessWorkspace<'_>,
    number: usize,
    home: usize,
    sought: &Sought<'_>,
) -> bool
    requires in_range { number < length (package_paths workspace.now.graph) }
    requires home { slice_get (package_paths workspace.now.graph) home ≡ home_path sought.now.declaration.now }
    requires other { home ≢ number }
    requires named { IsNameFound workspace.now.graph (known_in workspace.now.findings) sought.now.declaration.now (name_value sought.now.member) }
    requires importing { OfPackage workspace.now.graph home (λ q. MarksClosuresWith workspace.now.graph q sought.now.importing.now) }
    ensures { (place : Place) → IsUseAt workspace.now.graph (known_in workspace.now.findings) sought.now.declaration.now (name_value sought.now.name) number place → IsTrue result }
{
    match sought.declaration {
        Declaration::Predeclared(_) => true,
        Declaration::Declared(_, _) => sought.name.is_some() && imports(workspace, number, home),
        Declaration::Field(_) => may_use_member(workspace, number, home, sought),
        Declaration::Method(_) => may_use_member(workspace, number, home, sought),
    }
}

/// Returns the number of the package of a declaration, if it has one.
pub(crate) fn home_of(
    workspace: &FaultlessWorkspace<'_>,
    declaration: &Declaration,
) -> Option<usize>
    ensures { IsHome workspace.now.graph declaration.now result }
{
    match declaration {
        Declaration::Predeclared(_) => None,
        Declaration::Declared(path, _) => workspace.number_of(path.path()),
        Declaration::Field(symbol) => workspace.number_of(symbol.package.path()),
        Declaration::Method(symbol) => workspace.number_of(symbol.package.path()),
    }
}

/// Whether an identifier of the package `number` may be bound to a declaration.
pub(crate) fn may_use(
    workspace: &FaultlessWorkspace<'_>,
    number: usize,
    sought: &Sought<'_>,
) -> bool
    requires in_range { number < length (package_paths workspace.now.graph) }
    requires home { IsHome workspace.now.graph sought.now.declaration.now sought.now.home }
    requires named { IsNameFound workspace.now.graph (known_in workspace.now.findings) sought.now.declaration.now (name_value sought.now.member) }
    requires importing { AreImporting workspace.now.graph sought.now.home sought.now.importing.now }
    ensures { (place : Place) → IsUseAt workspace.now.graph (known_in workspace.now.findings) sought.now.declaration.now (name_value sought.now.name) number place → IsTrue result }
{
    match sought.home {
        None => true,
        Some(home) => home == number || may_use_other(workspace, number, home, sought),
    }
}
