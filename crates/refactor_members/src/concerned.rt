//! Decides which packages and type definitions a rename can concern, so that the others aren't judged: a use of a member is at stake only if it
//! has the new name, or the name of the renamed members.
ghost use Rattle.std.specs.Prelude.{ℕ, ◌≡◌, ◌↔◌, Contains, IsTrue, None, Some, false, length, map, slice_get};
ghost use Rattle.go_ast.specs.SourceFile.{source_of, spelling_of};
ghost use Rattle.types_expr.specs.Found.{use_of};
ghost use Rattle.types_expr.specs.Judge.{MemberUse as Use};
ghost use Rattle.types_expr.specs.WorldView.{definition_of};
ghost use Rattle.refactor_members.specs.Judging.{AreUncalled, IsUncalled};
ghost use Rattle.refactor_members.specs.declared.member_rename.RenamedMember.{RenamedMember};

use crate::member_rename::MemberRename;
use crate::ranks::is_rank;
use go_ast::FileTree;
use types_expr::found::MemberUse;
use types_expr::world::Definition;

/// Whether a token of a file is spelled so.
fn is_spelled(file: &FileTree, token: usize, name: &[u8]) -> bool
    ensures { IsTrue result ↔ (spelling_of (source_of file.now) token ≡ name.now) }
{
    file.spelling(token) == name
}

/// Whether a use of a member in a file has a name.
fn has_name(file: &FileTree, uses: &[MemberUse], name: &[u8]) -> bool
    ensures { result ≡ false → (k : ℕ) → (x : Use) → slice_get (map use_of uses.now) k ≡ Some x → spelling_of (source_of file.now) x.place ≡ name.now → ⊥ }
{
    for k in 0..uses.len() {
        if is_spelled(file, uses[k].place, name) {
            return true;
        }
    }
    false
}

/// Whether a use of a member in a file may have the new name, or the name of the renamed members.
fn concerns_file(m: &MemberRename<'_>, file: &FileTree, uses: &[MemberUse]) -> bool
    ensures { result ≡ false → (k : ℕ) → (x : Use) → slice_get (map use_of uses.now) k ≡ Some x → IsUncalled m.now (Some (source_of file.now)) x.place }
{
    match m.called {
        None => true,
        Some(called) => has_name(file, uses, called) || has_name(file, uses, m.name),
    }
}

/// Whether a use of a member in a file of a package may have the new name, or the name of the renamed members.
pub(crate) fn concerns_at(
    m: &MemberRename<'_>,
    files: &[FileTree],
    file: usize,
    uses: &[MemberUse],
) -> bool
    ensures { result ≡ false → (k : ℕ) → (x : Use) → slice_get (map use_of uses.now) k ≡ Some x →
        IsUncalled m.now (slice_get (map source_of files.now) file) x.place }
{
    match files.get(file) {
        None => true,
        Some(tree) => concerns_file(m, tree, uses),
    }
}

/// Whether a use of a member in a package may have the new name, or the name of the renamed members.
pub(crate) fn concerns(m: &MemberRename<'_>, files: &[FileTree], members: &[Vec<MemberUse>]) -> bool
    ensures { result ≡ false → AreUncalled m.now (map source_of files.now) (length members.now) members.now }
{
    for file in 0..members.len() {
        if concerns_at(m, files, file, &members[file]) {
            return true;
        }
    }
    false
}

/// Whether one of the renamed members may be that of the type definition of a rank.
fn has_renamed(m: &MemberRename<'_>, rank: usize) -> bool
    ensures { result ≡ false → (x : RenamedMember) → Contains m.now.members.now x → x.definition ≡ Some rank → ⊥ }
{
    for member in m.members {
        if is_rank(member.definition, rank) {
            return true;
        }
    }
    false
}

/// Whether the type definition of a rank has a field or method of the new name, or may have a renamed member.
pub(crate) fn concerns_definition(
    m: &MemberRename<'_>,
    definition: &Definition,
    rank: usize,
) -> bool
    ensures field { result ≡ false → (definition_of definition.now).field m.now.name.now ≡ None }
    ensures method { result ≡ false → (definition_of definition.now).method m.now.name.now ≡ None }
    ensures other { result ≡ false → (x : RenamedMember) → Contains m.now.members.now x → x.definition ≡ Some rank → ⊥ }
{
    definition.fields.contains_key(m.name)
        || definition.methods.contains_key(m.name)
        || has_renamed(m, rank)
}
