//! Finds the faults of qualified identifiers `p.N`: `N` is not exported, or the package doesn't declare it.
ghost use Rattle.std.specs.Prelude.{ℕ, ◌≡◌, ◌<◌, ◌↔◌, IsTrue, OnOk, MatchOption, map};
ghost use Rattle.types_declared.specs.Listing.{AddsFaults};
ghost use Rattle.go_ast.specs.SourceFile.{source_of};
ghost use Rattle.go_scope.specs.declared.model.Role.TheVariants.{NotLexical};
ghost use Rattle.go_scope.specs.declared.model.Purpose.TheVariants as purpose;
ghost use Rattle.types_resolve.specs.Scoping.{qualified_fault, IsQualifiedFault, IsUnknownFault};
ghost use Rattle.types_declared.specs.Laid.{laid_in, is_exported};
ghost use Rattle.types_resolve.specs.QualifiedParts.{IsFaultOfKind, IsUnknownOf, IsAfterDot, IsOfImport, IsQualifiedBy};

use crate::table::{binding, fault_at};
use base_files::FaultKind;
use go_ast::FileTree;
use go_scope::model::{Purpose, Role};
use go_scope::table::ScopeTable;
use std::alloc::{AllocError, Global};
use types_declared::{Exports, Fault, is_exported, is_import, path_of, push};

/// Whether a role is that of a name after a dot.
fn is_selected(role: Role) -> bool
    ensures { IsTrue result ↔ (role ≡ NotLexical purpose.Selected) }
{
    match role {
        Role::NotLexical(Purpose::Selected) => true,
        _ => false,
    }
}

/// Whether `u` is the name after the dot that follows the identifier `b`, as in `b.u`.
fn is_behind(table: &ScopeTable, b: usize, u: usize) -> bool
    requires before { b < (laid_in table.now).size }
    requires behind { u < (laid_in table.now).size }
    ensures { IsTrue result ↔ IsAfterDot (laid_in table.now) b u }
{
    let before = table.place(b);
    let at = table.place(u);
    is_selected(table.role(u))
        && at.file == before.file
        && 2 <= at.index
        && at.index - 2 == before.index
}

/// The import to which the identifier `b` is bound; none where it is bound to no import.
fn import_of(table: &ScopeTable, b: usize) -> Option<usize>
    requires { b < (laid_in table.now).size }
    ensures bound { MatchOption result ((d : ℕ) → IsOfImport (laid_in table.now) b d → ⊥) (λ d. IsOfImport (laid_in table.now) b d) }
    ensures in_range { MatchOption result (Unit {0}) (λ d. d < (laid_in table.now).size) }
{
    go_scope::laws::bindings_are_unique();
    table.is_well_formed();
    match binding(table, b) {
        Some(d) if d < table.len() && is_import(table, d) => Some(d),
        _ => None,
    }
}

/// The import that qualifies `u`, as `p` does in `p.u`; none where no import does.
fn qualifier_of(table: &ScopeTable, u: usize) -> Option<usize>
    requires { u < (laid_in table.now).size }
    ensures qualified { MatchOption result ((d : ℕ) → IsQualifiedBy (laid_in table.now) u d → ⊥) (λ d. IsQualifiedBy (laid_in table.now) u d) }
    ensures in_range { MatchOption result (Unit {0}) (λ d. d < (laid_in table.now).size) }
{
    if 0 < u && is_behind(table, u - 1, u) {
        import_of(table, u - 1)
    } else {
        None
    }
}

/// The kind of fault of a qualified identifier: the name isn't exported, or the package at `path` doesn't declare it.
fn qualified_fault<E: Exports>(exports: &E, path: &[u8], name: &[u8]) -> Option<FaultKind>
    ensures { result ≡ qualified_fault (is_exported name.now) (E.exported exports.now path.now name.now) }
{
    if !is_exported(name) {
        Some(FaultKind::Unexported)
    } else if !exports.exports(path, name) {
        Some(FaultKind::Undeclared)
    } else {
        None
    }
}

/// Adds a fault of this kind at `u`, if there is one.
fn add_kind(
    found: &mut Vec<Fault>,
    table: &ScopeTable,
    u: usize,
    kind: Option<FaultKind>,
) -> Result<(), AllocError>
    requires { u < (laid_in table.now).size }
    ensures { OnOk result (AddsFaults found.old.items found.new.items (IsFaultOfKind (laid_in table.now) u kind)) }
{
    match kind {
        None => Ok(()),
        Some(kind) => push(found, fault_at(table, u, kind)),
    }
}

/// The scope table of a package, with its files.
#[derive(Clone, Copy)]
struct Identified<'a> {
    table: &'a ScopeTable<'a>,
    files: &'a [FileTree],
}

/// Adds the fault of the name `u` qualified by an import, if any.
fn add_name<E: Exports>(
    alloc: Global,
    found: &mut Vec<Fault>,
    of: &Identified<'_>,
    exports: &E,
    import: usize,
    u: usize,
) -> Result<(), AllocError>
    requires import { import < (laid_in of.now.table.now).size }
    requires name { u < (laid_in of.now.table.now).size }
    ensures { OnOk result (AddsFaults found.old.items found.new.items (IsUnknownOf (map source_of of.now.files.now) (E.exported exports.now) (laid_in of.now.table.now) import u)) }
{
    go_scanner::laws::one_string_value();
    match path_of(alloc, of.table, of.files, import)? {
        None => Ok(()),
        Some(path) => {
            let kind = qualified_fault(exports, &path, of.table.name(u));
            add_kind(found, of.table, u, kind)
        }
    }
}

/// Adds the fault of `u`, if it is the name of a qualified identifier.
fn add_unknown<E: Exports>(
    alloc: Global,
    found: &mut Vec<Fault>,
    table: &ScopeTable,
    files: &[FileTree],
    exports: &E,
    u: usize,
) -> Result<(), AllocError>
    requires { u < (laid_in table.now).size }
    ensures { OnOk result (AddsFaults found.old.items found.new.items (IsQualifiedFault (map source_of files.now) (E.exported exports.now) (laid_in table.now) u)) }
{
    go_scope::laws::bindings_are_unique();
    table.is_well_formed();
    match qualifier_of(table, u) {
        None => Ok(()),
        Some(import) => {
            let of = Identified { table, files };
            add_name(alloc, found, &of, exports, import, u)
        }
    }
}

/// Adds the faults of a package's qualified identifiers.
pub(crate) fn add_unknowns<E: Exports>(
    alloc: Global,
    found: &mut Vec<Fault>,
    table: &ScopeTable,
    files: &[FileTree],
    exports: &E,
) -> Result<(), AllocError>
    ensures { OnOk result (AddsFaults found.old.items found.new.items (IsUnknownFault (map source_of files.now) (E.exported exports.now) (laid_in table.now))) }
{
    for u in 0..table.len() {
        add_unknown(alloc, found, table, files, exports, u)?;
    }
    Ok(())
}
