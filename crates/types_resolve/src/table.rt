//! Questions about one identifier of a scope table, by its number.
ghost use Rattle.std.specs.Prelude.{ℕ, ◌≡◌, ◌<◌, ◌↔◌, IsTrue, MatchOption};
ghost use Rattle.go_scope.specs.Bindings.{IsUse, IsBoundTo, IsPackageLevel, Declares, Counts};
ghost use Rattle.types_resolve.specs.Scoping.{fault_at, IsRedeclaration};
ghost use Rattle.types_declared.specs.Laid.{laid_in, init_name};
ghost use Rattle.types_resolve.specs.StatementMarks.{DeclaresAt};

use base_files::FaultKind;
use go_scope::model::{Block, Position};
use go_scope::table::ScopeTable;
use types_declared::Fault;

/// A fault of this kind at the identifier `u`.
pub(crate) fn fault_at(table: &ScopeTable, u: usize, kind: FaultKind) -> Fault
    requires { u < (laid_in table.now).size }
    ensures { result ≡ fault_at (laid_in table.now).layout u kind }
{
    let place = table.place(u);
    Fault {
        file: place.file,
        token: place.index,
        kind,
    }
}

/// Whether `u` is a use that scopes resolve.
pub(crate) fn is_name_use(table: &ScopeTable, u: usize) -> bool
    requires { u < (laid_in table.now).size }
    ensures { IsTrue result ↔ IsUse (laid_in table.now).layout (laid_in table.now).names u }
{
    table.is_use(u)
}

/// The declaration to which `u` is bound; none where it is unbound.
pub(crate) fn binding(table: &ScopeTable, u: usize) -> Option<usize>
    requires { u < (laid_in table.now).size }
    ensures { let l = (laid_in table.now).layout in
        let names = (laid_in table.now).names in
        MatchOption result ((d : ℕ) → IsBoundTo l names u d → ⊥) (λ d. IsBoundTo l names u d) }
{
    table.binding(u)
}

/// Whether `u` is bound to no declaration.
fn is_unbound(table: &ScopeTable, u: usize) -> bool
    requires { u < (laid_in table.now).size }
    ensures { IsTrue result ↔ ((d : ℕ) → IsBoundTo (laid_in table.now).layout (laid_in table.now).names u d → ⊥) }
{
    match table.binding(u) {
        None => true,
        Some(_) => false,
    }
}

/// Whether `u` is a use that is bound to no declaration.
pub(crate) fn is_undeclared(table: &ScopeTable, u: usize) -> bool
    requires { u < (laid_in table.now).size }
    ensures { let l = (laid_in table.now).layout in
        let names = (laid_in table.now).names in
        IsTrue result ↔ (IsUse l names u × ((d : ℕ) → IsBoundTo l names u d → ⊥)) }
{
    table.is_use(u) && is_unbound(table, u)
}

/// Whether `u` redeclares a name that its block already declares.
fn is_displaced(table: &ScopeTable, u: usize) -> bool
    requires { u < (laid_in table.now).size }
    ensures { let l = (laid_in table.now).layout in
        let names = (laid_in table.now).names in
        IsTrue result ↔ (Declares l names u × (Counts l names u → ⊥)) }
{
    table.is_repeated(u)
}

/// Whether `u` is a package-level declaration named `init`.
fn is_init(table: &ScopeTable, u: usize) -> bool
    requires { u < (laid_in table.now).size }
    ensures { IsTrue result ↔ (IsPackageLevel (laid_in table.now).layout u × ((laid_in table.now).names u ≡ init_name)) }
{
    table.role(u).block().same(Block::Package) && table.name(u) == b"init".as_slice()
}

/// Whether `u` redeclares a name of its block, or is a package-level variable or type named `init`.
pub(crate) fn is_repetition(table: &ScopeTable, u: usize) -> bool
    requires { u < (laid_in table.now).size }
    ensures { IsTrue result ↔ IsRedeclaration (laid_in table.now) u }
{
    is_displaced(table, u) || is_init(table, u)
}

/// Whether the identifier at a token is a declaring one.
pub(crate) fn declares_at(table: &ScopeTable, file: usize, token: usize) -> bool
    ensures { IsTrue result ↔ DeclaresAt (laid_in table.now) file token }
{
    match table.identifier_at(Position { file, index: token }) {
        None => false,
        Some(u) => table.declares(u),
    }
}
