//! Which of two declarations takes a use from the other, and which keeps the other from counting.
ghost use Rattle.std.specs.Prelude.{◌≡◌, ◌<◌, ◌↔◌, length, IsTrue};
ghost use Rattle.go_scope.specs.Bindings.{Displaces, InScope, IsLeftName, IsPackageLevel, IsImport};
ghost use Rattle.go_scope.specs.Packages.{layout_in};
ghost use Rattle.go_scope.specs.Table.{Precedes};

use go_scope::model::{Block, Scope};
use go_scope::table::ScopeTable;

/// Whether the position of the identifier `u` is in the scope of the declaration `d`.
pub(crate) fn in_scope(table: &ScopeTable<'_>, d: usize, u: usize) -> bool
    requires first { d < length table.now.sites }
    requires second { u < length table.now.sites }
    ensures { IsTrue result ↔ InScope (layout_in table.now) d u }
{
    let role = table.role(d);
    Scope::in_block(role.block(), role.start()).holds(table.place(u))
}

/// Whether the declaration `a` takes uses in both scopes from the declaration `b`, if both have one name.
pub(crate) fn precedes(table: &ScopeTable<'_>, a: usize, b: usize) -> bool
    requires first { a < length table.now.sites }
    requires second { b < length table.now.sites }
    ensures { IsTrue result ↔ Precedes (layout_in table.now) a b }
{
    let inner = table.role(a).block();
    let outer = table.role(b).block();
    (a < b && inner.same(outer)) || inner.nests(outer)
}

/// Whether `a` declares in the package block, and `b` in a file block.
fn takes_from_import(table: &ScopeTable<'_>, a: usize, b: usize) -> bool
    requires first { a < length table.now.sites }
    requires second { b < length table.now.sites }
    ensures { IsTrue result ↔ (IsPackageLevel (layout_in table.now) a × IsImport (layout_in table.now) b) }
{
    match (table.role(a).block(), table.role(b).block()) {
        (Block::Package, Block::File(_)) => true,
        _ => false,
    }
}

/// Whether the declaration `a` keeps the declaration `b` from counting, if both have one name.
pub(crate) fn displaces(table: &ScopeTable<'_>, a: usize, b: usize) -> bool
    requires first { a < length table.now.sites }
    requires second { b < length table.now.sites }
    ensures { IsTrue result ↔ Displaces (layout_in table.now) a b }
{
    (a < b && table.role(a).block().same(table.role(b).block())) || takes_from_import(table, a, b)
}

/// Whether the left name `x` of a `:=` would assign to the declaration `d` of its name, which is in its block.
pub(crate) fn assigns_to(table: &ScopeTable<'_>, d: usize, x: usize) -> bool
    requires first { d < length table.now.sites }
    requires second { x < length table.now.sites }
    ensures { IsTrue result ↔ (IsLeftName (layout_in table.now) x × InScope (layout_in table.now) d x) }
{
    table.role(x).is_left_name() && in_scope(table, d, x)
}
