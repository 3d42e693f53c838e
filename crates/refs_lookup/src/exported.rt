//! Finds the declaration that a package exports under a name.
ghost use Rattle.std.specs.Prelude.{ℕ, ◌≡◌, ◌<◌, ◌↔◌, Some, length, IsTrue, MatchOption};
ghost use Rattle.types_check.specs.Exports.{DoesExport};
ghost use Rattle.types_declared.specs.PackageView.{package_of};

use types_check::is_seen;
use types_declared::Package;

/// Whether the identifier `u` has this name.
pub fn has_name(unit: Package<'_>, u: usize, name: &[u8]) -> bool
    requires { u < length unit.table.now.sites }
    ensures { IsTrue result ↔ ((package_of unit.entry).names u ≡ name.now) }
{
    unit.table.name(u) == name
}

/// Whether the package exports its declaration `d` under this name.
fn is_exported_as(unit: Package<'_>, d: usize, name: &[u8]) -> bool
    requires { d < length unit.table.now.sites }
    ensures { let p = package_of unit.entry in
        IsTrue result ↔ (DoesExport p d × (p.names d ≡ name.now)) }
{
    has_name(unit, d, name) && is_seen(unit, d)
}

/// Returns the number of the declaration that a package exports under a name.
pub fn exported_as(unit: Package<'_>, name: &[u8]) -> Option<usize>
    ensures { let p = package_of unit.entry in
        MatchOption result ((d : ℕ) → DoesExport p d → p.names d ≡ name.now → ⊥) (λ d. DoesExport p d × (p.names d ≡ name.now)) }
{
    for d in 0..unit.table.len() {
        if is_exported_as(unit, d, name) {
            return Some(d);
        }
    }
    None
}
