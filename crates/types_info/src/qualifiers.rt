//! Finds the package that qualifies a name after a dot, as `p` does in `p.N`.
ghost use Rattle.std.specs.Prelude.{◌≡◌, ◌<◌, ◌↔◌, length, IsTrue, MatchOption};
ghost use Rattle.go_scope.specs.declared.model.Role.TheVariants.{NotLexical};
ghost use Rattle.go_scope.specs.declared.model.Purpose.TheVariants as purpose;
ghost use Rattle.types_declared.specs.PackageView.{package_of, IsIndexOf};
ghost use Rattle.types_info.specs.QualifiedIdentifiers.{IsQualifiedByPath, IsOnePath, IsQualifierFound};

use go_scope::model::{Purpose, Role};
use types_declared::{Index, Package};

/// Whether a role is that of a name after a dot.
fn is_selected(role: Role) -> bool
    ensures { IsTrue result ↔ (role ≡ NotLexical purpose.Selected) }
{
    match role {
        Role::NotLexical(Purpose::Selected) => true,
        _ => false,
    }
}

/// The declaration to which the name before the dot is bound, as `x` in `x.u`; `u` is a name after a dot.
fn name_qualifier(pkg: Package<'_>, index: &Index<'_>, u: usize) -> Option<usize>
    requires index { IsIndexOf (package_of pkg) index.now }
    requires in_range { u < length pkg.table.now.sites }
    requires selected { (package_of pkg).layout.role u ≡ NotLexical purpose.Selected }
    ensures before { IsQualifierFound (package_of pkg.entry) u result }
    ensures in_range { MatchOption result (Unit {0}) (λ d. d < length pkg.entry.table.now.sites) }
{
    let at = pkg.table.place(u);
    if at.index < 2 {
        None
    } else {
        index.binding(pkg, at.file, at.index - 2)
    }
}

/// The declaration to which the name before the dot is bound, as `x` in `x.u`; none where `u` is no name after a dot.
pub(crate) fn qualifier_of_name(pkg: Package<'_>, index: &Index<'_>, u: usize) -> Option<usize>
    requires index { IsIndexOf (package_of pkg) index.now }
    requires in_range { u < length pkg.table.now.sites }
    ensures before { IsQualifierFound (package_of pkg.entry) u result }
    ensures in_range { MatchOption result (Unit {0}) (λ d. d < length pkg.entry.table.now.sites) }
{
    if is_selected(pkg.table.role(u)) {
        name_qualifier(pkg, index, u)
    } else {
        None
    }
}

/// The path of the package that qualifies `u`, as `p` does in `p.u`; none where no package does.
pub fn qualifying_path<'a>(pkg: Package<'_>, index: &'a Index<'_>, u: usize) -> Option<&'a [u8]>
    requires index { IsIndexOf (package_of pkg) index.now }
    requires in_range { u < length pkg.table.now.sites }
    ensures { IsOnePath (IsQualifiedByPath (package_of pkg.entry) u) result }
{
    match qualifier_of_name(pkg, index, u) {
        None => None,
        Some(d) => index.path(pkg, d),
    }
}
