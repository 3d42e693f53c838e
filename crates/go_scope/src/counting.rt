//! Finds which declarations count, and to which one each identifier is bound.
ghost use Rattle.std.specs.Prelude.{◌≡◌, ◌<◌, ◌↔◌, ◌⊎◌, ◌∷◌, [], true, length, IsTrue};
ghost use Rattle.go_scope.specs.Bindings.{Counts, IsUse, is_use, is_left_name, is_implied};
ghost use Rattle.go_scope.specs.Contents.{AreDeclared, IsBinding};
ghost use Rattle.go_scope.specs.Leading.{IsLead, IsDisplacedImport, IsDeclaredInPackage};
ghost use Rattle.go_scope.specs.WellFormed.{IsLaidOut};
ghost use Rattle.go_scope.specs.Numbering.{numerals};
ghost use Rattle.go_scope.specs.OpenBlocks.{AreNameLinks};
ghost use Rattle.go_scope.specs.Table.{layout_of};

use crate::declaring::DeclaredIn;
use crate::links::Links;
use crate::model::{Block, Identifier, Role};
use crate::nearest::binding;
use crate::numbering::number_at;
use crate::outer_blocks::{OuterBlock, first_outside};
use crate::resolve::role_at;

impl Role {
    /// Whether the role is a plain use.
    pub(crate) fn is_use(self) -> bool
        ensures { result ≡ is_use self }
    {
        match self {
            Role::Use => true,
            Role::Declaring(_, _)
            | Role::LeftName(_, _)
            | Role::Implied(_, _)
            | Role::NotLexical(_) => false,
        }
    }

    /// Whether an identifier of this role is a lexical use, given whether it declares.
    pub(crate) fn is_use_unless(self, declares: bool) -> bool
        ensures { IsTrue result ↔ (is_use self ≡ true) ⊎ ((is_left_name self ≡ true) × (IsTrue declares → ⊥)) }
    {
        self.is_use() || (self.is_left_name() && !declares)
    }

    /// Whether the role is that of a predeclared name.
    pub fn is_implied(self) -> bool
        ensures { result ≡ is_implied self }
    {
        match self {
            Role::Implied(_, _) => true,
            Role::Use | Role::Declaring(_, _) | Role::LeftName(_, _) | Role::NotLexical(_) => false,
        }
    }
}

/// Whether d is the first declaration of its name in its block.
fn leads(identifiers: &[Identifier], names: &[usize], declared: &DeclaredIn, d: usize) -> bool
    requires in_range { d < length identifiers.now }
    requires declared { AreDeclared identifiers.now names.now declared.now }
    ensures { IsTrue result ↔ IsLead (layout_of identifiers.now) (numerals names.now) d }
{
    declared.leading[d]
}

/// Whether d is an import whose name the package block declares too.
fn is_displaced_import(identifiers: &[Identifier], names: &[usize], links: &Links, d: usize) -> bool
    requires in_range { d < length identifiers.now }
    requires linked { AreNameLinks identifiers.now names.now (length identifiers.now) links.now }
    ensures { IsTrue result ↔ IsDisplacedImport (layout_of identifiers.now) (numerals names.now) d }
{
    match role_at(identifiers, d).block() {
        Block::File(_) => is_package_level(identifiers, names, links, number_at(names, d)),
        _ => false,
    }
}

/// Whether the package block declares a name, given by its number.
fn is_package_level(identifiers: &[Identifier], names: &[usize], links: &Links, name: usize) -> bool
    requires { AreNameLinks identifiers.now names.now (length identifiers.now) links.now }
    ensures { IsTrue result ↔ IsDeclaredInPackage (layout_of identifiers.now) (numerals names.now) (name ∷ []) }
{
    first_outside(&links.outer, name, OuterBlock::Package).is_some()
}

/// Whether d is a declaration that counts: the first of its name in its block, and no import whose name the package block declares.
fn counts(identifiers: &[Identifier], names: &[usize], declared: &DeclaredIn, d: usize) -> bool
    requires in_range { d < length identifiers.now }
    requires declared { AreDeclared identifiers.now names.now declared.now }
    ensures { IsTrue result ↔ Counts (layout_of identifiers.now) (numerals names.now) d }
{
    leads(identifiers, names, declared, d)
        && !is_displaced_import(identifiers, names, &declared.links, d)
}

/// Whether an identifier is a lexical use: also a left name of `:=` that does not declare.
fn is_use(identifiers: &[Identifier], names: &[usize], declared: &DeclaredIn, d: usize) -> bool
    requires in_range { d < length identifiers.now }
    requires declared { AreDeclared identifiers.now names.now declared.now }
    ensures { IsTrue result ↔ IsUse (layout_of identifiers.now) (numerals names.now) d }
{
    role_at(identifiers, d).is_use_unless(declared.declaring[d])
}

/// The declaration to which an identifier is bound: that of its name for a use, and itself for a declaration that counts.
pub(crate) fn bound_to(
    identifiers: &[Identifier],
    names: &[usize],
    declared: &DeclaredIn,
    d: usize,
) -> Option<usize>
    requires in_range { d < length identifiers.now }
    requires laid_out { IsLaidOut (layout_of identifiers.now) (length identifiers.now) }
    requires declared { AreDeclared identifiers.now names.now declared.now }
    ensures { IsBinding (layout_of identifiers.now) (numerals names.now) d result }
{
    if is_use(identifiers, names, declared, d) {
        binding(identifiers, names, &declared.links, d)
    } else if declared.declaring[d] && counts(identifiers, names, declared, d) {
        Some(d)
    } else {
        None
    }
}
