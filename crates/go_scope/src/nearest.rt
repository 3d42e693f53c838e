//! Finds the declaration to which a use is bound.
ghost use Rattle.std.specs.Prelude.{ℕ, ◌≡◌, ◌<◌, length, MatchOption};
ghost use Rattle.go_scope.specs.Bindings.{BindsAt};
ghost use Rattle.go_scope.specs.Leading.{IsLead};
ghost use Rattle.go_scope.specs.Numbering.{numerals};
ghost use Rattle.go_scope.specs.OpenBlocks.{AreNameLinks, IsVisibleInside};
ghost use Rattle.go_scope.specs.Table.{IsCandidate, IsNearest, layout_of};
ghost use Rattle.go_scope.specs.WellFormed.{IsLaidOut};

use crate::links::Links;
use crate::model::Identifier;
use crate::numbering::number_at;
use crate::outer_blocks::{OuterBlock, first_outside};
use crate::resolve::place_at;

/// The declaration to which the use u is bound: the nearest one in an inner block, or else one of the package, the file or the universe.
pub(crate) fn binding(
    identifiers: &[Identifier],
    names: &[usize],
    links: &Links,
    u: usize,
) -> Option<usize>
    requires in_range { u < length identifiers.now }
    requires laid_out { IsLaidOut (layout_of identifiers.now) (length identifiers.now) }
    requires follows { IsLead (layout_of identifiers.now) (numerals names.now) u → ⊥ }
    requires linked { AreNameLinks identifiers.now names.now (length identifiers.now) links.now }
    ensures { let l = layout_of identifiers.now in
        let named = numerals names.now in
        MatchOption result ((d : ℕ) → BindsAt l named (named u) u d → ⊥) (λ d. BindsAt l named (named u) u d) }
{
    match links.around[u] {
        Some(d) => Some(d),
        None => outside(identifiers, names, links, u),
    }
}

/// The declaration of u's name in the package block, or else in the block of u's file, or else the predeclared one. No inner block may have
/// one.
fn outside(identifiers: &[Identifier], names: &[usize], links: &Links, u: usize) -> Option<usize>
    requires in_range { u < length identifiers.now }
    requires linked { AreNameLinks identifiers.now names.now (length identifiers.now) links.now }
    requires none_inside { let l = layout_of identifiers.now in (d : ℕ) → IsVisibleInside l (numerals names.now) (numerals names.now u) u d → ⊥ }
    ensures { let l = layout_of identifiers.now in IsNearest l (IsCandidate l (numerals names.now) (numerals names.now u) u) result }
{
    let name = number_at(names, u);
    let file = place_at(identifiers, u).file;
    match first_outside(&links.outer, name, OuterBlock::Package) {
        Some(d) => Some(d),
        None => match first_outside(&links.outer, name, OuterBlock::File(file)) {
            Some(d) => Some(d),
            None => first_outside(&links.outer, name, OuterBlock::Universe),
        },
    }
}
