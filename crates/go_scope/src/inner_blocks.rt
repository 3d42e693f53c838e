//! Searches the declarations of a name in inner blocks, from the last to the first.
ghost use Rattle.std.specs.Prelude.{◌≡◌, ◌<◌, ◌↔◌, ◌∷◌, [], length, IsTrue};
ghost use Rattle.go_scope.specs.Bindings.{MayDeclare, block_of};
ghost use Rattle.go_scope.specs.declared.model.Block.TheVariants.{Package};
ghost use Rattle.go_scope.specs.Leading.{IsPrior};
ghost use Rattle.go_scope.specs.Numbering.{number_at, numerals, AreBelow};
ghost use Rattle.go_scope.specs.OpenBlocks.{AreNameLinks, EndsAfter, IsLastOpen, IsVisibleInside};
ghost use Rattle.go_scope.specs.Scopes.{Nests};
ghost use Rattle.go_scope.specs.Table.{IsNearest, layout_of};
ghost use Rattle.go_scope.specs.WellFormed.{IsLaidOut};

use crate::links::Links;
use crate::model::{Block, Identifier, Position};
use crate::numbering::number_at;
use crate::resolve::{in_scope, place_at, role_at};

impl Block {
    /// Whether an inner block is of the position's file and ends after it. Any other block does not end.
    fn ends_behind(self, place: Position) -> bool
        ensures { IsTrue result ↔ EndsAfter self place }
    {
        match self {
            Block::Inner(file, _, to) => place.file == file && place.index < to,
            Block::Universe | Block::Package | Block::File(_) => true,
        }
    }
}

/// Whether the block of d has not ended at the position of u.
fn lasts(identifiers: &[Identifier], d: usize, u: usize) -> bool
    requires first { d < length identifiers.now }
    requires second { u < length identifiers.now }
    ensures { let l = layout_of identifiers.now in IsTrue result ↔ EndsAfter (block_of (l.role d)) (l.place u) }
{
    role_at(identifiers, d)
        .block()
        .ends_behind(place_at(identifiers, u))
}

/// The last declaration of u's name, before u, in an inner block that has not ended. All later ones are in blocks that have ended.
pub(crate) fn last_open(
    identifiers: &[Identifier],
    names: &[usize],
    links: &Links,
    u: usize,
) -> Option<usize>
    requires in_range { u < length identifiers.now }
    requires laid_out { IsLaidOut (layout_of identifiers.now) (length identifiers.now) }
    requires numbered { AreBelow (length identifiers.now) names.now }
    requires linked { AreNameLinks identifiers.now names.now u links.now }
    ensures { IsLastOpen (layout_of identifiers.now) (length identifiers.now) (numerals names.now) (numerals names.now u) u result }
{
    let mut at = links.last[number_at(names, u)];
    while let Some(d) = at {
        if lasts(identifiers, d, u) {
            return Some(d);
        }
        at = links.around[d];
    }
    None
}

/// The first declaration of d's name in d's block, an inner one, among the identifiers before d. The search ends at a declaration of an
/// enclosing block.
pub(crate) fn first_inside(
    identifiers: &[Identifier],
    names: &[usize],
    links: &Links,
    d: usize,
) -> Option<usize>
    requires in_range { d < length identifiers.now }
    requires laid_out { IsLaidOut (layout_of identifiers.now) (length identifiers.now) }
    requires numbered { AreBelow (length identifiers.now) names.now }
    requires may_declare { MayDeclare (layout_of identifiers.now) d }
    requires inner { Nests (block_of ((layout_of identifiers.now).role d)) Package }
    requires linked { AreNameLinks identifiers.now names.now d links.now }
    ensures { IsPrior (layout_of identifiers.now) (numerals names.now) d result }
{
    let own = role_at(identifiers, d).block();
    let mut at = links.last[number_at(names, d)];
    while let Some(e) = at {
        let found = role_at(identifiers, e).block();
        if found.same(own) {
            return Some(e);
        }
        at = if own.nests(found) {
            None
        } else {
            links.around[e]
        };
    }
    None
}

/// The nearest declaration of u's name, before u, among those in inner blocks with u in their scope. It is the last one, as the blocks of
/// earlier ones enclose its block.
pub(crate) fn nearest_inside(
    identifiers: &[Identifier],
    names: &[usize],
    links: &Links,
    u: usize,
) -> Option<usize>
    requires in_range { u < length identifiers.now }
    requires laid_out { IsLaidOut (layout_of identifiers.now) (length identifiers.now) }
    requires numbered { AreBelow (length identifiers.now) names.now }
    requires linked { AreNameLinks identifiers.now names.now u links.now }
    ensures { let l = layout_of identifiers.now in
        IsNearest l (IsVisibleInside l (numerals names.now) (numerals names.now u) u) result }
{
    let mut at = links.last[number_at(names, u)];
    while let Some(d) = at {
        if in_scope(identifiers, d, u) {
            return Some(d);
        }
        at = links.around[d];
    }
    None
}
