//! The blocks that are no inner blocks, and the declarations in them by the number of a name.
ghost use Rattle.std.specs.Prelude.{ℕ, ◌≡◌, ◌∷◌, []};
ghost use Rattle.go_scope.specs.Bindings.{Layout, Names};
ghost use Rattle.go_scope.specs.Leading.{IsFirstIn};
ghost use Rattle.go_scope.specs.OuterBlocks.{block_in, outer_of, AreOuter};

use crate::model::Block;
use indexmap::IndexMap;

/// A block that is no inner block.
#[derive(Clone, Copy, PartialEq, Eq, Hash)]
pub enum OuterBlock {
    Universe,
    Package,
    File(usize),
}

/// The number of a name, and a block that is no inner block.
#[derive(Clone, Copy, PartialEq, Eq, Hash)]
pub struct OuterName {
    pub name: usize,
    pub block: OuterBlock,
}

impl Block {
    /// The block, or `None` for an inner block.
    pub(crate) fn outer(self) -> Option<OuterBlock>
        ensures { result ≡ outer_of self }
    {
        match self {
            Block::Universe => Some(OuterBlock::Universe),
            Block::Package => Some(OuterBlock::Package),
            Block::File(file) => Some(OuterBlock::File(file)),
            Block::Inner(_, _, _) => None,
        }
    }
}

/// The first declaration of a name in a block that is no inner block, among the identifiers visited.
pub(crate) fn first_outside(
    outer: &IndexMap<OuterName, usize>,
    name: usize,
    block: OuterBlock,
) -> Option<usize>
    ensures { (l : Layout) (names : Names) (n : ℕ) → AreOuter l names n outer.now →
        IsFirstIn l names (name ∷ []) (block_in block) n result }
{
    outer.get(&OuterName { name, block }).copied()
}
