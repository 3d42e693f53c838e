//! Laws of trees whose token indices change.
ghost use Rattle.std.specs.Prelude.{◌≡◌, ℕ, map};
ghost use Rattle.go_ast.specs.Flatten.{flatten};
ghost use Rattle.go_ast.specs.Tree.{FileTree};
ghost use Rattle.go_ast.specs.WellFormed.{IsFile};
ghost use Rattle.law_rename.specs.Renumbered.{numbered, renumbered};

/// A tree with changed token indices writes out the same tokens with their new indices. It fits the grammar where the old tree does.
pub fn renumbered_tree_is_written()
    ensures well_formed { (g : ℕ → ℕ) (f : FileTree) → IsFile f → IsFile (renumbered g f) }
    ensures written { (g : ℕ → ℕ) (f : FileTree) → flatten (renumbered g f) ≡ map (numbered g) (flatten f) }
{}
