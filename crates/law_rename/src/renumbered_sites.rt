//! Laws of the identifiers of a tree whose token indices change.
ghost use Rattle.std.specs.Prelude.{◌≡◌, ℕ, List, map};
ghost use Rattle.go_scope.specs.FileSites.{file_sites};
ghost use Rattle.go_ast.specs.Tree.{FileTree};
ghost use Rattle.law_rename.specs.Renumbered.{renumbered};
ghost use Rattle.law_rename.specs.MovedSites.{moved_site};

/// A file whose tokens get other indices and keep their bytes has the same identifiers, with the same names and roles. Each is at its
/// token's new index. The ends of its block and the beginning of its scope move likewise. The new indices may be any.
pub fn renumbered_file_has_moved_identifiers()
    ensures { (move : ℕ → ℕ → ℕ) (rank : ℕ) (old new : ℕ → List ℕ) (f : FileTree) → ((n : ℕ) → new (move rank n) ≡ old n) →
        file_sites (record { rank = rank; spell = new }) (renumbered (move rank) f) ≡
        map (moved_site move) (file_sites (record { rank = rank; spell = old }) f) }
{}

/// Where the tokens of a file keep their indices, while those of other files change, its identifiers stay as they are.
pub fn identifiers_of_other_files_stay()
    ensures { (move : ℕ → ℕ → ℕ) (rank : ℕ) (spell : ℕ → List ℕ) (f : FileTree) → ((n : ℕ) → move rank n ≡ n) →
        map (moved_site move) (file_sites (record { rank = rank; spell = spell }) f) ≡ file_sites (record { rank = rank; spell = spell }) f }
{}
