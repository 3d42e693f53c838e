//! Laws of an import without a name that gains one.
ghost use Rattle.std.specs.Prelude.{◌≡◌, ◌↔◌, ℕ, suc, ◌+◌, List, ◌∷◌, ◌++◌, length, Option, Some, None, slice_get};
ghost use Rattle.go_scanner.specs.CutText.{tokens_in};
ghost use Rattle.go_scope.specs.Bindings.{Counts, IsBoundTo, Names};
ghost use Rattle.go_scope.specs.FileSites.{SpelledFile, package_sites};
ghost use Rattle.go_scope.specs.Named.{named_sites};
ghost use Rattle.go_scope.specs.Site.{Site, sites_layout, sites_names};
ghost use Rattle.go_ast.specs.Kinds.{kinds_of};
ghost use Rattle.go_ast.specs.WellFormed.{IsTreeOf};
ghost use Rattle.law_rename.specs.Renaming.{HasNoConflict, Renames};
ghost use Rattle.law_rename.specs.Around.{AroundImport, bare_import, file_with, from_on};
ghost use Rattle.law_rename.specs.Named.{MayPut, NamePut, after_put, before_put, literal_piece};
ghost use Rattle.law_rename.specs.Gained.{KeepNames, Gain, HasGained, named_file, bare_file, gain_of, import_site, sites_in, token_bytes};
ghost use Rattle.law_rename.specs.Gained.{unnamed_site};

/// Where a name and a blank are inserted before a string literal, each old token keeps its bytes at its new index. The new token has the
/// bytes of the name and the literal's old index; the literal comes next.
pub fn named_text_is_spelled()
    ensures kept { (p : NamePut) (number : ℕ) → MayPut p → slice_get (tokens_in (before_put p)) number ≡ Some (literal_piece p) →
        (n : ℕ) → token_bytes (after_put p) (from_on number n) ≡ token_bytes (before_put p) n }
    ensures name { (p : NamePut) (number : ℕ) → MayPut p → slice_get (tokens_in (before_put p)) number ≡ Some (literal_piece p) →
        token_bytes (after_put p) number ≡ p.name }
    ensures path { (p : NamePut) (number : ℕ) → MayPut p → slice_get (tokens_in (before_put p)) number ≡ Some (literal_piece p) →
        token_bytes (after_put p) (number + 1) ≡ p.literal }
{}

/// The identifiers of the file stay, with token indices from the literal's on greater by one. In place of the literal's identifier, which
/// declared nothing, there are two: the name, declared in the file block, and the literal.
pub fn named_import_is_among_the_identifiers()
    ensures { (rank number : ℕ) (p : NamePut) (a : AroundImport) → MayPut p → slice_get (tokens_in (before_put p)) number ≡ Some (literal_piece p) →
        (at : ℕ) × HasGained (gain_of rank number p) (unnamed_site (gain_of rank number p)) at (sites_in rank (bare_file number a p))
        (sites_in rank (named_file number a p)) }
{}

/// The law `named_import_is_among_the_identifiers` for the package: the identifiers of its other files, and the predeclared ones, stay as
/// they are.
pub fn named_import_is_in_the_package()
    ensures { (p : NamePut) (number : ℕ) (a : AroundImport) (first rest : List SpelledFile) → MayPut p →
        slice_get (tokens_in (before_put p)) number ≡ Some (literal_piece p) → IsTreeOf (file_with (bare_import number) a) (kinds_of (before_put p)) →
        let i = gain_of (length first) number p in
        (at : ℕ) × HasGained i (unnamed_site i) at (package_sites (first ++ bare_file number a p ∷ rest))
        (package_sites (first ++ named_file number a p ∷ rest)) }
{}

/// An import without a name declares the name of its package at its string literal, if that name is known. With a name of its own it
/// declares that one instead, at the name's token. All other identifiers stay, moved.
pub fn declaration_moves_to_the_name()
    ensures known { (i : Gain) (at : ℕ) (old new : List Site) (names later : ℕ → Option (List ℕ)) (called : List ℕ) →
        HasGained i (unnamed_site i) at old new → KeepNames at old names later → names at ≡ Some called →
        HasGained i (import_site i called) at (named_sites names old) (named_sites later new) }
    ensures unknown { (i : Gain) (at : ℕ) (old new : List Site) (names later : ℕ → Option (List ℕ)) →
        HasGained i (unnamed_site i) at old new → KeepNames at old names later → names at ≡ None →
        HasGained i (unnamed_site i) at (named_sites names old) (named_sites later new) }
{}

/// All bindings stay. For any names in the new package, give each old identifier the name at its new number.
///
/// An identifier is bound to another in the old package exactly if it is in the new one, and counts exactly if it does there. The literal
/// is bound to nothing, and nothing is bound to it. All identifiers but the import keep their names.
pub fn bindings_stay_where_an_import_gains_a_name()
    ensures bound { (i : Gain) (called : List ℕ) (at : ℕ) (old new : List Site) → HasGained i (import_site i called) at old new →
        (later : Names) (u d : ℕ) → IsBoundTo (sites_layout old) (λ x. later (from_on (suc at) x)) u d ↔
        IsBoundTo (sites_layout new) later (from_on (suc at) u) (from_on (suc at) d) }
    ensures counts { (i : Gain) (called : List ℕ) (at : ℕ) (old new : List Site) → HasGained i (import_site i called) at old new →
        (later : Names) (d : ℕ) → Counts (sites_layout old) (λ x. later (from_on (suc at) x)) d ↔
        Counts (sites_layout new) later (from_on (suc at) d) }
    ensures literal_bound { (i : Gain) (called : List ℕ) (at : ℕ) (old new : List Site) → HasGained i (import_site i called) at old new →
        (later : Names) (d : ℕ) → IsBoundTo (sites_layout new) later (suc at) d → ⊥ }
    ensures bound_to_literal { (i : Gain) (called : List ℕ) (at : ℕ) (old new : List Site) → HasGained i (import_site i called) at old new →
        (later : Names) (u : ℕ) → IsBoundTo (sites_layout new) later u (suc at) → ⊥ }
    ensures names { (i : Gain) (called : List ℕ) (at : ℕ) (old new : List Site) → HasGained i (import_site i called) at old new →
        (d : ℕ) → (d ≡ at → ⊥) → sites_names new (from_on (suc at) d) ≡ sites_names old d }
    ensures import_name { (i : Gain) (called : List ℕ) (at : ℕ) (old new : List Site) → HasGained i (import_site i called) at old new →
        sites_names new (from_on (suc at) at) ≡ i.name }
{}

/// An import without a name gains another name than it declared, and all identifiers bound to it get that name. Each identifier stays bound
/// to its declaration exactly if that rename has no conflict by the old names and scopes.
pub fn imports_gain_other_names_without_conflicts()
    ensures { (i : Gain) (called : List ℕ) (at : ℕ) (old new : List Site) → HasGained i (import_site i called) at old new → (later : Names) →
        Renames (sites_layout old) (sites_names old) at i.name (λ x. later (from_on (suc at) x)) →
        ((u d : ℕ) → IsBoundTo (sites_layout old) (sites_names old) u d →
        IsBoundTo (sites_layout new) later (from_on (suc at) u) (from_on (suc at) d)) ↔
        HasNoConflict (sites_layout old) (sites_names old) at i.name }
{}
