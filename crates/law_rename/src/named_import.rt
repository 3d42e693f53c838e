//! Laws of a name that is inserted before a string literal.
ghost use Rattle.std.specs.Prelude.{◌≡◌, ℕ, ◌+◌, List, [], ◌∷◌, ◌++◌, length, map, slice_get, Some};
ghost use Rattle.go_scanner.specs.declared.piece.Class.{Class};
ghost use Rattle.go_scanner.specs.declared.piece.Class.TheVariants.{Blank, Name};
ghost use Rattle.go_scanner.specs.declared.piece.Piece.{Piece};
ghost use Rattle.go_scanner.specs.CutText.{tokens_in};
ghost use Rattle.go_scanner.specs.Cuts.{IsCut};
ghost use Rattle.go_scanner.specs.Pieces.{IsPiece};
ghost use Rattle.go_scanner.specs.TokenValues.{IsStringClass};
ghost use Rattle.go_respelled.specs.Literals.{piece_at, shifted};
ghost use Rattle.go_ast.specs.declared.syntax.Kind.TheVariants as kind;
ghost use Rattle.go_ast.specs.Kinds.{kind_of_name, kinds_of};
ghost use Rattle.go_ast.specs.WellFormed.{IsTreeOf};
ghost use Rattle.law_rename.specs.Around.{AroundImport, around_by, bare_import, file_with, from_on, import_with_name};
ghost use Rattle.law_rename.specs.Named.{MayPut, NamePut, after_put, before_put, later, literal_piece, moved_behind, name_piece, name_token};
ghost use Rattle.law_rename.specs.Named.{with_one_at};
ghost use Rattle.law_rename.specs.Put.{NoWordEndsAt, name_and_blank};

/// Inserting a name and a blank before a string literal keeps all pieces; the literal and those behind it move. Where a word or a number
/// ends at the literal, a blank must be inserted before the name too.
pub fn put_name_is_cut()
    ensures apart { (front literal name rest : List ℕ) (before after : List Piece) (class : Class) → IsPiece Name name → IsStringClass class →
        NoWordEndsAt (length front) before →
        IsCut (front ++ (literal ++ rest)) (before ++ piece_at class (length front) literal ∷ after) →
        let put = name ++ 32 ∷ [] in
        let behind = map (shifted (length front) (length front + length put)) (piece_at class (length front) literal ∷ after) in
        IsCut (front ++ (put ++ (literal ++ rest))) ((before ++ name_and_blank (length front) name) ++ behind) }
    ensures joined { (front literal name rest : List ℕ) (before after : List Piece) (class : Class) → IsPiece Name name → IsStringClass class →
        IsCut (front ++ (literal ++ rest)) (before ++ piece_at class (length front) literal ∷ after) →
        let put = 32 ∷ (name ++ 32 ∷ []) in
        let behind = map (shifted (length front) (length front + length put)) (piece_at class (length front) literal ∷ after) in
        IsCut (front ++ (put ++ (literal ++ rest)))
        ((before ++ piece_at Blank (length front) (32 ∷ []) ∷ name_and_blank (length front + 1) name) ++ behind) }
{}

/// The pieces of `after_put` are the cut of its text.
pub fn named_text_is_cut()
    ensures { (p : NamePut) → MayPut p → IsCut (after_put p).text (after_put p).pieces }
{}

/// The tokens of the new text are the old ones, moved, with the name's token inserted before the literal's. Token indices from the
/// literal's on are greater by one.
pub fn named_text_gains_a_token()
    ensures { (p : NamePut) (number : ℕ) → MayPut p → slice_get (tokens_in (before_put p)) number ≡ Some (literal_piece p) →
        tokens_in (after_put p) ≡ with_one_at number (name_piece p) (moved_behind p) (tokens_in (before_put p)) }
{}

/// The kinds of the new tokens are the old ones, with the name's kind inserted. Token indices from the literal's on are greater by one.
pub fn named_text_gains_a_kind()
    ensures { (p : NamePut) (number : ℕ) → MayPut p → slice_get (tokens_in (before_put p)) number ≡ Some (literal_piece p) →
        kinds_of (after_put p) ≡ with_one_at number (name_token p.name number) later (kinds_of (before_put p)) }
{}

/// The old text has a tree in which the literal is the path of an import without a name. The new text has the tree in which this import has
/// the name. Token indices from the literal's on are greater by one. The name is not `_`.
pub fn named_import_is_in_the_tree()
    ensures { (p : NamePut) (number : ℕ) (a : AroundImport) → MayPut p → slice_get (tokens_in (before_put p)) number ≡ Some (literal_piece p) →
        kind_of_name p.name ≡ kind.Name → IsTreeOf (file_with (bare_import number) a) (kinds_of (before_put p)) →
        IsTreeOf (file_with (import_with_name number) (around_by (from_on number) a)) (kinds_of (after_put p)) }
{}
