//! Laws of a path in double quotes.
ghost use Rattle.std.specs.Prelude.{◌≡◌, ◌↔◌, ℕ, ◌+◌, List, [], ◌∷◌, ◌++◌, length, map};
ghost use Rattle.base_files.specs.Path.{IsPath};
ghost use Rattle.go_scanner.specs.declared.piece.Class.TheVariants.{InterpretedString};
ghost use Rattle.go_scanner.specs.declared.piece.Piece.{Piece};
ghost use Rattle.go_scanner.specs.CutText.{IsCutText};
ghost use Rattle.go_scanner.specs.Cuts.{IsCut, CutsUpTo};
ghost use Rattle.go_scanner.specs.Pieces.{Stands};
ghost use Rattle.go_scanner.specs.StringValues.{IsStringPiece};
ghost use Rattle.go_scanner.specs.Tokens.{semicolon};
ghost use Rattle.go_respelled.specs.Literals.{IsLiteralOf, literal_at, HasLiteralAt, shifted};

/// A path in double quotes is a string piece, and the path is its only value.
pub fn quoted_path_is_literal()
    ensures { (least : ℕ) (path : List ℕ) → IsPath least path → IsLiteralOf (34 ∷ (path ++ 34 ∷ [])) path }
{}

/// A text that is only a path in double quotes has this one piece, and no other cut. Its tokens are the piece and the semicolon of its
/// line.
pub fn quoted_path_is_cut()
    ensures pieces { (least : ℕ) (path : List ℕ) → IsPath least path → (ps : List Piece) →
        (IsCut (34 ∷ (path ++ 34 ∷ [])) ps ↔ (ps ≡ literal_at 0 (34 ∷ (path ++ 34 ∷ [])) ∷ [])) }
    ensures tokens { (least : ℕ) (path : List ℕ) → IsPath least path → let text = 34 ∷ (path ++ 34 ∷ []) in
        IsCutText text (literal_at 0 text ∷ []) (literal_at 0 text ∷ semicolon (length text) ∷ []) }
{}

/// A text that begins with a path in double quotes has it as its first piece, whatever is behind it.
pub fn quoted_path_stands()
    ensures { (least : ℕ) (path rest : List ℕ) → IsPath least path → let bytes = 34 ∷ (path ++ 34 ∷ []) in
        Stands (bytes ++ rest) InterpretedString (length bytes) }
{}

/// Where pieces lead up to an offset of a text, a path in double quotes there is the next piece, whatever is behind it. Each cut of the
/// text has it.
pub fn quoted_path_is_piece()
    ensures goes_on { (least : ℕ) (front path rest : List ℕ) (before : List Piece) → IsPath least path →
        let bytes = 34 ∷ (path ++ 34 ∷ []) in let text = front ++ (bytes ++ rest) in
        CutsUpTo text before (length front) → CutsUpTo text (before ++ literal_at (length front) bytes ∷ []) (length front + length bytes) }
    ensures in_cut { (least : ℕ) (front path rest : List ℕ) (before pieces : List Piece) → IsPath least path →
        let bytes = 34 ∷ (path ++ 34 ∷ []) in let text = front ++ (bytes ++ rest) in
        CutsUpTo text before (length front) → IsCut text pieces → HasLiteralAt text pieces before (length front) bytes path }
{}

/// The part of a path before one of its slashes is a path. So the laws above apply to the path of a package, if a file in it has a path.
pub fn folder_of_path_is_path()
    ensures { (least : ℕ) (folder behind : List ℕ) → IsPath least (folder ++ 47 ∷ behind) → IsPath 1 folder }
{}

/// Where a string literal replaces another one, the pieces before it stay.
pub fn pieces_before_a_literal_stay()
    ensures { (front old new rest : List ℕ) (before : List Piece) → IsStringPiece old → IsStringPiece new →
        CutsUpTo (front ++ (old ++ rest)) before (length front) → CutsUpTo (front ++ (new ++ rest)) before (length front) }
{}

/// A path in double quotes that replaces a string literal is a piece of each cut of the new text. It is behind the pieces before the
/// literal.
pub fn replaced_literal_is_piece()
    ensures { (least : ℕ) (front old path rest : List ℕ) (before pieces : List Piece) → IsPath least path → IsStringPiece old →
        let bytes = 34 ∷ (path ++ 34 ∷ []) in let text = front ++ (bytes ++ rest) in
        CutsUpTo (front ++ (old ++ rest)) before (length front) → IsCut text pieces → HasLiteralAt text pieces before (length front) bytes path }
{}

/// Replacing a string literal by a path in double quotes keeps all other pieces. Those behind it move by the change in length.
pub fn replaced_literal_is_cut()
    ensures { (least : ℕ) (front old path rest : List ℕ) (before after : List Piece) (p : Piece) → IsPath least path → IsStringPiece old →
        CutsUpTo (front ++ (old ++ rest)) before (length front) → IsCut (front ++ (old ++ rest)) (before ++ p ∷ after) →
        let bytes = 34 ∷ (path ++ 34 ∷ []) in let behind = map (shifted (length front + length old) (length front + length bytes)) after in
        IsCut (front ++ (bytes ++ rest)) (before ++ literal_at (length front) bytes ∷ behind) }
{}
