//! Laws of the cut of a text. A caller cites a law by calling its function, which does nothing at run time.
ghost use Rattle.std.specs.Prelude.{◌≡◌, ◌⊎◌, ◌++◌, ℕ, take, drop, List, flat_map, length};
ghost use Rattle.go_scanner.specs.declared.piece.Class.{Class};
ghost use Rattle.go_scanner.specs.declared.piece.Piece.{Piece};
ghost use Rattle.go_scanner.specs.declared.refusal.TextFault.{TextFault};
ghost use Rattle.std.specs.List.{AllByRecursion};
ghost use Rattle.go_scanner.specs.Cuts.{bytes_of, IsCut, IsFirstFault};
ghost use Rattle.go_scanner.specs.Spans.{CoversFrom, AreTokensInOrder, IsPieceText, IsTokenText};
ghost use Rattle.go_scanner.specs.Contexts.{MayFollow};
ghost use Rattle.go_scanner.specs.Pieces.{IsPiece, Stands};
ghost use Rattle.go_scanner.specs.StringValues.{HasStringValue};
ghost use Rattle.go_scanner.specs.Tokens.{tokens_of};

/// A text has at most one cut.
pub fn one_cut()
    ensures { (text : List ℕ) (ps qs : List Piece) → IsCut text ps → IsCut text qs → ps ≡ qs }
{}

/// A text that has a cut has no fault.
pub fn cut_or_fault()
    ensures { (text : List ℕ) (ps : List Piece) (fault : TextFault) → IsCut text ps → IsFirstFault text fault → ⊥ }
{}

/// A text that has no cut has a first fault.
pub fn has_cut_or_fault()
    ensures { (text : List ℕ) → ((ps : List Piece) × IsCut text ps) ⊎ ((fault : TextFault) × IsFirstFault text fault) }
{}

/// A text has at most one first fault.
pub fn one_fault()
    ensures { (text : List ℕ) (f g : TextFault) → IsFirstFault text f → IsFirstFault text g → f ≡ g }
{}

/// The bytes of the pieces of a cut are the text.
pub fn cut_joins()
    ensures { (text : List ℕ) (ps : List Piece) → IsCut text ps → flat_map (bytes_of text) ps ≡ text }
{}

/// The pieces of a cut follow one another without a gap from the start of the text to its end, and none is empty.
pub fn cut_covers()
    ensures { (text : List ℕ) (ps : List Piece) → IsCut text ps → CoversFrom 0 ps (length text) }
{}

/// The bytes of each piece are a piece of its class.
pub fn cut_pieces()
    ensures { (text : List ℕ) (ps : List Piece) → IsCut text ps → AllByRecursion (λ p. IsPieceText p.class (bytes_of text p)) ps }
{}

/// The tokens of a cut lie in the text in order: no two overlap, and no two begin at one offset.
pub fn tokens_in_order()
    ensures { (text : List ℕ) (ps : List Piece) → IsCut text ps → AreTokensInOrder text (tokens_of text ps) }
{}

/// The bytes of each token are a piece of its class. An inserted semicolon has no bytes.
pub fn cut_tokens()
    ensures { (text : List ℕ) (ps : List Piece) → IsCut text ps → AllByRecursion (λ t. IsTokenText t.class (bytes_of text t)) (tokens_of text ps) }
{}

/// A piece is the longest at the start of a text if the bytes after it may follow it.
pub fn stands_before()
    ensures { (class : Class) (bytes rest : List ℕ) → IsPiece class bytes → MayFollow class bytes rest → Stands (bytes ++ rest) class (length bytes) }
{}

/// The bytes after a piece at the start of a text may follow it.
pub fn may_follow()
    ensures { (class : Class) (text : List ℕ) (n : ℕ) → Stands text class n → MayFollow class (take n text) (drop n text) }
{}

/// A string literal has at most one value.
pub fn one_string_value()
    ensures { (bytes v w : List ℕ) → HasStringValue bytes v → HasStringValue bytes w → v ≡ w }
{}
