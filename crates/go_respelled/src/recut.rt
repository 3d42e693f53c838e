//! Laws of texts in which names are replaced by names.
ghost use Rattle.std.specs.Prelude.{◌≡◌, ◌↔◌, ℕ, ◌+◌, List, ◌∷◌, ◌++◌, drop, length, map, slice_get, Some};
ghost use Rattle.std.specs.List.{Contains};
ghost use Rattle.go_scanner.specs.declared.piece.Class.{Class};
ghost use Rattle.go_scanner.specs.declared.piece.Class.TheVariants.{ByteOrderMark, Name};
ghost use Rattle.go_scanner.specs.declared.piece.Piece.{Piece};
ghost use Rattle.go_scanner.specs.declared.refusal.TextFault.{TextFault};
ghost use Rattle.go_scanner.specs.Contexts.{MayFollow};
ghost use Rattle.go_scanner.specs.CutText.{CutText, tokens_in};
ghost use Rattle.go_scanner.specs.Cuts.{IsCut, bytes_of};
ghost use Rattle.go_scanner.specs.Pieces.{IsPiece};
ghost use Rattle.base_edits.specs.Edits.{AreInOrder};
ghost use Rattle.base_edits.specs.Moved.{moved_offset};
ghost use Rattle.base_edits.specs.declared.edit.Edit.{Edit};
ghost use Rattle.go_respelled.specs.Literals.{piece_at, shifted};
ghost use Rattle.go_ast.specs.Faults.{IsParseFault};
ghost use Rattle.go_ast.specs.Kinds.{kinds_of};
ghost use Rattle.go_ast.specs.SourceFile.{IsSourceFile, SourceFile, offset_of, spelling_of};
ghost use Rattle.go_respelled.specs.Renamings.{AreNameEdits, moved_piece, recut, replaced_piece};
ghost use Rattle.go_respelled.specs.Trees.{KeepKinds, moved_fault, renamed_file};

/// A piece that a name may follow may be followed by any other name, with equal bytes before and behind the name.
pub fn names_follow_alike()
    ensures { (class : Class) (bytes between old new rest : List ℕ) → IsPiece Name old → IsPiece Name new →
        MayFollow class bytes (between ++ (old ++ rest)) → MayFollow class bytes (between ++ (new ++ rest)) }
{}

/// Replacing a name piece by a name keeps all other pieces. Those behind it move by the change in length.
pub fn replaced_name_is_cut()
    ensures { (front old new rest : List ℕ) (before after : List Piece) → IsPiece Name new →
        IsCut (front ++ (old ++ rest)) (before ++ piece_at Name (length front) old ∷ after) →
        let behind = map (shifted (length front + length old) (length front + length new)) after in
        IsCut (front ++ (new ++ rest)) (before ++ piece_at Name (length front) new ∷ behind) }
{}

/// Edits in order, each of which replaces a name token by a name, are edits of name pieces.
pub fn edits_of_name_tokens()
    ensures { (c : CutText) (edits : List Edit) → AreInOrder 0 edits →
        ((e : Edit) → Contains edits e → IsPiece Name e.text × ((token : ℕ) × (slice_get (tokens_in c) token ≡ Some (replaced_piece e)))) →
        AreNameEdits c.pieces edits }
{}

/// Replacing name pieces by names keeps all pieces, with their ends where the edits move them. The new text has no other cut.
pub fn renamed_text_is_cut()
    ensures { (c : CutText) (edits : List Edit) → IsCut c.text c.pieces → AreNameEdits c.pieces edits →
        let new = recut edits c in (pieces : List Piece) → IsCut new.text pieces ↔ (pieces ≡ new.pieces) }
{}

/// In the new text, the replaced pieces have the bytes of their edits, and all others their old bytes.
pub fn renamed_pieces_are_spelled()
    ensures put { (c : CutText) (edits : List Edit) (e : Edit) → IsCut c.text c.pieces → AreNameEdits c.pieces edits → Contains edits e →
        bytes_of (recut edits c).text (moved_piece edits (replaced_piece e)) ≡ e.text }
    ensures kept { (c : CutText) (edits : List Edit) (p : Piece) → IsCut c.text c.pieces → AreNameEdits c.pieces edits → Contains c.pieces p →
        ((e : Edit) → Contains edits e → p ≡ replaced_piece e → ⊥) → bytes_of (recut edits c).text (moved_piece edits p) ≡ bytes_of c.text p }
{}

/// Each piece of the new text may be followed by the bytes behind it.
pub fn renamed_pieces_are_followed()
    ensures { (c : CutText) (edits : List Edit) (p : Piece) → IsCut c.text c.pieces → AreNameEdits c.pieces edits →
        let new = recut edits c in Contains new.pieces p → (p.class ≡ ByteOrderMark → ⊥) →
        MayFollow p.class (bytes_of new.text p) (drop p.span.end new.text) }
{}

/// The tokens of the new text are the old tokens with their ends moved, inserted semicolons among them.
pub fn renamed_tokens_are_moved()
    ensures { (c : CutText) (edits : List Edit) → IsCut c.text c.pieces → AreNameEdits c.pieces edits →
        tokens_in (recut edits c) ≡ map (moved_piece edits) (tokens_in c) }
{}

/// The tokens keep their kinds, where `_` is replaced by `_` and each other identifier by one other than `_`.
pub fn renamed_kinds_stay()
    ensures { (c : CutText) (edits : List Edit) → IsCut c.text c.pieces → AreNameEdits c.pieces edits → KeepKinds c.text edits →
        kinds_of (recut edits c) ≡ kinds_of c }
{}

/// The new text is a file with the old tree, by token indices. Each token begins at the moved offset of its old place.
pub fn renamed_file_keeps_its_tree()
    ensures tree { (f : SourceFile) (edits : List Edit) → IsSourceFile f → AreNameEdits f.cut.pieces edits → KeepKinds f.cut.text edits →
        IsSourceFile (renamed_file edits f) }
    ensures offsets { (f : SourceFile) (edits : List Edit) (token : ℕ) → IsCut f.cut.text f.cut.pieces → AreNameEdits f.cut.pieces edits →
        offset_of (renamed_file edits f) token ≡ moved_offset edits (offset_of f token) }
{}

/// A token that an edit replaces has the bytes of the edit, and each other token its old bytes.
pub fn renamed_tokens_are_spelled()
    ensures put { (f : SourceFile) (edits : List Edit) (e : Edit) (token : ℕ) → IsCut f.cut.text f.cut.pieces → AreNameEdits f.cut.pieces edits →
        Contains edits e → slice_get (tokens_in f.cut) token ≡ Some (replaced_piece e) → spelling_of (renamed_file edits f) token ≡ e.text }
    ensures kept { (f : SourceFile) (edits : List Edit) (token : ℕ) → IsCut f.cut.text f.cut.pieces → AreNameEdits f.cut.pieces edits →
        ((e : Edit) → Contains edits e → slice_get (tokens_in f.cut) token ≡ Some (replaced_piece e) → ⊥) →
        spelling_of (renamed_file edits f) token ≡ spelling_of f token }
{}

/// A parse fault of the old text is one of the new text, of the same kind, at the moved offset.
pub fn renamed_fault_is_moved()
    ensures { (c : CutText) (edits : List Edit) (fault : TextFault) → IsCut c.text c.pieces → AreNameEdits c.pieces edits → KeepKinds c.text edits →
        IsParseFault c fault → IsParseFault (recut edits c) (moved_fault edits fault) }
{}
