//! Laws of imports without a name, and of a name that is inserted before their string literals.
ghost use Rattle.std.specs.Prelude.{◌≡◌, ◌<◌, ℕ, suc, ◌+◌, List, ◌∷◌, ◌++◌, length, Some, None, Bool, false, codes, slice_get, take, drop};
ghost use Rattle.std.specs.List.{All, Contains};
ghost use Rattle.go_scanner.specs.declared.piece.Class.TheVariants.{Name};
ghost use Rattle.go_scanner.specs.CutText.{tokens_in};
ghost use Rattle.go_scanner.specs.Cuts.{IsCut};
ghost use Rattle.go_scanner.specs.Pieces.{IsPiece};
ghost use Rattle.base_edits.specs.Edits.{AreInOrder, LieWithin, edited_text};
ghost use Rattle.base_edits.specs.Moved.{moved_offset};
ghost use Rattle.base_edits.specs.declared.edit.Edit.{Edit};
ghost use Rattle.go_ast.specs.declared.syntax.Kind.TheVariants as kind;
ghost use Rattle.go_ast.specs.Kinds.{kind_of_name};
ghost use Rattle.go_ast.specs.SourceFile.{IsSourceFile, SourceFile, offset_of, spelling_of};
ghost use Rattle.go_ast.specs.Tree.{FileTree, ImportTree};
ghost use Rattle.types_declared.specs.Files.{imports_in};
ghost use Rattle.go_respelled.specs.Renamings.{AreNameEdits};
ghost use Rattle.go_respelled.specs.Trees.{renamed_file};
ghost use Rattle.law_rename.specs.Around.{AroundImport, around_by, bare_import, file_with, from_on, import_with_name};
ghost use Rattle.law_rename.specs.Named.{MayPut, NamePut, after_put, before_put, literal_piece, put_bytes};
ghost use Rattle.law_rename.specs.Put.{NoWordEndsAt};
ghost use Rattle.law_rename.specs.MayGain.{MayGain, inserted};

/// An import spec is one of the file's exactly if the file's tree is that import in some surroundings.
pub fn imports_stand_in_their_files()
    ensures found { (f : FileTree) (i : ImportTree) → Contains (imports_in f) i → (a : AroundImport) × (f ≡ file_with i a) }
    ensures among { (i : ImportTree) (a : AroundImport) → Contains (imports_in (file_with i a)) i }
{}

/// A name may be inserted before the string literal of each import without a name. A blank must precede the name where a word or a number
/// ends at the literal.
pub fn imports_without_a_name_may_gain_one()
    ensures { (f : SourceFile) (i : ImportTree) (name : List ℕ) (blank_first : Bool) → IsSourceFile f → Contains (imports_in f.tree) i → i.name ≡ None →
        IsPiece Name name → (blank_first ≡ false → NoWordEndsAt (offset_of f i.path) f.cut.pieces) → MayGain f i.path name blank_first }
{}

/// At the string literal of an import without a name no word ends but `import`, and no number. So the name needs no blank before it unless
/// `import` ends there.
pub fn literals_stand_behind_no_other_word()
    ensures { (f : SourceFile) (i : ImportTree) → IsSourceFile f → Contains (imports_in f.tree) i → i.name ≡ None →
        ((before : ℕ) → i.path ≡ suc before → spelling_of f before ≡ codes "import" →
        offset_of f before + length (spelling_of f before) ≡ offset_of f i.path → ⊥) →
        NoWordEndsAt (offset_of f i.path) f.cut.pieces }
{}

/// Inserting bytes can be done after the other edits of a text: they are inserted at the moved offset. The other edits must end before the
/// offset, or replace bytes behind it.
pub fn bytes_are_put_beside_other_edits()
    ensures { (text put : List ℕ) (at : ℕ) (before behind : List Edit) → AreInOrder 0 (before ++ inserted at put ∷ behind) →
        LieWithin (length text) (before ++ inserted at put ∷ behind) → All (λ d. at < d.span.end) behind →
        let new = edited_text (before ++ behind) text in
        let place = moved_offset (before ++ behind) at in
        edited_text (before ++ inserted at put ∷ behind) text ≡ take place new ++ (put ++ drop place new) }
{}

/// An import gains a name while other names of its file are replaced. The new text is that with the names replaced, and the import's name
/// then inserted before the literal. So the laws of both steps apply one after the other.
pub fn a_name_is_put_beside_replaced_ones()
    ensures { (f : SourceFile) (number : ℕ) (name : List ℕ) (blank_first : Bool) (before behind : List Edit) → IsCut f.cut.text f.cut.pieces →
        AreNameEdits f.cut.pieces (before ++ behind) → (g : MayGain (renamed_file (before ++ behind) f) number name blank_first) →
        let whole = before ++ inserted (offset_of f number) (put_bytes g.put) ∷ behind in
        AreInOrder 0 whole → LieWithin (length f.cut.text) whole → edited_text whole f.cut.text ≡ (after_put g.put).text }
{}

/// Suppose that the old text is a file, and that its tree has the literal as the path of an import without a name. Then the new text is a
/// file too, and its tree has the import with the name.
pub fn named_import_is_in_the_file()
    ensures { (path : List ℕ) (p : NamePut) (number : ℕ) (a : AroundImport) → MayPut p →
        slice_get (tokens_in (before_put p)) number ≡ Some (literal_piece p) → kind_of_name p.name ≡ kind.Name →
        IsSourceFile (record { path = path; cut = before_put p; tree = file_with (bare_import number) a }) →
        IsSourceFile (record { path = path; cut = after_put p; tree = file_with (import_with_name number) (around_by (from_on number) a) }) }
{}
