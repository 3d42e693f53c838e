//! Laws of the parts of a package's code: the answers to its questions.
ghost use Rattle.std.specs.Prelude.{ℕ, ◌≡◌, List, Some, length};
ghost use Rattle.go_ast.specs.SourceFile.{SourceFile, IsSourceFile};
ghost use Rattle.go_ast.specs.Tree.{FuncTree};
ghost use Rattle.types_expr.specs.Types.{PlainType, Meaning};
ghost use Rattle.types_expr.specs.World.{World, Locals, Means, no_locals};
ghost use Rattle.types_declared.specs.MeaningOf.{result_types};
ghost use Rattle.types_declared.specs.Package.{Package};
ghost use Rattle.types_info.specs.Worlds.{is_init};
ghost use Rattle.build_object.specs.Lines.{FunctionName};
ghost use Rattle.build_object.specs.Numbering.{slot_of};
ghost use Rattle.build_object.specs.Slots.{slots_of};
ghost use Rattle.build_object.specs.Source.{Source};
ghost use Rattle.build_object.specs.Sources.{IsSourceOf};
ghost use Rattle.build_object.specs.Statements.{body_lines};
ghost use Rattle.law_faultless.specs.Stack.{Arity, IsBalanced};
ghost use Rattle.law_faultless.specs.QuestionAnswers.{IsKnown};
ghost use Rattle.law_faultless.specs.Questions.{TokenQuestion, OfInteger, OfText, OfDeclared, OfMember};
ghost use Rattle.law_faultless.specs.StatementAsking.{FunctionAsks};
ghost use Rattle.law_faultless.specs.GlobalMeanings.{MeansGlobal};
ghost use Rattle.law_faultless.specs.TypedFunctions.{IsFunctionIn};
ghost use Rattle.law_faultless.specs.OpenQuestions.{OpenIsKnown};

/// Each local that a function declares has a slot.
pub fn declared_locals_have_slots()
    ensures { (w : World) → (before : Locals) → (f : FuncTree) → (n : ℕ) → FunctionAsks w before f (OfDeclared n) →
        IsKnown (slot_of (slots_of w f) n) }
{}

/// Each name that means a variable or a function of a package has a name in objects.
pub fn names_of_packages_are_known()
    ensures { (p : Package) → (files_of : List ℕ → List SourceFile) → (file : ℕ) → (f : SourceFile) → (s : Source) → IsSourceOf p files_of file f s →
        (n : ℕ) → (m : Meaning) → s.world.bound n ≡ Means m → MeansGlobal m → IsKnown (s.global n) }
{}

/// In a function of a file the source knows the type before each selector, and the type of the composite literal around each key. These are
/// the types of the typing rules.
pub fn types_before_members_are_known()
    ensures { (p : Package) → (files_of : List ℕ → List SourceFile) → (file : ℕ) → (f : SourceFile) → (s : Source) →
        IsSourceOf p files_of file f s → IsSourceFile f →
        (g : FuncTree) → (at : Locals) → IsFunctionIn s.world (is_init f) no_locals f.tree.decls g at →
        (n : ℕ) → (t : PlainType) → FunctionAsks s.world at g (OfMember n t) → s.before n ≡ Some t }
{}

/// In a function of a file each integer and each string has a value.
pub fn literals_are_known()
    ensures integers { (p : Package) → (files_of : List ℕ → List SourceFile) → (file : ℕ) → (f : SourceFile) → (s : Source) →
        IsSourceOf p files_of file f s → IsSourceFile f →
        (g : FuncTree) → (at : Locals) → IsFunctionIn s.world (is_init f) no_locals f.tree.decls g at → (n : ℕ) →
        FunctionAsks s.world at g (OfInteger n) → IsKnown (s.number n) }
    ensures texts { (p : Package) → (files_of : List ℕ → List SourceFile) → (file : ℕ) → (f : SourceFile) → (s : Source) →
        IsSourceOf p files_of file f s → IsSourceFile f →
        (g : FuncTree) → (at : Locals) → IsFunctionIn s.world (is_init f) no_locals f.tree.decls g at → (n : ℕ) →
        FunctionAsks s.world at g (OfText n) → IsKnown (s.text n) }
{}

/// The code of a typed function of a file is balanced, if the questions that the file alone leaves open are settled. These are: whether a
/// local belongs to the function, the arities of functions, and the names of members.
pub fn functions_of_files_are_balanced()
    ensures { (arity : FunctionName → Arity) → (p : Package) → (files_of : List ℕ → List SourceFile) → (file : ℕ) → (f : SourceFile) →
        (s : Source) → IsSourceOf p files_of file f s → IsSourceFile f →
        (g : FuncTree) → (at : Locals) → IsFunctionIn s.world (is_init f) no_locals f.tree.decls g at →
        ((q : TokenQuestion) → FunctionAsks s.world at g q → OpenIsKnown arity s (slots_of s.world g) q) →
        IsBalanced arity 0 (body_lines s (slots_of s.world g) (length (result_types g.result)) g.body) 0 }
{}
