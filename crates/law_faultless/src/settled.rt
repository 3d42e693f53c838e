//! Laws of the questions that the code of a package asks, in a workspace without faults: each has an answer.
ghost use Rattle.std.specs.Prelude.{ℕ, ◌≡◌, List, [], Some, length, slice_get, Contains};
ghost use Rattle.base_files.specs.Packages.{package_paths};
ghost use Rattle.base_files.specs.Workspace.{Workspace};
ghost use Rattle.go_ast.specs.SourceFile.{SourceFile};
ghost use Rattle.go_ast.specs.Tree.{FuncTree};
ghost use Rattle.types_expr.specs.World.{Locals, no_locals};
ghost use Rattle.types_declared.specs.MeaningOf.{result_types};
ghost use Rattle.types_declared.specs.Package.{Package, ExportData};
ghost use Rattle.types_info.specs.Worlds.{is_init};
ghost use Rattle.workspace_check.specs.FaultLists.{ListsFaults};
ghost use Rattle.workspace_check.specs.Verdicts.{Verdicts, AreVerdicts};
ghost use Rattle.build_object.specs.Lines.{FunctionName};
ghost use Rattle.build_object.specs.Objects.{Object, ObjectFunction, FunctionOf};
ghost use Rattle.build_object.specs.Slots.{slots_of};
ghost use Rattle.build_object.specs.Source.{Source};
ghost use Rattle.build_object.specs.Sources.{IsSourceOf, IsObjectOf};
ghost use Rattle.build_object.specs.Statements.{body_lines};
ghost use Rattle.law_faultless.specs.QuestionAnswers.{IsAnswered};
ghost use Rattle.law_faultless.specs.Questions.{TokenQuestion};
ghost use Rattle.law_faultless.specs.Stack.{Arity, IsBalanced};
ghost use Rattle.law_faultless.specs.StatementAsking.{FunctionAsks};
ghost use Rattle.law_faultless.specs.TypedFunctions.{IsFunctionIn};
ghost use Rattle.law_faultless.specs.OpenQuestions.{OpenIsKnown};
ghost use Rattle.refs_binding.specs.Uses.{IsCheckedPackage};
ghost use Rattle.build_unit.specs.Units.{AreFilesBelow, IsCompiled};
ghost use Rattle.law_faultless.specs.Arities.{AreArities};
ghost use Rattle.law_faultless.specs.FileFunctions.{IsFunctionOf};

/// In a workspace without faults the functions of all packages, and the methods that interfaces ask for, have arities by their names in
/// objects: no two of a package have one name.
pub fn functions_have_arities()
    ensures { (w : Workspace) → ListsFaults w [] → (known : Verdicts) → AreVerdicts w known →
        (arity : FunctionName → Arity) × AreArities w known arity }
{}

/// In a workspace without faults the code of a function leaves no question open. Each local that it names is its own, and each function has
/// the arity with which it is written. The positions of fields and the names of methods are known. No qualified identifier means a package,
/// and no name the results of a call.
pub fn questions_are_settled()
    ensures { (w : Workspace) → ListsFaults w [] → (known : Verdicts) → AreVerdicts w known →
        (arity : FunctionName → Arity) → AreArities w known arity → (p : Package) → IsCheckedPackage w known p →
        (files_of : List ℕ → List SourceFile) → AreFilesBelow w p.path files_of →
        (file : ℕ) → (f : SourceFile) → slice_get p.files file ≡ Some f → (s : Source) → IsSourceOf p files_of file f s →
        (g : FuncTree) → IsFunctionOf f g → (before : Locals) → (q : TokenQuestion) → FunctionAsks s.world before g q →
        OpenIsKnown arity s (slots_of s.world g) q }
{}

/// In a workspace without faults each question of the code of a function is answered. So no line of its code is left out.
pub fn questions_are_answered()
    ensures { (w : Workspace) → ListsFaults w [] → (known : Verdicts) → AreVerdicts w known →
        (arity : FunctionName → Arity) → AreArities w known arity → (p : Package) → IsCheckedPackage w known p →
        (files_of : List ℕ → List SourceFile) → AreFilesBelow w p.path files_of →
        (file : ℕ) → (f : SourceFile) → slice_get p.files file ≡ Some f → (s : Source) → IsSourceOf p files_of file f s →
        (g : FuncTree) → (before : Locals) → IsFunctionIn s.world (is_init f) no_locals f.tree.decls g before →
        (q : TokenQuestion) → FunctionAsks s.world before g q → IsAnswered arity s (slots_of s.world g) q }
{}

/// In a workspace without faults the code of each function of each file is balanced.
pub fn functions_are_balanced()
    ensures { (w : Workspace) → ListsFaults w [] → (known : Verdicts) → AreVerdicts w known →
        (arity : FunctionName → Arity) → AreArities w known arity → (p : Package) → IsCheckedPackage w known p →
        (files_of : List ℕ → List SourceFile) → AreFilesBelow w p.path files_of →
        (file : ℕ) → (f : SourceFile) → slice_get p.files file ≡ Some f → (s : Source) → IsSourceOf p files_of file f s →
        (g : FuncTree) → IsFunctionOf f g →
        IsBalanced arity 0 (body_lines s (slots_of s.world g) (length (result_types g.result)) g.body) 0 }
{}

/// In a workspace without faults the code of each function of an object is balanced.
pub fn objects_are_balanced()
    ensures { (w : Workspace) → ListsFaults w [] → (known : Verdicts) → AreVerdicts w known →
        (arity : FunctionName → Arity) → AreArities w known arity → (p : Package) → IsCheckedPackage w known p →
        (files_of : List ℕ → List SourceFile) → AreFilesBelow w p.path files_of → (o : Object) → IsObjectOf p files_of o →
        (f : ObjectFunction) → Contains o.declarations (FunctionOf f) → IsBalanced arity 0 f.code 0 }
{}

/// In a workspace without faults the code of each function is balanced in the object that a package compiles to. The unit of the package
/// has the text of this object.
pub fn units_are_balanced()
    ensures { (w : Workspace) → ListsFaults w [] → (known : Verdicts) → AreVerdicts w known →
        (arity : FunctionName → Arity) → AreArities w known arity → (p : List ℕ) → Contains (package_paths w) p →
        (i : ExportData) → (text : List ℕ) → (u : IsCompiled w p i text) → (f : ObjectFunction) →
        Contains u.is_object.object.declarations (FunctionOf f) → IsBalanced arity 0 f.code 0 }
{}
