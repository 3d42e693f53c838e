//! Laws of worlds and of names, whose only premise is a workspace without faults.
ghost use Rattle.std.specs.Prelude.{ℕ, ◌≡◌, true, false, List, [], Some, slice_get};
ghost use Rattle.base_files.specs.Workspace.{Workspace};
ghost use Rattle.go_ast.specs.SourceFile.{SourceFile};
ghost use Rattle.go_ast.specs.Tree.{ReceiverTree};
ghost use Rattle.go_scope.specs.Table.{LiesAt};
ghost use Rattle.types_expr.specs.Types.{PlainType, Signature};
ghost use Rattle.types_expr.specs.World.{World};
ghost use Rattle.law_typing.specs.Declarations.{FileIsTyped};
ghost use Rattle.types_declared.specs.MeaningOf.{HasSignature};
ghost use Rattle.types_declared.specs.Definitions.{IsMethodOf};
ghost use Rattle.types_declared.specs.Package.{Package, PlacedVariable, PlacedFunction, package_variables, package_functions, function_place, spelled};
ghost use Rattle.types_declared.specs.Written.{IsBroken, IsTypeOf};
ghost use Rattle.types_info.specs.Worlds.{IsWorldOf, is_init};
ghost use Rattle.workspace_check.specs.FaultLists.{ListsFaults};
ghost use Rattle.workspace_check.specs.Verdicts.{Verdicts, AreVerdicts};
ghost use Rattle.refs_binding.specs.declared.declaration.Declaration.{Declaration};
ghost use Rattle.refs_binding.specs.Identifiers.{IsInFiles, named_by};
ghost use Rattle.refs_binding.specs.Uses.{IsCheckedPackage, IsBoundToDeclaration, HasNoDeclaration};
ghost use Rattle.law_faultless.specs.MemberNames.{IsMemberName};
ghost use Rattle.law_faultless.specs.NameMeanings.{HaveMeanings};
ghost use Rattle.law_faultless.specs.Unbroken.{IsUnbroken};
ghost use Rattle.law_faultless.specs.Worlds.{HaveAllWorlds};
ghost use Rattle.law_faultless.specs.Roles.{is_bound_role, is_ever_bound};

/// In a workspace without faults each file of a package has a world, by which it is judged.
pub fn packages_have_worlds()
    ensures { (w : Workspace) → ListsFaults w [] → (known : Verdicts) → AreVerdicts w known → HaveAllWorlds w known }
{}

/// In a workspace without faults the names of each file mean something in its world.
pub fn names_have_meanings()
    ensures { (w : Workspace) → ListsFaults w [] → (known : Verdicts) → AreVerdicts w known → (p : Package) → IsCheckedPackage w known p →
        (file : ℕ) → (s : SourceFile) → slice_get p.files file ≡ Some s → (v : World) → IsWorldOf p file s v → HaveMeanings p file v s }
{}

/// In a workspace without faults each file keeps the typing rules.
pub fn files_keep_the_rules()
    ensures { (w : Workspace) → ListsFaults w [] → (known : Verdicts) → AreVerdicts w known → (p : Package) → IsCheckedPackage w known p →
        (file : ℕ) → (s : SourceFile) → slice_get p.files file ≡ Some s → (v : World) → IsWorldOf p file s v → FileIsTyped v (is_init s) s.tree }
{}

/// In a workspace without faults each member name is bound to a field or a method. A member name is the selector of a selection that is no
/// qualified identifier, or a key of a composite literal.
pub fn member_names_are_bound()
    ensures { (w : Workspace) → ListsFaults w [] → (known : Verdicts) → AreVerdicts w known → (p : Package) → IsCheckedPackage w known p →
        (u : ℕ) → IsInFiles p u → IsMemberName p u → (d : Declaration) × IsBoundToDeclaration w known p u d }
{}

/// In a workspace without faults each identifier is bound that declares, is a lexical use, stands behind a dot or is a key.
pub fn identifiers_are_bound()
    ensures { (w : Workspace) → ListsFaults w [] → (known : Verdicts) → AreVerdicts w known → (p : Package) → IsCheckedPackage w known p →
        (u : ℕ) → IsInFiles p u → is_bound_role (p.layout.role u) ≡ true → (d : Declaration) × IsBoundToDeclaration w known p u d }
{}

/// In a workspace without faults no declaration is broken: no type definition is, each variable has a type, and each function and method
/// has a signature. Each function with a receiver is a method of a type definition of its package, and its name is bound.
pub fn nothing_is_broken()
    ensures definitions { (w : Workspace) → ListsFaults w [] → (known : Verdicts) → AreVerdicts w known → (p : Package) → IsCheckedPackage w known p →
        (rank : ℕ) → IsBroken p rank → ⊥ }
    ensures variables { (w : Workspace) → ListsFaults w [] → (known : Verdicts) → AreVerdicts w known → (p : Package) → IsCheckedPackage w known p →
        (rank : ℕ) → (v : PlacedVariable) → slice_get (package_variables p) rank ≡ Some v → (t : PlainType) × IsTypeOf p v.file v.type_use t }
    ensures functions { (w : Workspace) → ListsFaults w [] → (known : Verdicts) → AreVerdicts w known → (p : Package) → IsCheckedPackage w known p →
        (rank : ℕ) → (f : PlacedFunction) → slice_get (package_functions p) rank ≡ Some f → (s : Signature) × HasSignature p f s }
    ensures methods { (w : Workspace) → ListsFaults w [] → (known : Verdicts) → AreVerdicts w known → (p : Package) → IsCheckedPackage w known p →
        (rank : ℕ) → (f : PlacedFunction) → slice_get (package_functions p) rank ≡ Some f → (r : ReceiverTree) → f.function.receiver ≡ Some r →
        (definition : ℕ) × IsMethodOf p definition (spelled p f.file f.function.name) rank f }
    ensures bound_methods { (w : Workspace) → ListsFaults w [] → (known : Verdicts) → AreVerdicts w known → (p : Package) → IsCheckedPackage w known p →
        (rank : ℕ) → (f : PlacedFunction) → slice_get (package_functions p) rank ≡ Some f → (r : ReceiverTree) → f.function.receiver ≡ Some r →
        (u : ℕ) → LiesAt p.layout (function_place f) u → ((d : Declaration) → IsBoundToDeclaration w known p u d → ⊥) → ⊥ }
    ensures names { (w : Workspace) → ListsFaults w [] → (known : Verdicts) → AreVerdicts w known → (p : Package) → IsCheckedPackage w known p →
        (file : ℕ) → (s : SourceFile) → (v : World) → IsWorldOf p file s v → IsUnbroken v }
{}

/// In a workspace without faults each identifier is bound, with three exceptions: names in package clauses, names of functions `init`, and
/// each `_` that declares or is assigned. The literal of an import is no identifier here.
pub fn no_identifier_is_unbound()
    ensures { (w : Workspace) → ListsFaults w [] → (known : Verdicts) → AreVerdicts w known → (p : Package) → IsCheckedPackage w known p →
        (u : ℕ) → IsInFiles p u → is_ever_bound (p.layout.role u) ≡ true → ((d : Declaration) → IsBoundToDeclaration w known p u d → ⊥) → ⊥ }
{}

/// In a workspace without faults an identifier without a declaration, which `uses` refuses, is one of these: a name in a package clause, a
/// `_`, the name of a function `init`, or an import's literal.
pub fn undeclared_names_are_few()
    ensures { (w : Workspace) → ListsFaults w [] → (path : List ℕ) → (offset : ℕ) → (h : HasNoDeclaration w path offset) →
        is_ever_bound (h.asked_in.layout.role (named_by h.asked_in.layout h.number)) ≡ false }
{}
