//! Laws of member names: names behind a dot and keys of composite literals are bound to fields and methods.
ghost use Rattle.std.specs.Prelude.{ℕ, ◌≡◌, List, [], Some, slice_get};
ghost use Rattle.base_files.specs.Workspace.{Workspace};
ghost use Rattle.go_ast.specs.SourceFile.{SourceFile};
ghost use Rattle.go_ast.specs.Tree.{ReceiverTree};
ghost use Rattle.go_scope.specs.FileSites.{file_sites};
ghost use Rattle.go_scope.specs.Site.{TokenSpellings};
ghost use Rattle.go_scope.specs.Table.{LiesAt};
ghost use Rattle.types_expr.specs.Judge.{MemberUse};
ghost use Rattle.types_expr.specs.Types.{PlainType, Signature};
ghost use Rattle.types_expr.specs.World.{World};
ghost use Rattle.law_typing.specs.Declarations.{FileIsTyped};
ghost use Rattle.law_typing.specs.Excused.{FileIsExcused};
ghost use Rattle.types_declared.specs.MeaningOf.{HasSignature};
ghost use Rattle.types_declared.specs.Definitions.{IsMethodOf};
ghost use Rattle.types_declared.specs.Package.{Package, PlacedVariable, PlacedFunction, package_variables, package_functions, function_place, spelled};
ghost use Rattle.types_declared.specs.Written.{IsBroken, IsTypeOf};
ghost use Rattle.types_info.specs.MemberUses.{AreUsesIn};
ghost use Rattle.types_info.specs.Worlds.{IsWorldOf, is_init};
ghost use Rattle.workspace_check.specs.FaultLists.{ListsFaults};
ghost use Rattle.workspace_check.specs.Verdicts.{Verdicts, AreVerdicts};
ghost use Rattle.refs_binding.specs.declared.declaration.Declaration.{Declaration};
ghost use Rattle.refs_binding.specs.Binding.{BindsByMember};
ghost use Rattle.refs_binding.specs.Identifiers.{IsInFiles};
ghost use Rattle.refs_binding.specs.Uses.{IsCheckedPackage, IsBoundToDeclaration};
ghost use Rattle.law_faultless.specs.MemberNames.{IsMemberName};
ghost use Rattle.law_faultless.specs.NameMeanings.{HaveMeanings};
ghost use Rattle.law_faultless.specs.ResolvedNames.{AreResolved, IsBlankAt};
ghost use Rattle.law_faultless.specs.Unbroken.{IsUnbroken};
ghost use Rattle.law_faultless.specs.Worlds.{HaveWorlds, HaveAllWorlds};

/// In a file that keeps the typing rules each member name is bound to a field or a method. A member name is the selector of a selection
/// that is no qualified identifier, or a key of a composite literal.
pub fn member_names_of_typed_files_are_bound()
    ensures { (w : Workspace) → (known : Verdicts) → (p : Package) → IsCheckedPackage w known p → (u : ℕ) → IsInFiles p u → IsMemberName p u →
        (uses : List MemberUse) → (a : AreUsesIn p (p.layout.place u).file uses) → FileIsTyped a.world (is_init a.source) a.source.tree →
        (d : Declaration) × BindsByMember p u d }
{}

/// In a workspace without faults each member name of a file that uses nothing broken is bound to a field or a method.
pub fn member_names_are_bound_unless_excused()
    ensures { (w : Workspace) → ListsFaults w [] → (known : Verdicts) → AreVerdicts w known → (p : Package) → IsCheckedPackage w known p → (u : ℕ) → IsInFiles p u →
        IsMemberName p u → (uses : List MemberUse) → (a : AreUsesIn p (p.layout.place u).file uses) →
        (FileIsExcused a.world (is_init a.source) a.source.tree → ⊥) → (d : Declaration) × IsBoundToDeclaration w known p u d }
{}

/// In a workspace without faults no declaration is broken: no type definition is, each variable has a type, and each function and method
/// has a signature.
pub fn declarations_are_whole()
    ensures definitions { (w : Workspace) → ListsFaults w [] → (known : Verdicts) → AreVerdicts w known → (p : Package) → IsCheckedPackage w known p →
        HaveWorlds p → (rank : ℕ) → IsBroken p rank → ⊥ }
    ensures variables { (w : Workspace) → ListsFaults w [] → (known : Verdicts) → AreVerdicts w known → (p : Package) → IsCheckedPackage w known p →
        HaveWorlds p → (rank : ℕ) → (v : PlacedVariable) → slice_get (package_variables p) rank ≡ Some v →
        (t : PlainType) × IsTypeOf p v.file v.type_use t }
    ensures functions { (w : Workspace) → ListsFaults w [] → (known : Verdicts) → AreVerdicts w known → (p : Package) → IsCheckedPackage w known p →
        HaveWorlds p → (rank : ℕ) → (f : PlacedFunction) → slice_get (package_functions p) rank ≡ Some f → (s : Signature) × HasSignature p f s }
{}

/// In a workspace without faults each function with a receiver is a method of a type definition of its package. Its name is bound.
pub fn functions_with_receivers_are_methods()
    ensures are_methods { (w : Workspace) → ListsFaults w [] → (known : Verdicts) → AreVerdicts w known → (p : Package) → IsCheckedPackage w known p →
        HaveWorlds p → (rank : ℕ) → (f : PlacedFunction) → slice_get (package_functions p) rank ≡ Some f →
        (r : ReceiverTree) → f.function.receiver ≡ Some r → (definition : ℕ) × IsMethodOf p definition (spelled p f.file f.function.name) rank f }
    ensures are_bound { (w : Workspace) → ListsFaults w [] → (known : Verdicts) → AreVerdicts w known → (p : Package) → IsCheckedPackage w known p →
        HaveWorlds p → (rank : ℕ) → (f : PlacedFunction) → slice_get (package_functions p) rank ≡ Some f →
        (r : ReceiverTree) → f.function.receiver ≡ Some r → (u : ℕ) → LiesAt p.layout (function_place f) u →
        ((d : Declaration) → IsBoundToDeclaration w known p u d → ⊥) → ⊥ }
{}

/// In a workspace without faults no name of a file is bound to a broken type, variable or function. No member is a broken method, and each
/// variable has a type.
pub fn nothing_broken_is_named()
    ensures { (w : Workspace) → ListsFaults w [] → (known : Verdicts) → AreVerdicts w known → HaveAllWorlds w known →
        (p : Package) → IsCheckedPackage w known p → (file : ℕ) → (s : SourceFile) → (v : World) → IsWorldOf p file s v → IsUnbroken v }
{}

/// In a workspace without faults a file whose names are resolved keeps the typing rules. Each lexical use means something, or is a local
/// that was declared before. Each qualified identifier means something.
pub fn files_of_known_names_keep_the_rules()
    ensures { (w : Workspace) → ListsFaults w [] → (known : Verdicts) → AreVerdicts w known → HaveAllWorlds w known →
        (p : Package) → IsCheckedPackage w known p → (file : ℕ) → (uses : List MemberUse) → (a : AreUsesIn p file uses) → (s : TokenSpellings) →
        AreResolved a.world (IsBlankAt a.source) [] (file_sites s a.source.tree) → FileIsTyped a.world (is_init a.source) a.source.tree }
{}

/// In a workspace without faults each member name of a file is bound to a field or a method, if the file's names mean something.
pub fn member_names_are_bound_where_names_mean()
    ensures { (w : Workspace) → ListsFaults w [] → (known : Verdicts) → AreVerdicts w known → HaveAllWorlds w known →
        (p : Package) → IsCheckedPackage w known p → (u : ℕ) → IsInFiles p u → IsMemberName p u →
        (uses : List MemberUse) → (a : AreUsesIn p (p.layout.place u).file uses) → HaveMeanings p (p.layout.place u).file a.world a.source →
        (d : Declaration) × IsBoundToDeclaration w known p u d }
{}
