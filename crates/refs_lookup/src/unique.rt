//! Laws of bindings: each identifier has at most one declaration, and identifiers of a workspace without faults have one.
ghost use Rattle.std.specs.Prelude.{ℕ, ◌≡◌, ◌⊎◌, true, List, [], Some, Result, Err, slice_get};
ghost use Rattle.base_files.specs.Workspace.{Workspace};
ghost use Rattle.base_files.specs.declared.place.Place.{Place};
ghost use Rattle.base_files.specs.declared.refusal.Refusal.{Refusal};
ghost use Rattle.base_files.specs.declared.refusal.Refusal.TheVariants.{Memory};
ghost use Rattle.go_scope.specs.Bindings.{MayDeclare, is_use};
ghost use Rattle.go_scope.specs.Table.{LiesAt};
ghost use Rattle.types_declared.specs.Definitions.{PlacedField, package_fields, IsMethodOf};
ghost use Rattle.types_declared.specs.Package.{Package, PlacedFunction, function_place};
ghost use Rattle.workspace_check.specs.FaultLists.{ListsFaults};
ghost use Rattle.workspace_check.specs.Verdicts.{Verdicts, AreVerdicts};
ghost use Rattle.refs_binding.specs.declared.declaration.Declaration.{Declaration};
ghost use Rattle.refs_binding.specs.declared.declaration.Declaration.TheVariants.{Declared};
ghost use Rattle.types_info.specs.QualifiedIdentifiers.{IsQualifiedByPath};
ghost use Rattle.refs_binding.specs.Binding.{BindsQualified, BindsByMember, DeclaresMember, field_place};
ghost use Rattle.refs_binding.specs.Identifiers.{IsInFiles};
ghost use Rattle.refs_binding.specs.Uses.{IsCheckedPackage, IsBoundToDeclaration, IsUseOf, HasDeclaration, ListsUses, AnswersUses};

/// A use of a member is not `N` in a qualified identifier `q.N`.
pub fn used_members_exclude_packages()
    ensures { (w : Workspace) → (known : Verdicts) → (p : Package) → IsCheckedPackage w known p → (u : ℕ) → (d e : Declaration) → IsInFiles p u →
        BindsByMember p u d → BindsQualified (IsCheckedPackage w known) p u e → ⊥ }
{}

/// An identifier is the declaring identifier of at most one field or method.
pub fn one_declaration_by_name()
    ensures { (w : Workspace) → (known : Verdicts) → (p : Package) → IsCheckedPackage w known p → (u : ℕ) → (d e : Declaration) →
        DeclaresMember p u d → DeclaresMember p u e → d ≡ e }
{}

/// An identifier is bound to at most one declaration.
pub fn one_declaration()
    ensures { (w : Workspace) → (known : Verdicts) → (p : Package) → IsCheckedPackage w known p → (u : ℕ) → IsInFiles p u → (d e : Declaration) →
        IsBoundToDeclaration w known p u d → IsBoundToDeclaration w known p u e → d ≡ e }
{}

/// The identifier that begins at a place is bound to at most one declaration. So is the identifier or path literal that holds a byte.
pub fn one_declaration_at_a_place()
    ensures begins { (w : Workspace) → (known : Verdicts) → (place : Place) → (d e : Declaration) → IsUseOf w known d place → IsUseOf w known e place → d ≡ e }
    ensures holds { (w : Workspace) → (known : Verdicts) → (path : List ℕ) → (offset : ℕ) → (d e : Declaration) →
        HasDeclaration w known path offset d → HasDeclaration w known path offset e → d ≡ e }
{}

/// There is at most one list of uses for a byte, and at most one right answer besides running out of memory.
pub fn uses_are_unique()
    ensures lists { (w : Workspace) → (path : List ℕ) → (offset : ℕ) → (places others : List Place) →
        ListsUses w path offset places → ListsUses w path offset others → places ≡ others }
    ensures answers { (w : Workspace) → (path : List ℕ) → (offset : ℕ) → (r s : Result (List Place) Refusal) →
        AnswersUses w path offset r → AnswersUses w path offset s → (r ≡ Err Memory → ⊥) → (s ≡ Err Memory → ⊥) → r ≡ s }
{}

/// In a workspace without faults, each identifier that may declare or is a lexical use is bound to some declaration.
pub fn lexical_names_are_bound()
    ensures { (w : Workspace) → ListsFaults w [] → (known : Verdicts) → AreVerdicts w known → (p : Package) → IsCheckedPackage w known p → (u : ℕ) → IsInFiles p u →
        MayDeclare p.layout u ⊎ (is_use (p.layout.role u) ≡ true) → ((d : Declaration) → IsBoundToDeclaration w known p u d → ⊥) → ⊥ }
{}

/// In a workspace without faults, the declaring identifier of each field, and of each method of a type definition of the package, is bound.
pub fn declared_members_are_bound()
    ensures fields { (w : Workspace) → ListsFaults w [] → (known : Verdicts) → AreVerdicts w known → (p : Package) → IsCheckedPackage w known p →
        (rank : ℕ) → (f : PlacedField) → slice_get (package_fields p) rank ≡ Some f → (u : ℕ) → LiesAt p.layout (field_place f) u →
        ((d : Declaration) → IsBoundToDeclaration w known p u d → ⊥) → ⊥ }
    ensures methods { (w : Workspace) → ListsFaults w [] → (known : Verdicts) → AreVerdicts w known → (p : Package) → IsCheckedPackage w known p →
        (definition rank : ℕ) → (name : List ℕ) → (f : PlacedFunction) → IsMethodOf p definition name rank f →
        (u : ℕ) → LiesAt p.layout (function_place f) u → ((d : Declaration) → IsBoundToDeclaration w known p u d → ⊥) → ⊥ }
{}

/// In a workspace without faults, `N` in a qualified identifier `q.N` is bound to a declaration of the package that `q` names.
pub fn names_behind_packages_are_bound()
    ensures { (w : Workspace) → ListsFaults w [] → (known : Verdicts) → AreVerdicts w known → (p : Package) → IsCheckedPackage w known p → (u : ℕ) → IsInFiles p u →
        (path : List ℕ) → IsQualifiedByPath p u path → (d : ℕ) × IsBoundToDeclaration w known p u (Declared path d) }
{}
