//! Laws of the identifiers at places and bytes, and of the ways in which an identifier is bound.
ghost use Rattle.std.specs.Prelude.{ℕ, ◌≡◌, ◌<◌, List};
ghost use Rattle.base_files.specs.Workspace.{Workspace};
ghost use Rattle.types_declared.specs.Package.{Package};
ghost use Rattle.workspace_check.specs.Verdicts.{Verdicts};
ghost use Rattle.refs_binding.specs.declared.declaration.Declaration.{Declaration};
ghost use Rattle.refs_binding.specs.Binding.{BindsByScope, BindsQualified, BindsByMember, DeclaresMember};
ghost use Rattle.refs_binding.specs.Identifiers.{IsInFiles, BeginsAt, HoldsByte};
ghost use Rattle.refs_binding.specs.Uses.{IsCheckedPackage, IsFilePackage};

/// At most one identifier of a package begins at a place.
pub fn one_identifier_begins()
    ensures { (w : Workspace) → (known : Verdicts) → (p : Package) → IsCheckedPackage w known p → (path : List ℕ) → (offset u v : ℕ) → BeginsAt p path offset u → BeginsAt p path offset v → u ≡ v }
{}

/// At most one identifier of a package holds a byte.
pub fn one_identifier_holds()
    ensures { (w : Workspace) → (known : Verdicts) → (p : Package) → IsCheckedPackage w known p → (path : List ℕ) → (offset u v : ℕ) → HoldsByte p path offset u → HoldsByte p path offset v → u ≡ v }
{}

/// At most one identifier of one package holds a byte of a file.
pub fn one_identifier_at_a_byte()
    ensures { (w : Workspace) → (known : Verdicts) → (path : List ℕ) → (offset : ℕ) → (p q : Package) → (u v : ℕ) → IsFilePackage w known path p → IsFilePackage w known path q →
        HoldsByte p path offset u → HoldsByte q path offset v → (p ≡ q) × (u ≡ v) }
{}

/// Scopes bind an identifier to at most one declaration.
pub fn one_declaration_by_scope()
    ensures { (w : Workspace) → (known : Verdicts) → (p : Package) → IsCheckedPackage w known p → (u : ℕ) → (d e : Declaration) → BindsByScope p u d → BindsByScope p u e → d ≡ e }
{}

/// A qualified identifier is bound to at most one declaration.
pub fn one_declaration_by_package()
    ensures { (w : Workspace) → (known : Verdicts) → (p : Package) → IsCheckedPackage w known p → (u : ℕ) → (d e : Declaration) →
        BindsQualified (IsCheckedPackage w known) p u d → BindsQualified (IsCheckedPackage w known) p u e → d ≡ e }
{}

/// An identifier that scopes bind is not bound as `N` in a qualified identifier `q.N`.
pub fn scopes_exclude_packages()
    ensures { (w : Workspace) → (known : Verdicts) → (p : Package) → (u : ℕ) → (d e : Declaration) → BindsByScope p u d → BindsQualified (IsCheckedPackage w known) p u e → ⊥ }
{}

/// The declaring identifier of a field or method is bound by no scope, and is not `N` in a qualified identifier `q.N`.
pub fn member_names_exclude_other_ways()
    ensures scopes { (w : Workspace) → (known : Verdicts) → (p : Package) → IsCheckedPackage w known p → (u : ℕ) → (d e : Declaration) → u < p.size →
        DeclaresMember p u d → BindsByScope p u e → ⊥ }
    ensures packages { (w : Workspace) → (known : Verdicts) → (p : Package) → IsCheckedPackage w known p → (u : ℕ) → (d e : Declaration) → u < p.size →
        DeclaresMember p u d → BindsQualified (IsCheckedPackage w known) p u e → ⊥ }
{}

/// As a use of a member, an identifier is bound to at most one declaration.
pub fn one_declaration_by_member()
    ensures { (w : Workspace) → (known : Verdicts) → (p : Package) → IsCheckedPackage w known p → (u : ℕ) → (d e : Declaration) → BindsByMember p u d → BindsByMember p u e → d ≡ e }
{}

/// A use of a member is bound by no scope, and is not the declaring identifier of a field or method.
pub fn used_members_exclude_other_ways()
    ensures scopes { (w : Workspace) → (known : Verdicts) → (p : Package) → IsCheckedPackage w known p → (u : ℕ) → (d e : Declaration) → IsInFiles p u →
        BindsByMember p u d → BindsByScope p u e → ⊥ }
    ensures names { (w : Workspace) → (known : Verdicts) → (p : Package) → IsCheckedPackage w known p → (u : ℕ) → (d e : Declaration) → IsInFiles p u →
        BindsByMember p u d → DeclaresMember p u e → ⊥ }
{}
