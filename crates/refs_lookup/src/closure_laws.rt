//! Laws of a package whose closure has the same texts in two workspaces, and of the imports that make a closure.
ghost use Rattle.std.specs.Prelude.{ℕ, ◌≡◌, ◌↔◌, List, Contains, map};
ghost use Rattle.base_files.specs.Packages.{package_paths};
ghost use Rattle.base_files.specs.Path.{folder};
ghost use Rattle.base_files.specs.Workspace.{Workspace};
ghost use Rattle.base_files.specs.declared.place.Place.{Place};
ghost use Rattle.go_ast.specs.Tree.{FileTree, ImportTree};
ghost use Rattle.workspace_graph.specs.FileImports.{import_literals};
ghost use Rattle.types_declared.specs.Files.{imports_in};
ghost use Rattle.types_declared.specs.Package.{Package};
ghost use Rattle.workspace_check.specs.Closures.{HasSameClosure};
ghost use Rattle.workspace_check.specs.Laws.{IsSameVerdict};
ghost use Rattle.workspace_check.specs.Verdicts.{Verdicts, AreVerdicts};
ghost use Rattle.refs_binding.specs.declared.declaration.Declaration.{Declaration};
ghost use Rattle.refs_binding.specs.Uses.{IsCheckedPackage, IsBoundToDeclaration, IsUseOf, HasDeclaration};
ghost use Rattle.refs_lookup.specs.Reached.{HasSameReached};
ghost use Rattle.refs_lookup.specs.Within.{DeclaresWithin, IsDeclaredWithin};

/// If a package and each path that its closure imports have the same files in two workspaces, the closure has the same texts in both. So it
/// suffices to search one of the two workspaces.
pub fn closures_stay()
    ensures { (w : Workspace) → (x : Workspace) → (p : List ℕ) → HasSameReached w x p → HasSameClosure w x p }
{}

/// If the closure of a package has the same texts in two workspaces, it is checked as one `Package` in both: with equal identifiers,
/// declarations and types. Its verdict is equal in both, too.
pub fn packages_stay()
    ensures checked { (w : Workspace) → (x : Workspace) → (before : Verdicts) → (after : Verdicts) → AreVerdicts w before → AreVerdicts x after →
        (p : Package) → HasSameClosure w x p.path → IsCheckedPackage w before p ↔ IsCheckedPackage x after p }
    ensures known { (w : Workspace) → (x : Workspace) → (before : Verdicts) → (after : Verdicts) → AreVerdicts w before → AreVerdicts x after →
        (path : List ℕ) → Contains (package_paths w) path → HasSameClosure w x path → IsSameVerdict (before path) (after path) }
{}

/// If the closure of a package has the same texts in two workspaces, its identifiers are bound to the same declarations in both.
pub fn bindings_stay()
    ensures { (w : Workspace) → (x : Workspace) → (before : Verdicts) → (after : Verdicts) → AreVerdicts w before → AreVerdicts x after →
        (p : Package) → HasSameClosure w x p.path → IsCheckedPackage w before p → (u : ℕ) → (d : Declaration) → IsBoundToDeclaration w before p u d ↔ IsBoundToDeclaration x after p u d }
{}

/// If the closure of a file's package has the same texts in two workspaces, a declaration has the same uses in the file. The identifier at
/// a byte of the file is bound to the same declaration in both.
pub fn uses_stay()
    ensures begins { (w : Workspace) → (x : Workspace) → (before : Verdicts) → (after : Verdicts) → AreVerdicts w before → AreVerdicts x after →
        (place : Place) → HasSameClosure w x (folder place.path) → (d : Declaration) → IsUseOf w before d place ↔ IsUseOf x after d place }
    ensures holds { (w : Workspace) → (x : Workspace) → (before : Verdicts) → (after : Verdicts) → AreVerdicts w before → AreVerdicts x after →
        (path : List ℕ) → HasSameClosure w x (folder path) → (offset : ℕ) → (d : Declaration) →
        HasDeclaration w before path offset d ↔ HasDeclaration x after path offset d }
{}

/// An identifier of a package is bound to a predeclared name or to a declaration in the package's closure. If the closure has the same
/// texts in two workspaces, the declaration has the same place in both.
pub fn declarations_stand()
    ensures within { (w : Workspace) → (known : Verdicts) → AreVerdicts w known → (p : Package) → IsCheckedPackage w known p → (u : ℕ) → (d : Declaration) →
        IsBoundToDeclaration w known p u d → IsDeclaredWithin w known p.path d }
    ensures stay { (w : Workspace) → (x : Workspace) → (before : Verdicts) → (after : Verdicts) → AreVerdicts w before → AreVerdicts x after →
        (path : List ℕ) → HasSameClosure w x path → (d : Declaration) → (place : Place) →
        DeclaresWithin w before path d place ↔ DeclaresWithin x after path d place }
{}

/// The path literals that link a file to other packages are those of the imports that its scopes know.
pub fn imports_agree()
    ensures { (t : FileTree) → import_literals t ≡ map (λ (i : ImportTree). i.path) (imports_in t) }
{}
