//! Laws of the order of identifiers, and of their tokens and bytes. Each is the contract of a function that does nothing.
ghost use Rattle.std.specs.Prelude.{ℕ, ◌≡◌, ◌<◌, ◌↔◌, List, [], Option, Some, length, map, slice_get, Contains};
ghost use Rattle.base_files.specs.Packages.{package_files};
ghost use Rattle.base_files.specs.Workspace.{Workspace};
ghost use Rattle.workspace_graph.specs.Parsed.{AreParsed};
ghost use Rattle.go_ast.specs.FileView.{file_view};
ghost use Rattle.go_ast.specs.Flatten.{flatten};
ghost use Rattle.go_ast.specs.SourceFile.{SourceFile, FileParts, source_of};
ghost use Rattle.go_ast.specs.Tree.{FileTree};
ghost use Rattle.go_scope.specs.Bindings.{Layout, Names, IsIdentifier, IsBoundTo};
ghost use Rattle.go_scope.specs.FileSites.{SpelledFile, file_sites, package_sites};
ghost use Rattle.go_scope.specs.Named.{with_names};
ghost use Rattle.go_scope.specs.Packages.{ScopedPackage, scoped, layout_in, IsAtPlace};
ghost use Rattle.go_scope.specs.Site.{TokenSpellings, sites_layout};
ghost use Rattle.go_scope.specs.Table.{LiesAt};
ghost use Rattle.go_scope.specs.Trees.{AreNumbered};
ghost use Rattle.go_scope.specs.declared.model.Position.{Position};
ghost use Rattle.go_scope.specs.declared.model.Purpose.{Purpose};
ghost use Rattle.go_scope.specs.declared.model.Purpose.TheVariants.{Member};
ghost use Rattle.go_scope.specs.declared.model.Role.TheVariants.{NotLexical};
ghost use Rattle.law_tokens.specs.Bytes.{CoversByte, AreCut, HaveOwnPaths};
ghost use Rattle.law_tokens.specs.Covered.{CoverTokens, IsIdentifierPlace, HasIdentifierAt, AreSourceFiles};
ghost use Rattle.law_tokens.specs.Roles.{FitsTokens};
ghost use Rattle.law_tokens.specs.MemberNames.{member_names};
ghost use Rattle.law_tokens.specs.Order.{StandInOrder};
ghost use Rattle.law_tokens.specs.Tokens.{identifiers_among};

/// The identifiers of a package are in the order of their numbers, where the tokens of each file are numbered in their order.
pub fn identifiers_stand_in_order()
    ensures { (files : List SpelledFile) → AreNumbered files → StandInOrder (sites_layout (package_sites files)) (length (package_sites files)) }
{}

/// The identifiers of a package stay in the order of their numbers where imports without a name declare the names of their packages.
pub fn named_imports_stand_in_order()
    ensures { (names : ℕ → Option (List ℕ)) → (p : ScopedPackage) → StandInOrder (layout_in p) (length p.sites) → StandInOrder (layout_in (with_names names p)) (length (with_names names p).sites) }
{}

/// Where identifiers are in the order of their numbers, at most one is at a token.
pub fn identifiers_stand_apart()
    ensures { (l : Layout) → (size : ℕ) → StandInOrder l size → (at : Position) → (u v : ℕ) → u < size → v < size → LiesAt l at u → LiesAt l at v → u ≡ v }
{}

/// The identifiers of a file are at exactly its identifier tokens and the string literals of its imports, in order. Their names are the
/// bytes of these.
pub fn sites_cover_tokens()
    ensures { (s : TokenSpellings) → (f : FileTree) → CoverTokens s (file_sites s f) (identifiers_among (flatten f)) }
{}

/// The identifiers of a package are at exactly the identifier tokens of its files and the string literals of their imports.
pub fn identifiers_cover_tokens()
    ensures { (files : List FileParts) → AreSourceFiles files → (at : Position) → IsIdentifierPlace files at ↔ HasIdentifierAt (layout_in (scoped files)) (length (scoped files).sites) at }
{}

/// The tokens that have an identifier stay the same where imports without a name declare the names of their packages.
pub fn named_imports_cover_tokens()
    ensures { (names : ℕ → Option (List ℕ)) → (p : ScopedPackage) → (at : Position) →
        HasIdentifierAt (layout_in p) (length p.sites) at ↔ HasIdentifierAt (layout_in (with_names names p)) (length (with_names names p).sites) at }
{}

/// An identifier of a package is a selector exactly if a dot is before it. It is a composite literal key exactly if a colon is behind it.
pub fn tokens_decide_roles()
    ensures { (files : List FileParts) → AreSourceFiles files → (u : ℕ) →
        let l = layout_in (scoped files) in
        u < length (scoped files).sites → IsIdentifier l u → (f : FileParts) → slice_get files (l.place u).file ≡ Some f →
        FitsTokens f.cut (l.place u).index (l.role u) }
{}

/// The law `tokens_decide_roles`, where imports without a name declare the names of their packages.
pub fn tokens_decide_named_roles()
    ensures { (names : ℕ → Option (List ℕ)) → (files : List FileParts) → AreSourceFiles files → (u : ℕ) →
        let l = layout_in (with_names names (scoped files)) in
        u < length (with_names names (scoped files)).sites → IsIdentifier l u → (f : FileParts) → slice_get files (l.place u).file ≡ Some f →
        FitsTokens f.cut (l.place u).index (l.role u) }
{}

/// The identifier that declares a field or a method has the role of a member.
pub fn member_names_are_members()
    ensures { (files : List FileParts) → AreSourceFiles files → (at : Position) → (f : FileParts) → slice_get files at.file ≡ Some f →
        Contains (member_names (file_view f.file)) at.index → (u : ℕ) →
        let l = layout_in (scoped files) in
        u < length (scoped files).sites → LiesAt l at u → l.role u ≡ NotLexical Member }
{}

/// The law `member_names_are_members`, where imports without a name declare the names of their packages.
pub fn named_member_names_are_members()
    ensures { (names : ℕ → Option (List ℕ)) → (files : List FileParts) → AreSourceFiles files → (at : Position) → (f : FileParts) → slice_get files at.file ≡ Some f →
        Contains (member_names (file_view f.file)) at.index → (u : ℕ) →
        let l = layout_in (with_names names (scoped files)) in
        u < length (with_names names (scoped files)).sites → LiesAt l at u → l.role u ≡ NotLexical Member }
{}

/// No scope binds an identifier whose role is not lexical, such as a selector or a composite literal key.
pub fn nonlexical_roles_are_unbound()
    ensures { (l : Layout) → (names : Names) → (u d : ℕ) → (p : Purpose) → l.role u ≡ NotLexical p → IsBoundTo l names u d → ⊥ }
{}

/// A byte of a file is in at most one identifier.
pub fn bytes_lie_in_one_identifier()
    ensures { (files : List SourceFile) → AreCut files → HaveOwnPaths files → (l : Layout) → (size : ℕ) → StandInOrder l size → (path : List ℕ) → (offset u v : ℕ) →
        u < size → v < size → CoversByte files l path offset u → CoversByte files l path offset v → u ≡ v }
{}

/// At most one identifier of a package begins at a byte.
pub fn identifiers_begin_apart()
    ensures { (files : List FileParts) → AreSourceFiles files → HaveOwnPaths (map source_of files) → (path : List ℕ) → (offset u v : ℕ) →
        let p = scoped files in
        u < length p.sites → v < length p.sites → IsAtPlace p path offset u → IsAtPlace p path offset v → u ≡ v }
{}

/// At most one identifier of a package begins at a byte, also where imports without a name declare the names of their packages.
pub fn named_imports_begin_apart()
    ensures { (names : ℕ → Option (List ℕ)) → (files : List FileParts) → AreSourceFiles files → HaveOwnPaths (map source_of files) → (path : List ℕ) → (offset u v : ℕ) →
        let p = with_names names (scoped files) in
        u < length p.sites → v < length p.sites → IsAtPlace p path offset u → IsAtPlace p path offset v → u ≡ v }
{}

/// The files of a package of a workspace have the trees of their texts, if all have trees, and no two have one path.
pub fn package_files_have_own_paths()
    ensures sources { (w : Workspace) → (path : List ℕ) → (files : List FileParts) → AreParsed (package_files w path) files [] → AreSourceFiles files }
    ensures paths { (w : Workspace) → (path : List ℕ) → (files : List FileParts) → AreParsed (package_files w path) files [] → HaveOwnPaths (map source_of files) }
{}

/// A byte of a file of a package of a workspace is in at most one identifier.
pub fn package_bytes_lie_in_one_identifier()
    ensures { (w : Workspace) → (path : List ℕ) → (files : List FileParts) → AreParsed (package_files w path) files [] → (names : ℕ → Option (List ℕ)) →
        (file : List ℕ) → (offset u v : ℕ) →
        let p = with_names names (scoped files) in
        u < length p.sites → v < length p.sites → CoversByte (map source_of files) (layout_in p) file offset u →
        CoversByte (map source_of files) (layout_in p) file offset v → u ≡ v }
{}
