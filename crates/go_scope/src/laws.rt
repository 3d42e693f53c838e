//! Laws of scopes and bindings.

ghost use Rattle.std.specs.Prelude.{ℕ, List, Option, ◌≡◌, ◌↔◌, ◌⊎◌};
ghost use Rattle.go_scope.specs.declared.model.Position.{Position};
ghost use Rattle.go_scope.specs.declared.model.Block.TheVariants.{File, Inner};
ghost use Rattle.go_scope.specs.Scopes.{Holds, IsInside};
ghost use Rattle.go_scope.specs.Site.{sites_layout};
ghost use Rattle.go_scope.specs.FileSites.{SpelledFile, package_sites};
ghost use Rattle.go_scope.specs.Trees.{AreNumbered};
ghost use Rattle.go_scope.specs.Bindings.{Layout, Names, BindsAt, IsBoundTo, IsUse, Counts, MayDeclare, IsLeftName, Declares, SameBlock, InScope, scope_of, block_of};
ghost use Rattle.go_scope.specs.Named.{with_names};
ghost use Rattle.go_scope.specs.Packages.{ScopedPackage, layout_in, names_in};
ghost use Rattle.go_scope.specs.WellFormed.{WellFormed};
ghost use Rattle.go_scope.specs.Moves.{IsMoved};

/// An identifier is bound to at most one declaration.
pub fn bindings_are_unique()
    ensures { (l : Layout) → WellFormed l → (names : Names) → (u d e : ℕ) → IsBoundTo l names u d → IsBoundTo l names u e → d ≡ e }
{}

/// Bindings stay where positions move and keep their order.
pub fn bindings_stay_where_places_move()
    ensures { (m : ℕ → ℕ → ℕ) → (l k : Layout) → IsMoved (λ f i. Unit {0}) m l k → (names : Names) → (u d : ℕ) →
        IsBoundTo l names u d ↔ IsBoundTo k names u d }
{}

/// A left name of `:=` declares unless it is in the scope of a declaration of its name in the same block.
pub fn left_names_declare_by_declarations()
    ensures { (l : Layout) → WellFormed l → (names : Names) → (d : ℕ) → MayDeclare l d →
        (IsLeftName l d → (e : ℕ) → Declares l names e → SameBlock l e d → names e ≡ names d → InScope l e d → ⊥) →
        Declares l names d }
{}

/// The layout of a package's identifiers is well formed, if the tokens of each file are numbered in their order.
pub fn packages_are_well_formed()
    ensures { (files : List SpelledFile) → AreNumbered files → WellFormed (sites_layout (package_sites files)) }
{}

/// A declaring identifier is bound to itself if it counts, and to nothing else.
pub fn declarations_are_bound_to_themselves()
    ensures { (l : Layout) → (names : Names) → (u d : ℕ) → Declares l names u → IsBoundTo l names u d ↔ ((u ≡ d) × Counts l names d) }
{}

/// Of two scopes of declarations that share a position, one lies inside the other.
pub fn scopes_nest_or_are_apart()
    ensures { (l : Layout) → WellFormed l → (d e : ℕ) → MayDeclare l d → MayDeclare l e → (place : Position) →
        Holds (scope_of (l.role d)) place → Holds (scope_of (l.role e)) place →
        IsInside (scope_of (l.role d)) (scope_of (l.role e)) ⊎ IsInside (scope_of (l.role e)) (scope_of (l.role d)) }
{}

/// A use is bound to the import of its name that counts in its file. It must be in the scope of no declaration of that name in an inner
/// block.
pub fn uses_are_bound_to_imports()
    ensures { (l : Layout) → (names : Names) → (u i f : ℕ) → Counts l names i → block_of (l.role i) ≡ File f → names i ≡ names u → (l.place u).file ≡ f →
        IsUse l names u → ((e g a b : ℕ) → Counts l names e → names e ≡ names u → InScope l e u → block_of (l.role e) ≡ Inner g a b → ⊥) →
        IsBoundTo l names u i }
{}

/// Where imports without a name come to declare, a name stays bound to a declaration that is no import. The exception is an import of that
/// name that counts and has a scope inside the declaration's.
pub fn bindings_stay_where_imports_are_named()
    ensures { (names : ℕ → Option (List ℕ)) → (p : ScopedPackage) → WellFormed (layout_in p) → (name : List ℕ) → (u d : ℕ) →
        let laid = with_names names p in
        BindsAt (layout_in p) (names_in p) name u d → ((f : ℕ) → block_of ((layout_in p).role d) ≡ File f → ⊥) →
        ((i f : ℕ) → Counts (layout_in laid) (names_in laid) i → block_of ((layout_in laid).role i) ≡ File f → names_in laid i ≡ name →
        InScope (layout_in laid) i u → IsInside (scope_of ((layout_in laid).role i)) (scope_of ((layout_in laid).role d)) → ⊥) →
        BindsAt (layout_in laid) (names_in laid) name u d }
{}
