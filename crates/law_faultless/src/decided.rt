//! Laws of what is decided of names: whether they are bound, and that they mean something or nothing.
ghost use Rattle.std.specs.Prelude.{ℕ, ◌⊎◌};
ghost use Rattle.go_scope.specs.Bindings.{Layout, Names, IsBoundTo};
ghost use Rattle.go_scope.specs.WellFormed.{WellFormed};
ghost use Rattle.types_expr.specs.World.{Bound};
ghost use Rattle.types_declared.specs.Package.{Package};
ghost use Rattle.types_declared.specs.Written.{IsBroken};
ghost use Rattle.types_info.specs.Worlds.{IsName};
ghost use Rattle.law_faultless.specs.Strings.{AreStringsKnown};

/// An identifier of a well-formed layout is bound to a declaration, or to none.
pub fn bindings_are_decided()
    ensures { (l : Layout) → (names : Names) → WellFormed l → (u : ℕ) →
        ((d : ℕ) × IsBoundTo l names u d) ⊎ ((d : ℕ) → IsBoundTo l names u d → ⊥) }
{}

/// The name at each token of a package has a meaning, be it that of a name bound to nothing. The strings of the package have values, and it
/// is decided which type definitions are broken.
pub fn names_are_decided()
    ensures { (p : Package) → WellFormed p.layout → AreStringsKnown p → ((rank : ℕ) → IsBroken p rank ⊎ (IsBroken p rank → ⊥)) →
        (file token : ℕ) → (b : Bound) × IsName p file token b }
{}
