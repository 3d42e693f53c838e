//! Laws of type expressions and underlying types: each is unique.
ghost use Rattle.std.specs.Prelude.{◌≡◌, ℕ};
ghost use Rattle.go_scope.specs.WellFormed.{WellFormed};
ghost use Rattle.go_ast.specs.Tree.{TypeTree};
ghost use Rattle.types_expr.specs.Types.{PlainType, Underlying};
ghost use Rattle.types_declared.specs.Package.{Package};
ghost use Rattle.types_declared.specs.Written.{DenotesType};
ghost use Rattle.types_declared.specs.Definitions.{HasUnderlying};

/// A type expression names at most one type.
pub fn types_are_named_once()
    ensures { (p : Package) → WellFormed p.layout → (file : ℕ) (tree : TypeTree) (t u : PlainType) → DenotesType p file tree t → DenotesType p file tree u → t ≡ u }
{}

/// A type has at most one underlying type.
pub fn underlying_types_are_unique()
    ensures { (p : Package) → WellFormed p.layout → (t : PlainType) (u v : Underlying) → HasUnderlying p t u → HasUnderlying p t v → u ≡ v }
{}
