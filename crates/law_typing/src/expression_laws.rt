//! The laws of typing of expressions: `judge` finds exactly what the typing rules give.

ghost use Rattle.std.specs.Prelude.{◌≡◌, ◌↔◌, ◌⊎◌, [], All};
ghost use Rattle.go_ast.specs.Tree.{ExprTree};
ghost use Rattle.types_expr.specs.Types.{Meaning};
ghost use Rattle.types_expr.specs.World.{World, Locals};
ghost use Rattle.types_expr.specs.Judge.{judge};
ghost use Rattle.law_typing.specs.Meanings.{HasMeaning};
ghost use Rattle.law_typing.specs.IsJudgedAs.{IsJudgedAs};
ghost use Rattle.law_typing.specs.BrokenUses.{UsesBroken};
ghost use Rattle.law_typing.specs.Faults.{HasFault};

/// An expression has a meaning by the typing rules exactly where `judge` finds this meaning and no fault.
pub fn expressions_are_judged_by_the_rules()
    ensures { (w : World) → (locals : Locals) → (e : ExprTree) → (m : Meaning) → HasMeaning w locals e m ↔ IsJudgedAs (judge w locals e) m }
{}

/// An expression has at most one meaning.
pub fn meanings_are_unique()
    ensures { (w : World) → (locals : Locals) → (e : ExprTree) → (m n : Meaning) → HasMeaning w locals e m → HasMeaning w locals e n → m ≡ n }
{}

/// An expression in which no fault is found has a meaning, unless it uses something broken.
pub fn meaningless_expressions_are_refused()
    ensures { (w : World) → (locals : Locals) → (e : ExprTree) → (judge w locals e).faults ≡ [] → ((m : Meaning) × HasMeaning w locals e m) ⊎ UsesBroken w locals e }
{}

/// Each fault that is found in an expression is at a part that breaks a rule, though its own parts break none.
pub fn faults_stand_at_broken_rules()
    ensures { (w : World) → (locals : Locals) → (e : ExprTree) → All (λ p. HasFault w locals e p) (judge w locals e).faults }
{}

/// Where an expression uses nothing broken, it has a meaning exactly where no fault is found in it.
pub fn faultless_expressions_have_meanings()
    ensures { (w : World) → (locals : Locals) → (e : ExprTree) → (UsesBroken w locals e → ⊥) → ((judge w locals e).faults ≡ []) ↔ ((m : Meaning) × HasMeaning w locals e m) }
{}
