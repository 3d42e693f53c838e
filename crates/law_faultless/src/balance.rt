//! Laws of the stack on which the lines of an object work.
ghost use Rattle.std.specs.Prelude.{ℕ, ◌≡◌, ◌+◌, Bool, List, Some, length, slice_get};
ghost use Rattle.go_ast.specs.Tree.{ExprTree, StatementTree, FuncTree};
ghost use Rattle.go_ast.specs.WellFormed.{IsExpr, IsStatement, IsFunc};
ghost use Rattle.types_expr.specs.Types.{PlainType, ValueKind, Value, Results};
ghost use Rattle.types_expr.specs.World.{Locals};
ghost use Rattle.law_typing.specs.Meanings.{HasMeaning};
ghost use Rattle.law_typing.specs.Statements.{StatementIsTyped};
ghost use Rattle.law_typing.specs.Declarations.{FunctionIsTyped};
ghost use Rattle.types_declared.specs.MeaningOf.{result_types};
ghost use Rattle.build_object.specs.Lines.{FunctionName, CodeLine};
ghost use Rattle.build_object.specs.Source.{Source};
ghost use Rattle.build_object.specs.Slots.{slots_of};
ghost use Rattle.build_object.specs.Expressions.{value_lines};
ghost use Rattle.build_object.specs.Statements.{Exits, statement_lines, body_lines};
ghost use Rattle.law_faultless.specs.Stack.{Arity, IsBalanced, effect};
ghost use Rattle.law_faultless.specs.Machine.{ReachesLine, IsReady};
ghost use Rattle.law_faultless.specs.Questions.{TokenQuestion, Asks};
ghost use Rattle.law_faultless.specs.QuestionAnswers.{IsAnswered};
ghost use Rattle.law_faultless.specs.StatementAsking.{StatementAsks, FunctionAsks};

/// Balanced code runs. Every run reaches a line with one height of the stack, whatever way it takes. Each line finds what it takes: no
/// value is taken from an empty stack, and a call gives as many values as the function has parameters. A return leaves just the results,
/// and the end of a function none.
pub fn balanced_code_runs()
    ensures height { (arity : FunctionName → Arity) → (lines : List CodeLine) → (before after : ℕ) → IsBalanced arity before lines after →
        (i h k : ℕ) → ReachesLine arity lines before i h → ReachesLine arity lines before i k → h ≡ k }
    ensures ready { (arity : FunctionName → Arity) → (lines : List CodeLine) → (before after : ℕ) → IsBalanced arity before lines after →
        (i h : ℕ) → (l : CodeLine) → ReachesLine arity lines before i h → slice_get lines i ≡ Some l → IsReady (effect arity l) h }
{}

/// The code of an expression that is a value leaves one value more on the stack, if each of its questions is answered.
pub fn values_are_balanced()
    ensures { (arity : FunctionName → Arity) → (s : Source) → (slots : List ℕ) → (locals : Locals) → (e : ExprTree) → (k : ValueKind) → (a : Bool) →
        HasMeaning s.world locals e (Value k a) → IsExpr e → ((q : TokenQuestion) → Asks s.world locals e q → IsAnswered arity s slots q) →
        (height : ℕ) → IsBalanced arity height (value_lines s slots e) (height + 1) }
{}

/// The code of a call that has no result, or several, leaves its results on the stack, if each of its questions is answered.
pub fn results_are_balanced()
    ensures { (arity : FunctionName → Arity) → (s : Source) → (slots : List ℕ) → (locals : Locals) → (e : ExprTree) → (ts : List PlainType) →
        HasMeaning s.world locals e (Results ts) → IsExpr e → ((q : TokenQuestion) → Asks s.world locals e q → IsAnswered arity s slots q) →
        (height : ℕ) → IsBalanced arity height (value_lines s slots e) (height + length ts) }
{}

/// The code of a statement that keeps the typing rules leaves the stack empty, wherever it leads. Each of its questions must be answered.
pub fn statements_are_balanced()
    ensures { (arity : FunctionName → Arity) → (s : Source) → (slots : List ℕ) → (results : List PlainType) → (before after : Locals) →
        (x : StatementTree) →
        StatementIsTyped s.world results before x after → IsStatement x → ((q : TokenQuestion) → StatementAsks s.world results before x q →
        IsAnswered arity s slots q) →
        (exits : Exits) → IsBalanced arity 0 (statement_lines s slots (length results) exits x) 0 }
{}

/// The code of a function that keeps the typing rules is balanced, if each of its questions is answered.
pub fn functions_are_balanced()
    ensures { (arity : FunctionName → Arity) → (s : Source) → (is_init : Bool) → (before after : Locals) → (f : FuncTree) →
        FunctionIsTyped s.world is_init before f after → IsFunc f → ((q : TokenQuestion) → FunctionAsks s.world before f q →
        IsAnswered arity s (slots_of s.world f) q) →
        IsBalanced arity 0 (body_lines s (slots_of s.world f) (length (result_types f.result)) f.body) 0 }
{}
