//! The laws of places: the checks find a fault at a token exactly where a typing rule is broken at it.

ghost use Rattle.std.specs.Prelude.{ℕ, ◌≡◌, ◌↔◌, ◌⊎◌, Bool, List, Option, Contains};
ghost use Rattle.go_ast.specs.Tree.{ExprTree, SimpleTree, StatementTree, BlockTree, FuncTree, DeclTree, FileTree};
ghost use Rattle.types_expr.specs.Types.{PlainType};
ghost use Rattle.types_expr.specs.World.{World, Locals};
ghost use Rattle.types_expr.specs.Judge.{judge};
ghost use Rattle.types_stmt.specs.Checked.{FoundSoFar};
ghost use Rattle.types_stmt.specs.Simple.{check_simple};
ghost use Rattle.types_stmt.specs.Statements.{check_statement, check_block};
ghost use Rattle.types_stmt.specs.Headers.{check_function};
ghost use Rattle.types_stmt.specs.Declarations.{check_decl, check_file};
ghost use Rattle.law_typing.specs.Declarations.{FileIsTyped};
ghost use Rattle.law_typing.specs.Excused.{FileIsExcused};
ghost use Rattle.law_typing.specs.ExpressionFaults.{BreaksAt};
ghost use Rattle.law_typing.specs.AssignmentFaults.{as_targets};
ghost use Rattle.law_typing.specs.DeclaredLocals.{SimpleDeclares, StatementDeclares, FunctionDeclares};
ghost use Rattle.law_typing.specs.SimpleFaults.{SimpleBreaksAt};
ghost use Rattle.law_typing.specs.StatementFaults.{StatementBreaksAt, BlockBreaksAt};
ghost use Rattle.law_typing.specs.DeclarationFaults.{FunctionBreaksAt, DeclBreaksAt, FileBreaksAt};

/// A fault is found in an expression at exactly the tokens where it breaks a rule.
pub fn faults_of_expressions_stand_at_broken_rules()
    ensures { (w : World) → (locals : Locals) → (e : ExprTree) → (p : ℕ) → Contains (judge w locals e).faults p ↔ BreaksAt w locals e p }
{}

/// A simple statement adds faults at exactly the tokens where it breaks a rule, and drops none that was found before it.
pub fn faults_of_simple_statements_stand_at_broken_rules()
    ensures { (w : World) → (s : FoundSoFar) → (a : SimpleTree) → (p : ℕ) → Contains (check_simple w s a).faults p ↔ (Contains s.faults p ⊎ SimpleBreaksAt w s.locals a p) }
{}

/// The locals that are found after a simple statement, typed or not, are exactly those that it declares.
pub fn simple_statements_declare_what_is_found()
    ensures { (w : World) → (s : FoundSoFar) → (a : SimpleTree) → (after : Locals) → SimpleDeclares w s.locals a after ↔ ((check_simple w s a).locals ≡ after) }
{}

/// A statement adds faults at exactly the tokens where it breaks a rule. `results` are the types of the function's results; a broken one
/// has none.
pub fn faults_of_statements_stand_at_broken_rules()
    ensures { (w : World) → (results : List (Option PlainType)) → (s : FoundSoFar) → (x : StatementTree) → (p : ℕ) → Contains (check_statement w (as_targets results) s x).faults p ↔ (Contains s.faults p ⊎ StatementBreaksAt w results s.locals x p) }
{}

/// The locals that are found after a statement, typed or not, are exactly those that it declares.
pub fn statements_declare_what_is_found()
    ensures { (w : World) → (results : List (Option PlainType)) → (s : FoundSoFar) → (x : StatementTree) → (after : Locals) → StatementDeclares w s.locals x after ↔ ((check_statement w (as_targets results) s x).locals ≡ after) }
{}

/// A block adds faults at exactly the tokens where it breaks a rule.
pub fn faults_of_blocks_stand_at_broken_rules()
    ensures { (w : World) → (results : List (Option PlainType)) → (s : FoundSoFar) → (x : BlockTree) → (p : ℕ) → Contains (check_block w (as_targets results) s x).faults p ↔ (Contains s.faults p ⊎ BlockBreaksAt w results s.locals x p) }
{}

/// A function adds faults at exactly the tokens where it breaks a rule.
pub fn faults_of_functions_stand_at_broken_rules()
    ensures { (w : World) → (is_init : Bool) → (s : FoundSoFar) → (f : FuncTree) → (p : ℕ) → Contains (check_function w is_init s f).faults p ↔ (Contains s.faults p ⊎ FunctionBreaksAt w is_init s.locals f p) }
{}

/// The locals that are found after a function, typed or not, are exactly those that it declares.
pub fn functions_declare_what_is_found()
    ensures { (w : World) → (is_init : Bool) → (s : FoundSoFar) → (f : FuncTree) → (after : Locals) → FunctionDeclares w s.locals f after ↔ ((check_function w is_init s f).locals ≡ after) }
{}

/// A package-level declaration adds faults at exactly the tokens where it breaks a rule.
pub fn faults_of_declarations_stand_at_broken_rules()
    ensures { (w : World) → (is_init : ℕ → Bool) → (s : FoundSoFar) → (d : DeclTree) → (p : ℕ) → Contains (check_decl w is_init s d).faults p ↔ (Contains s.faults p ⊎ DeclBreaksAt w is_init s.locals d p) }
{}

/// A type fault is found in a file at exactly the tokens where the file breaks a rule.
pub fn faults_of_files_stand_at_broken_rules()
    ensures { (w : World) → (is_init : ℕ → Bool) → (f : FileTree) → (p : ℕ) → Contains (check_file w is_init f).faults p ↔ FileBreaksAt w is_init f p }
{}

/// A file that keeps the typing rules breaks none.
pub fn typed_files_break_no_rule()
    ensures { (w : World) → (is_init : ℕ → Bool) → (f : FileTree) → (p : ℕ) → FileIsTyped w is_init f → FileBreaksAt w is_init f p → ⊥ }
{}

/// A file that breaks no rule keeps the typing rules, or is excused.
pub fn files_that_break_no_rule_are_typed()
    ensures { (w : World) → (is_init : ℕ → Bool) → (f : FileTree) → ((p : ℕ) → FileBreaksAt w is_init f p → ⊥) → FileIsTyped w is_init f ⊎ FileIsExcused w is_init f }
{}
