//! The laws of typing of statements, functions, declarations and files: the checks find no fault exactly where the typing rules are kept.

ghost use Rattle.std.specs.Prelude.{ℕ, ◌≡◌, ◌↔◌, ◌⊎◌, Bool, List, []};
ghost use Rattle.go_ast.specs.Tree.{ExprTree, SimpleTree, StatementTree, BlockTree, FuncTree, DeclTree, FileTree};
ghost use Rattle.types_expr.specs.Types.{PlainType, Meaning};
ghost use Rattle.types_expr.specs.World.{World, Locals};
ghost use Rattle.law_typing.specs.Meanings.{HasMeaning};
ghost use Rattle.law_typing.specs.BrokenUses.{UsesBroken};
ghost use Rattle.types_stmt.specs.Checked.{FoundSoFar};
ghost use Rattle.types_stmt.specs.Simple.{check_simple};
ghost use Rattle.types_stmt.specs.Statements.{check_statement, check_block};
ghost use Rattle.types_stmt.specs.Headers.{check_function};
ghost use Rattle.types_stmt.specs.Declarations.{check_decl, check_file};
ghost use Rattle.law_typing.specs.Simple.{SimpleIsTyped};
ghost use Rattle.law_typing.specs.Statements.{StatementIsTyped, BlockIsTyped};
ghost use Rattle.law_typing.specs.Declarations.{FunctionIsTyped, DeclIsTyped, FileIsTyped};
ghost use Rattle.law_typing.specs.Excused.{SimpleIsExcused, StatementIsExcused, BlockIsExcused, FunctionIsExcused, DeclIsExcused, FileIsExcused};
ghost use Rattle.law_typing.specs.IsFaultlessWith.{IsFaultlessWith, typed_targets};

/// An expression that has a meaning uses nothing broken.
pub fn expressions_with_meanings_use_nothing_broken()
    ensures { (w : World) → (locals : Locals) → (e : ExprTree) → (m : Meaning) → HasMeaning w locals e m → UsesBroken w locals e → ⊥ }
{}

/// In a typed simple statement no fault is found, and the locals found after it are those of the typing rules.
pub fn typed_simple_statements_have_no_fault()
    ensures { (w : World) → (s : FoundSoFar) → (a : SimpleTree) → (after : Locals) → s.faults ≡ [] → SimpleIsTyped w s.locals a after → IsFaultlessWith (check_simple w s a) after }
{}

/// A simple statement in which no fault is found is typed or excused.
pub fn simple_statements_without_fault_are_typed()
    ensures { (w : World) → (s : FoundSoFar) → (a : SimpleTree) → (check_simple w s a).faults ≡ [] → SimpleIsTyped w s.locals a (check_simple w s a).locals ⊎ SimpleIsExcused w s.locals a }
{}

/// A typed simple statement is not excused.
pub fn typed_simple_statements_are_not_excused()
    ensures { (w : World) → (before after : Locals) → (a : SimpleTree) → SimpleIsTyped w before a after → SimpleIsExcused w before a → ⊥ }
{}

/// In a typed statement no fault is found, and the locals found after it are those of the typing rules.
pub fn typed_statements_have_no_fault()
    ensures { (w : World) → (results : List PlainType) → (s : FoundSoFar) → (x : StatementTree) → (after : Locals) → s.faults ≡ [] → StatementIsTyped w results s.locals x after → IsFaultlessWith (check_statement w (typed_targets results) s x) after }
{}

/// A statement in which no fault is found is typed or excused.
pub fn statements_without_fault_are_typed()
    ensures { (w : World) → (results : List PlainType) → (s : FoundSoFar) → (x : StatementTree) → (check_statement w (typed_targets results) s x).faults ≡ [] → StatementIsTyped w results s.locals x (check_statement w (typed_targets results) s x).locals ⊎ StatementIsExcused w results s.locals x }
{}

/// The typing rules determine the locals after a statement.
pub fn typed_statements_have_one_outcome()
    ensures { (w : World) → (results : List PlainType) → (before after other : Locals) → (x : StatementTree) → StatementIsTyped w results before x after → StatementIsTyped w results before x other → after ≡ other }
{}

/// A typed statement is not excused.
pub fn typed_statements_are_not_excused()
    ensures { (w : World) → (results : List PlainType) → (before after : Locals) → (x : StatementTree) → StatementIsTyped w results before x after → StatementIsExcused w results before x → ⊥ }
{}

/// In a typed block no fault is found, and the locals found after it are those of the typing rules.
pub fn typed_blocks_have_no_fault()
    ensures { (w : World) → (results : List PlainType) → (s : FoundSoFar) → (x : BlockTree) → (after : Locals) → s.faults ≡ [] → BlockIsTyped w results s.locals x after → IsFaultlessWith (check_block w (typed_targets results) s x) after }
{}

/// A block in which no fault is found is typed or excused.
pub fn blocks_without_fault_are_typed()
    ensures { (w : World) → (results : List PlainType) → (s : FoundSoFar) → (x : BlockTree) → (check_block w (typed_targets results) s x).faults ≡ [] → BlockIsTyped w results s.locals x (check_block w (typed_targets results) s x).locals ⊎ BlockIsExcused w results s.locals x }
{}

/// A typed block is not excused.
pub fn typed_blocks_are_not_excused()
    ensures { (w : World) → (results : List PlainType) → (before after : Locals) → (x : BlockTree) → BlockIsTyped w results before x after → BlockIsExcused w results before x → ⊥ }
{}

/// In a typed function no fault is found, and the locals found after it are those of the typing rules.
pub fn typed_functions_have_no_fault()
    ensures { (w : World) → (is_init : Bool) → (s : FoundSoFar) → (f : FuncTree) → (after : Locals) → s.faults ≡ [] → FunctionIsTyped w is_init s.locals f after → IsFaultlessWith (check_function w is_init s f) after }
{}

/// A function in which no fault is found is typed or excused.
pub fn functions_without_fault_are_typed()
    ensures { (w : World) → (is_init : Bool) → (s : FoundSoFar) → (f : FuncTree) → (check_function w is_init s f).faults ≡ [] → FunctionIsTyped w is_init s.locals f (check_function w is_init s f).locals ⊎ FunctionIsExcused w s.locals f }
{}

/// A typed function is not excused.
pub fn typed_functions_are_not_excused()
    ensures { (w : World) → (is_init : Bool) → (before after : Locals) → (f : FuncTree) → FunctionIsTyped w is_init before f after → FunctionIsExcused w before f → ⊥ }
{}

/// In a typed package-level declaration no fault is found, and the locals found after it are those of the typing rules.
pub fn typed_declarations_have_no_fault()
    ensures { (w : World) → (is_init : ℕ → Bool) → (s : FoundSoFar) → (d : DeclTree) → (after : Locals) → s.faults ≡ [] → DeclIsTyped w is_init s.locals d after → IsFaultlessWith (check_decl w is_init s d) after }
{}

/// A package-level declaration in which no fault is found is typed or excused.
pub fn declarations_without_fault_are_typed()
    ensures { (w : World) → (is_init : ℕ → Bool) → (s : FoundSoFar) → (d : DeclTree) → (check_decl w is_init s d).faults ≡ [] → DeclIsTyped w is_init s.locals d (check_decl w is_init s d).locals ⊎ DeclIsExcused w s.locals d }
{}

/// A typed package-level declaration is not excused.
pub fn typed_declarations_are_not_excused()
    ensures { (w : World) → (is_init : ℕ → Bool) → (before after : Locals) → (d : DeclTree) → DeclIsTyped w is_init before d after → DeclIsExcused w before d → ⊥ }
{}

/// In a typed file no type fault is found.
pub fn typed_files_have_no_fault()
    ensures { (w : World) → (is_init : ℕ → Bool) → (f : FileTree) → FileIsTyped w is_init f → (check_file w is_init f).faults ≡ [] }
{}

/// A file in which no type fault is found is typed, or is excused because it uses something broken.
pub fn files_without_fault_are_typed()
    ensures { (w : World) → (is_init : ℕ → Bool) → (f : FileTree) → (check_file w is_init f).faults ≡ [] → FileIsTyped w is_init f ⊎ FileIsExcused w is_init f }
{}

/// A typed file is not excused.
pub fn typed_files_are_not_excused()
    ensures { (w : World) → (is_init : ℕ → Bool) → (f : FileTree) → FileIsTyped w is_init f → FileIsExcused w is_init f → ⊥ }
{}

/// In a file that is not excused, no type fault is found exactly where the file is typed.
pub fn files_are_checked_by_the_rules()
    ensures { (w : World) → (is_init : ℕ → Bool) → (f : FileTree) → (FileIsExcused w is_init f → ⊥) → ((check_file w is_init f).faults ≡ []) ↔ FileIsTyped w is_init f }
{}

/// A file is typed exactly where no type fault is found in it and it is not excused.
pub fn typed_files_are_those_without_fault_or_excuse()
    ensures { (w : World) → (is_init : ℕ → Bool) → (f : FileTree) → FileIsTyped w is_init f ↔ (((check_file w is_init f).faults ≡ []) × (FileIsExcused w is_init f → ⊥)) }
{}
