//! Laws of the grammar: the predictive machine accepts exactly the files, and a token list has at most one syntax tree.

ghost use Rattle.std.specs.Prelude.{ℕ, ◌≡◌, ◌≤◌, List, [], ◌∷◌};
ghost use Rattle.std.specs.List.{All};
ghost use Rattle.go_ast.specs.declared.syntax.Token.{Token};
ghost use Rattle.go_ast.specs.declared.syntax.TokenFaultKind.TheVariants.{Syntax, Nesting};
ghost use Rattle.go_ast.specs.Grammar.{A, File};
ghost use Rattle.go_parser.specs.Machine.{ParserRun, Stopped, Accepted};
ghost use Rattle.go_ast.specs.Language.{Derives, IsSyntaxFault, IsTooDeep, levels};
ghost use Rattle.go_ast.specs.Tree.{FileTree};
ghost use Rattle.go_ast.specs.WellFormed.{IsTreeOf};

/// A token list that the machine accepts is a file in which no token opens a level over the limit. A token list that it stops at has its
/// first syntax or nesting fault there.
pub fn machine_is_exact()
    ensures taken { (ts : List Token) → ParserRun 0 (A File ∷ []) ts Accepted → Derives (A File ∷ []) ts }
    ensures shallow { (ts : List Token) → ParserRun 0 (A File ∷ []) ts Accepted → (x : Derives (A File ∷ []) ts) → All (λ l. l ≤ 200) (levels 0 x) }
    ensures stopped { (ts : List Token) → (left : ℕ) → ParserRun 0 (A File ∷ []) ts (Stopped Syntax left) → IsSyntaxFault (A File ∷ []) 200 0 ts left }
    ensures nested { (ts : List Token) → (left : ℕ) → ParserRun 0 (A File ∷ []) ts (Stopped Nesting left) → IsTooDeep (A File ∷ []) 200 0 ts left }
{}

/// A token list that has a syntax tree is a file of the grammar.
pub fn tree_is_derived()
    ensures { (tree : FileTree) → (ts : List Token) → IsTreeOf tree ts → Derives (A File ∷ []) ts }
{}

/// A token list has at most one syntax tree.
pub fn one_tree()
    ensures { (tree other : FileTree) → (ts : List Token) → IsTreeOf tree ts → IsTreeOf other ts → tree ≡ other }
{}
