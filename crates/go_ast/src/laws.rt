//! A law of the grammar: a token list has at most one verdict.

ghost use Rattle.std.specs.Prelude.{◌≡◌, List};
ghost use Rattle.go_ast.specs.declared.syntax.Token.{Token};
ghost use Rattle.go_ast.specs.Verdict.{FileVerdict, IsFileVerdict};

/// A token list has at most one verdict: it is a file within the limit of nesting, or it has its first fault at one token.
pub fn one_verdict()
    ensures { (ts : List Token) → (verdict other : FileVerdict) → IsFileVerdict ts verdict → IsFileVerdict ts other → verdict ≡ other }
{}
