//! Parses lists without brackets: of names, identifiers or literals.
ghost use Rattle.std.specs.Prelude.{◌∷◌, [], IfOk};
ghost use Rattle.go_ast.specs.Grammar.{A, One, is, is_ident, is_literal, MoreNames, MoreIdents, MoreLiterals};
ghost use Rattle.go_parser.specs.Parsing.{Parses};
ghost use Rattle.go_parser.specs.Spelling.{names_spelled, idents_spelled};
ghost use Rattle.go_parser.specs.ListSpelling.{basics_spelled};
ghost use Rattle.go_ast.specs.WellFormed.{IsList, Any};
ghost use Rattle.go_ast.specs.View.{list_view, ident_view};
ghost use Rattle.go_ast.specs.FileView.{same_index, basic_view};

use crate::short_lists::push;
use crate::token_classes::{basic_lit, ident};
use crate::tokens::{Parsed, expect, separator};
use go_ast::syntax::{Kind, Token};
use go_ast::tree::{BasicLit, Ident, Item};
use std::alloc::Global;

/// Parses one or more names, separated by commas.
pub(crate) fn names(alloc: Global, tokens: &[Token], depth: u32) -> Parsed<'_, Vec<Item<u32>>>
    ensures exact { Parses (One (is Kind.Name) ∷ A MoreNames ∷ []) (λ x. names_spelled x.0.items) (λ x. x.1.now) depth tokens.now result }
    ensures formed { IfOk result (λ x. IsList Any (list_view same_index x.0.items)) }
{
    let mut names = Vec::new(alloc);
    let mut rest = tokens;
    let mut more = true;
    'names: while more {
        let (value, after) = expect(rest, Kind::Name, depth)?;
        let (separator, after) = separator(after, Kind::Comma);
        more = separator.is_some();
        push(&mut names, Item { value, separator })?;
        rest = after;
    }
    Ok((names, rest))
}

/// Parses one or more identifiers, names or `_`, separated by commas.
pub(crate) fn idents(alloc: Global, tokens: &[Token], depth: u32) -> Parsed<'_, Vec<Item<Ident>>>
    ensures exact { Parses (One is_ident ∷ A MoreIdents ∷ []) (λ x. idents_spelled x.0.items) (λ x. x.1.now) depth tokens.now result }
    ensures formed { IfOk result (λ x. IsList Any (list_view ident_view x.0.items)) }
{
    let mut idents = Vec::new(alloc);
    let mut rest = tokens;
    let mut more = true;
    'idents: while more {
        let (value, after) = ident(rest, depth)?;
        let (separator, after) = separator(after, Kind::Comma);
        more = separator.is_some();
        push(&mut idents, Item { value, separator })?;
        rest = after;
    }
    Ok((idents, rest))
}

/// Parses one or more literals of one token, separated by commas.
pub(crate) fn literals(
    alloc: Global,
    tokens: &[Token],
    depth: u32,
) -> Parsed<'_, Vec<Item<BasicLit>>>
    ensures exact { Parses (One is_literal ∷ A MoreLiterals ∷ []) (λ x. basics_spelled x.0.items) (λ x. x.1.now) depth tokens.now result }
    ensures formed { IfOk result (λ x. IsList Any (list_view basic_view x.0.items)) }
{
    let mut literals = Vec::new(alloc);
    let mut rest = tokens;
    let mut more = true;
    'literals: while more {
        let (value, after) = basic_lit(rest, depth)?;
        let (separator, after) = separator(after, Kind::Comma);
        more = separator.is_some();
        push(&mut literals, Item { value, separator })?;
        rest = after;
    }
    Ok((literals, rest))
}
