//! Parses groups: one spec, or any number of specs in parentheses.
ghost use Rattle.std.specs.Prelude.{◌∷◌, ◌++◌, [], List, IfOk};
ghost use Rattle.go_ast.specs.Grammar as grammar;
ghost use Rattle.go_ast.specs.Grammar.{A, GroupOf, Single, Items};
ghost use Rattle.go_parser.specs.Parsing.{Parses};
ghost use Rattle.go_ast.specs.Flatten.{sign};
ghost use Rattle.go_parser.specs.ListSpelling.{group_spelled, items_spelled};
ghost use Rattle.go_ast.specs.declared.syntax.Token.{Token};
ghost use Rattle.go_ast.specs.WellFormed.{IsOpenList, IsGroup};
ghost use Rattle.go_ast.specs.View.{list_view, group_view};

use crate::short_lists::push;
use crate::tokens::{Parsed, at, expect, goes_on, open, separator};
use go_ast::syntax::{Kind, Token};
use go_ast::tree::{Group, Item};
use std::alloc::Global;

/// A spec of which a group consists: an import spec, variables of one type, or a type definition.
pub trait Spec: Drop {
    ghost item: { grammar.Item };

    ghost spelled: { Self → List Token };

    ghost is_formed: { Self → Type 0 };

    /// Parses one spec.
    fn parse(alloc: Global, tokens: &[Token], depth: u32) -> Parsed<'_, Self>
        ensures exact { Parses (A (Single item) ∷ []) (λ x. spelled x.0) (λ x. x.1.now) depth tokens.now result }
        ensures formed { IfOk result (λ x. is_formed x.0) };
}

/// Parses a group: one spec, or any number of them in parentheses.
pub(crate) fn group<S: Spec>(alloc: Global, tokens: &[Token], depth: u32) -> Parsed<'_, Group<S>>
    ensures exact { Parses (A (GroupOf S.item) ∷ []) (λ x. group_spelled S.spelled x.0) (λ x. x.1.now) depth tokens.now result }
    ensures formed { IfOk result (λ x. IsGroup S.is_formed (group_view (λ y. y) x.0)) }
{
    if at(tokens, Kind::LeftParen) {
        let ((open, inside), rest) = open(tokens, Kind::LeftParen, depth)?;
        let ((items, close), rest) = specs::<S>(alloc, rest, inside)?;
        return Ok((Group::Several { open, items, close }, rest));
    }
    let (single, rest) = S::parse(alloc, tokens, depth)?;
    Ok((Group::Single(single), rest))
}

/// Parses the specs in the parentheses of a group and the closing parenthesis.
fn specs<S: Spec>(alloc: Global, tokens: &[Token], depth: u32) -> Parsed<'_, (Vec<Item<S>>, u32)>
    ensures exact { Parses (A (Items S.item) ∷ []) (λ x. items_spelled Kind.Semicolon S.spelled x.0.0.items ++ (sign Kind.RightParen x.0.1 ∷ [])) (λ x. x.1.now) depth tokens.now result }
    ensures formed { IfOk result (λ x. IsOpenList S.is_formed (list_view (λ y. y) x.0.0.items)) }
{
    let mut items = Vec::new(alloc);
    let mut rest = tokens;
    let mut more = true;
    'items: while goes_on(more, rest, Kind::RightParen) {
        let (value, after) = S::parse(alloc, rest, depth)?;
        let (separator, after) = separator(after, Kind::Semicolon);
        more = separator.is_some();
        push(&mut items, Item { value, separator })?;
        rest = after;
    }
    let (close, rest) = expect(rest, Kind::RightParen, depth)?;
    Ok(((items, close), rest))
}
