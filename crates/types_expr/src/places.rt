//! The tokens at which expressions and types begin and report their faults.
ghost use Rattle.std.specs.Prelude.{◌≡◌};
ghost use Rattle.go_ast.specs.Tree.{no_link};
ghost use Rattle.go_ast.specs.View.{expr_view, link_view, type_view};
ghost use Rattle.types_expr.specs.Places.{first_token, first_of_type, place_of, place_after_link, place_of_links};
ghost use Rattle.types_expr.specs.Lists.{links_in};

use go_ast::tree::{Expr, Link, TypeExpr};

/// The tokens at which a link of a chain reports its faults. `start` is the chain's first token; at `place` the operand before the link, or
/// the link's index, reports its own.
#[derive(Clone, Copy)]
pub struct FaultPlaces {
    pub start: usize,
    pub place: usize,
}

/// Returns the first token of a type.
#[tactic(auto, unfolding(go_ast::specs::View::type_view))]
pub(crate) fn first_of_type(t: &TypeExpr) -> usize
    ensures { result ≡ first_of_type (type_view t.now) }
{
    match t {
        TypeExpr::Local(name) => *name as usize,
        TypeExpr::Imported { package, .. } => *package as usize,
        TypeExpr::Pointer { star, .. } => *star as usize,
        TypeExpr::Slice { open, .. } => *open as usize,
    }
}

/// Returns the first token of an expression.
#[tactic(auto, using(crate::proofs::Trees::first_of_literal_tree), unfolding(go_ast::specs::View::expr_view, crate::specs::Places::first_token))]
pub fn first_token(e: &Expr) -> usize
    ensures { result ≡ first_token (expr_view e.now) }
{
    match e {
        Expr::Number(place) | Expr::Text(place) | Expr::Name(place) | Expr::Blank(place) => {
            *place as usize
        }
        Expr::Composite(literal) => first_of_type(&literal.literal_type),
        Expr::Paren { open, .. } => *open as usize,
        Expr::Prefix { at, .. } => *at as usize,
        Expr::Address { at, .. } => *at as usize,
        Expr::Chain { first, .. } => first_token(first),
        Expr::Binary { first, .. } => first_token(first),
        Expr::NamedChain { name, .. } => *name as usize,
        Expr::NamedBinary { name, .. } => *name as usize,
    }
}

/// Returns the token at which an expression reports its own faults: the name after the dot of a selection, else its first token.
#[tactic(auto, unfolding(go_ast::specs::View::expr_view, crate::specs::Places::place_of))]
pub fn place_of(e: &Expr) -> usize
    ensures { result ≡ place_of (expr_view e.now) }
{
    match e {
        Expr::Chain { first, links } => chain_place(first_token(first), links),
        Expr::NamedChain { name, links } => chain_place(*name as usize, links),
        _ => first_token(e),
    }
}

/// Returns the token at which a chain that begins at `start`, with these links, reports its faults.
fn chain_place(start: usize, links: &[Link]) -> usize
    ensures { result ≡ place_of_links start start (links_in links.now) }
{
    let mut place = start;
    for link in links {
        place = place_after_link(start, link);
    }
    place
}

/// Returns the token at which a chain that begins at `start` and ends in this link reports its faults.
#[tactic(auto, unfolding(go_ast::specs::View::link_view))]
pub fn place_after_link(start: usize, link: &Link) -> usize
    ensures { result ≡ place_after_link start (link_view link.now no_link) }
{
    match link {
        Link::Selector { name, .. } => *name as usize,
        Link::Index { .. } => start,
        Link::Call { .. } => start,
    }
}
