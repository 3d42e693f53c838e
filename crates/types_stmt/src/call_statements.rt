//! Expression statements: calls.
ghost use Rattle.std.specs.Prelude.{◌≡◌, ◌∷◌, ◌++◌, [], ◌&&◌, IfOk, OnOk};
ghost use Rattle.go_ast.specs.Tree.{Chain, no_link};
ghost use Rattle.go_ast.specs.View.{expr_view, link_view};
ghost use Rattle.types_expr.specs.Lists.{links_in};
ghost use Rattle.types_expr.specs.Judge.{judge};
ghost use Rattle.types_expr.specs.Places.{place_of_links};
ghost use Rattle.types_expr.specs.WorldView.{world_of};
ghost use Rattle.types_expr.specs.Found.{locals_of, meaning_of, AddsJudged};
ghost use Rattle.types_stmt.specs.Simple.{without_parentheses, check_expr_statement, ends_in_call, is_statement, may_be_statement, statement_faults};
ghost use Rattle.types_stmt.specs.View.{checked_of, AddsFaultsAt};

use crate::checked::CheckedBody;
use go_ast::tree::{Expr, Link};
use std::alloc::{AllocError, Global};
use types_expr::found::{FoundInFile, LocalScope};
use types_expr::judge::{chain, judge, judge_link};
use types_expr::meaning::Meaning;
use types_expr::places::{FaultPlaces, first_token, place_after_link, place_of};
use types_expr::types::Builtin;
use types_expr::world::World;

/// The meaning of an expression, and whether the expression may be a statement.
#[derive(Drop)]
struct Alone<'w> {
    meaning: Meaning<'w>,
    stands: bool,
}

/// Whether a call of an operand of this meaning may be a statement.
#[tactic(auto, unfolding(types_expr::specs::Found::meaning_of, crate::specs::Simple::may_be_statement))]
fn may_be_statement(meaning: &Meaning<'_>) -> bool
    ensures { result ≡ may_be_statement (meaning_of meaning.now) }
{
    match meaning {
        Meaning::Function(_) => true,
        Meaning::Builtin(builtin) => match builtin {
            Builtin::Append | Builtin::Len => false,
            Builtin::Panic | Builtin::Print | Builtin::Println => true,
        },
        _ => false,
    }
}

/// Whether a link is a call.
#[tactic(auto, unfolding(go_ast::specs::View::link_view, crate::specs::Simple::ends_in_call))]
fn is_call(link: &Link) -> bool
    ensures { result ≡ ends_in_call (link_view link.now no_link) }
{
    matches!(link, Link::Call { .. })
}

/// Returns the token at which a chain with these links reports its faults. The chain begins at `start`, and without the links it reports
/// them at `place`.
#[tactic(auto, using(crate::proofs::Chains::place_behind_last))]
fn place_after_links(start: usize, place: usize, links: &[Link]) -> usize
    ensures { result ≡ place_of_links start place (links_in links.now) }
{
    match links.split_last() {
        None => place,
        Some((last, _)) => place_after_link(start, last),
    }
}

/// Whether the link is a call that may be a statement, where the operand before it has this meaning.
fn calls_statement(link: &Link, meaning: &Meaning<'_>) -> bool
    ensures { result ≡ (ends_in_call (link_view link.now no_link) && may_be_statement (meaning_of meaning.now)) }
{
    is_call(link) && may_be_statement(meaning)
}

/// Returns the meaning of a chain that ends in the link `last`, and whether it may be a statement.
fn judge_last<'w>(
    alloc: Global,
    scope: LocalScope<'w>,
    first: &Expr,
    before: &[Link],
    last: &Link,
    found: &mut FoundInFile,
) -> Result<Alone<'w>, AllocError>
    ensures found { IfOk result (λ a. AddsJudged (judge (world_of scope.entry.world.now) (locals_of scope.entry.locals.now) (Chain (expr_view first.now) (links_in (before.now ++ (last.now ∷ []))))) found.old found.new (meaning_of a.meaning)) }
    ensures stands { IfOk result (λ a. a.stands ≡ is_statement (world_of scope.entry.world.now) (locals_of scope.entry.locals.now) (Chain (expr_view first.now) (links_in (before.now ++ (last.now ∷ []))))) }
{
    let start = first_token(first);
    let place = place_of(first);
    let operand = judge(alloc, scope, first, found)?;
    let at = FaultPlaces { start, place };
    let called = chain(alloc, scope, at, operand, before, found)?;
    let stands = calls_statement(last, &called);
    let behind = place_after_links(start, place, before);
    let at = FaultPlaces {
        start,
        place: behind,
    };
    let meaning = judge_link(alloc, scope, at, called, last, found)?;
    Ok(Alone { meaning, stands })
}

/// Returns the meaning of a chain, and whether it may be a statement.
fn judge_chain<'w>(
    alloc: Global,
    scope: LocalScope<'w>,
    first: &Expr,
    links: &[Link],
    found: &mut FoundInFile,
) -> Result<Alone<'w>, AllocError>
    ensures found { IfOk result (λ a. AddsJudged (judge (world_of scope.entry.world.now) (locals_of scope.entry.locals.now) (Chain (expr_view first.now) (links_in links.now))) found.old found.new (meaning_of a.meaning)) }
    ensures stands { IfOk result (λ a. a.stands ≡ is_statement (world_of scope.entry.world.now) (locals_of scope.entry.locals.now) (Chain (expr_view first.now) (links_in links.now))) }
{
    match links.split_last() {
        Some((last, before)) => judge_last(alloc, scope, first, before, last, found),
        None => {
            let meaning = judge(alloc, scope, first, found)?;
            Ok(Alone {
                meaning,
                stands: false,
            })
        }
    }
}

/// Returns the meaning of an expression without the parentheses around it, and whether the expression may be a statement.
#[tactic(auto, unfolding(go_ast::specs::View::expr_view, crate::specs::Simple::is_statement, crate::specs::Simple::without_parentheses))]
fn judge_expr_statement<'w>(
    alloc: Global,
    scope: LocalScope<'w>,
    expr: &Expr,
    found: &mut FoundInFile,
) -> Result<Alone<'w>, AllocError>
    ensures found { IfOk result (λ a. AddsJudged (judge (world_of scope.entry.world.now) (locals_of scope.entry.locals.now) (without_parentheses (expr_view expr.now))) found.old found.new (meaning_of a.meaning)) }
    ensures stands { IfOk result (λ a. a.stands ≡ is_statement (world_of scope.entry.world.now) (locals_of scope.entry.locals.now) (expr_view expr.now)) }
{
    match expr {
        Expr::Chain { first, links } => judge_chain(alloc, scope, first, links, found),
        Expr::NamedChain { name, links } => {
            let first = Expr::Name(*name);
            judge_chain(alloc, scope, &first, links, found)
        }
        Expr::Paren { inner, .. } => {
            let alone = judge_expr_statement(alloc, scope, inner, found)?;
            Ok(Alone {
                meaning: alone.meaning,
                stands: false,
            })
        }
        _ => {
            let meaning = judge(alloc, scope, expr, found)?;
            Ok(Alone {
                meaning,
                stands: false,
            })
        }
    }
}

/// Notes a fault where the expression may not be a statement, unless it is broken already.
#[tactic(auto, unfolding(types_expr::specs::Found::meaning_of, crate::specs::Simple::statement_faults))]
fn require_statement(
    place: usize,
    alone: Alone<'_>,
    found: &mut FoundInFile,
) -> Result<(), AllocError>
    ensures { OnOk result (AddsFaultsAt (statement_faults place alone.entry.stands (meaning_of alone.entry.meaning)) found.old found.new) }
{
    if alone.stands || matches!(alone.meaning, Meaning::Broken) {
        return Ok(());
    }
    found.faults.push(place)?;
    Ok(())
}

impl CheckedBody {
    /// Checks an expression statement.
    pub(crate) fn check_expr_statement(
        &mut self,
        alloc: Global,
        world: &World<'_>,
        expr: &Expr,
    ) -> Result<(), AllocError>
        ensures { OnOk result (checked_of self.new ≡ check_expr_statement (world_of world.now) (checked_of self.old) (expr_view expr.now)) }
    {
        let scope = LocalScope {
            world: &*world,
            locals: &self.locals,
        };
        let place = place_of(expr);
        let alone = judge_expr_statement(alloc, scope, expr, &mut self.found)?;
        require_statement(place, alone, &mut self.found)
    }
}
