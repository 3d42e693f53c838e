//! The judgement of expressions: their meanings, faults and uses of members' names.
ghost use Rattle.std.specs.Prelude.{IfOk, map, option_map};
ghost use Rattle.go_ast.specs.Tree.{no_link};
ghost use Rattle.go_ast.specs.View.{expr_view, link_view, literal_view};
ghost use Rattle.types_expr.specs.Judge.{judge, judge_value, judge_link, judge_links, judge_operands, judge_arguments, judge_literal, judge_elements, none_seen};
ghost use Rattle.types_expr.specs.View.{type_of};
ghost use Rattle.types_expr.specs.WorldView.{world_of};
ghost use Rattle.types_expr.specs.Lists.{links_in, operands_in, arguments_in, elements_in};
ghost use Rattle.types_expr.specs.Found.{locals_of, meaning_of, list_value, AddsJudged, AddsJudgedList, AddsElements, AddsByRule};

use crate::found::{FoundInFile, LocalScope};
use crate::keys::SeenFields;
use crate::literals::Elements;
use crate::meaning::{ListValue, Meaning};
use crate::places::{FaultPlaces, first_of_type, first_token, place_after_link, place_of};
use crate::types::{Basic, GoType, ValueKind};
use go_ast::tree::{CompositeLit, Element, Expr, ExprItem, Link, Operand};
use std::alloc::{AllocError, Global};

/// Returns the meaning of an expression. Its faults and member uses are added to `found`.
#[cycle(judging)]
pub fn judge<'w>(
    alloc: Global,
    scope: LocalScope<'w>,
    e: &Expr,
    found: &mut FoundInFile,
) -> Result<Meaning<'w>, AllocError>
    ensures { IfOk result (λ m. AddsJudged (judge (world_of scope.entry.world.now) (locals_of scope.entry.locals.now) (expr_view e.now)) found.old found.new (meaning_of m)) }
{
    match e {
        Expr::Number(_) => Ok(Meaning::value(ValueKind::Untyped(Basic::Int))),
        Expr::Text(_) => Ok(Meaning::value(ValueKind::Untyped(Basic::String))),
        Expr::Name(place) => scope.name_meaning(alloc, *place as usize),
        Expr::Blank(_) => Ok(Meaning::Broken),
        Expr::Composite(lit) => literal(alloc, scope, lit, found),
        Expr::Paren { inner, .. } => judge_value(alloc, scope, inner, found),
        Expr::Prefix { op, at, operand } => {
            let meaning = judge_value(alloc, scope, operand, found)?;
            found.prefix(alloc, scope.world, *op, *at as usize, meaning)
        }
        Expr::Address { literal: lit, .. } => {
            let meaning = literal(alloc, scope, lit, found)?;
            meaning.into_address(alloc)
        }
        Expr::Chain { first, links } => {
            let meaning = judge(alloc, scope, first, found)?;
            let start = first_token(first);
            let place = place_of(first);
            let at = FaultPlaces { start, place };
            chain(alloc, scope, at, meaning, links, found)
        }
        Expr::NamedChain { name, links } => {
            let meaning = scope.name_meaning(alloc, *name as usize)?;
            let at = FaultPlaces {
                start: *name as usize,
                place: *name as usize,
            };
            chain(alloc, scope, at, meaning, links, found)
        }
        Expr::Binary { first, rest } => {
            let meaning = judge_value(alloc, scope, first, found)?;
            binary(alloc, scope, first_token(first), meaning, rest, found)
        }
        Expr::NamedBinary { name, rest } => {
            let own = scope.name_meaning(alloc, *name as usize)?;
            let meaning = found.as_value(*name as usize, own)?;
            binary(alloc, scope, *name as usize, meaning, rest, found)
        }
    }
}

/// Returns the meaning of an expression where a value is required.
#[cycle(judging)]
pub fn judge_value<'w>(
    alloc: Global,
    scope: LocalScope<'w>,
    e: &Expr,
    found: &mut FoundInFile,
) -> Result<Meaning<'w>, AllocError>
    ensures { IfOk result (λ m. AddsJudged (judge_value (world_of scope.entry.world.now) (locals_of scope.entry.locals.now) (expr_view e.now)) found.old found.new (meaning_of m)) }
{
    let meaning = judge(alloc, scope, e, found)?;
    found.as_value(place_of(e), meaning)
}

/// Returns the meaning of a chain of links after an operand of the given meaning.
#[cycle(judging)]
pub fn chain<'w>(
    alloc: Global,
    scope: LocalScope<'w>,
    at: FaultPlaces,
    meaning: Meaning<'w>,
    links: &[Link],
    found: &mut FoundInFile,
) -> Result<Meaning<'w>, AllocError>
    ensures { IfOk result (λ m. AddsByRule (λ j. judge_links (world_of scope.entry.world.now) (locals_of scope.entry.locals.now) at.start at.place j (links_in links.now)) (meaning_of meaning.entry) found.old found.new (meaning_of m)) }
{
    let mut meaning = meaning;
    let start = at.start;
    let mut place = at.place;
    for next in links {
        let at = FaultPlaces { start, place };
        meaning = judge_link(alloc, scope, at, meaning, next, found)?;
        place = place_after_link(start, next);
    }
    Ok(meaning)
}

/// Returns the meaning of the operations with these operands, after a first operand of the given meaning.
#[cycle(judging)]
fn binary<'w>(
    alloc: Global,
    scope: LocalScope<'w>,
    start: usize,
    meaning: Meaning<'w>,
    rest: &[Operand],
    found: &mut FoundInFile,
) -> Result<Meaning<'w>, AllocError>
    ensures { IfOk result (λ m. AddsByRule (λ j. judge_operands (world_of scope.entry.world.now) (locals_of scope.entry.locals.now) start j (operands_in rest.now)) (meaning_of meaning.entry) found.old found.new (meaning_of m)) }
{
    let mut meaning = meaning;
    for operand in rest {
        let right = judge_value(alloc, scope, &operand.value, found)?;
        meaning = found.operation(scope.world, operand.op, start, meaning, right)?;
    }
    Ok(meaning)
}

/// Returns the meaning of one link of a chain, after an operand of the given meaning.
#[cycle(judging)]
pub fn judge_link<'w>(
    alloc: Global,
    scope: LocalScope<'w>,
    at: FaultPlaces,
    meaning: Meaning<'w>,
    next: &Link,
    found: &mut FoundInFile,
) -> Result<Meaning<'w>, AllocError>
    ensures { IfOk result (λ m. AddsJudged (judge_link (world_of scope.entry.world.now) (locals_of scope.entry.locals.now) at.start at.place (link_view next.now no_link) (meaning_of meaning.entry)) found.old found.new (meaning_of m)) }
{
    match next {
        Link::Selector { name, .. } => found.select(
            alloc,
            scope,
            at.place,
            *name as usize,
            meaning,
        ),
        Link::Index { index, .. } => {
            let operand = found.as_value(at.place, meaning)?;
            let value = judge_value(alloc, scope, index, found)?;
            let start = at.start;
            let place = place_of(index);
            let at = FaultPlaces { start, place };
            found.index(alloc, scope.world, at, operand, value)
        }
        Link::Call {
            arguments: list,
            ..
        } => {
            let values = arguments(alloc, scope, list, found)?;
            found.call(alloc, scope.world, at, &values, meaning)
        }
    }
}

/// Returns the values of the arguments of a call, or of the expressions of another list.
#[cycle(judging)]
pub fn arguments<'w>(
    alloc: Global,
    scope: LocalScope<'w>,
    list: &[ExprItem],
    found: &mut FoundInFile,
) -> Result<Vec<ListValue>, AllocError>
    ensures { IfOk result (λ vs. AddsJudgedList (judge_arguments (world_of scope.entry.world.now) (locals_of scope.entry.locals.now) (arguments_in list.now)) found.old found.new (map list_value vs.items)) }
{
    let mut values = Vec::new(alloc);
    for argument in list {
        let place = place_of(&argument.value);
        let kind = judge_value(alloc, scope, &argument.value, found)?.into_kind();
        values.push(ListValue { place, kind })?;
    }
    Ok(values)
}

/// Returns the meaning of a composite literal.
#[cycle(judging)]
fn literal<'w>(
    alloc: Global,
    scope: LocalScope<'w>,
    lit: &CompositeLit,
    found: &mut FoundInFile,
) -> Result<Meaning<'w>, AllocError>
    ensures { IfOk result (λ m. AddsJudged (judge_literal (world_of scope.entry.world.now) (locals_of scope.entry.locals.now) (literal_view lit.now)) found.old found.new (meaning_of m)) }
{
    let own = found.judge_type(alloc, scope.world, &lit.literal_type)?;
    let elements = elements(alloc, scope, &lit.elements, &own, found)?;
    let start = first_of_type(&lit.literal_type);
    found.literal_meaning(scope.world, start, own, elements)
}

/// Judges the elements of a literal of the type `own`, which is none where it is broken.
#[cycle(judging)]
fn elements<'w>(
    alloc: Global,
    scope: LocalScope<'w>,
    list: &[Element],
    own: &Option<GoType>,
    found: &mut FoundInFile,
) -> Result<Elements, AllocError>
    ensures { IfOk result (λ es. AddsElements (judge_elements (world_of scope.entry.world.now) (locals_of scope.entry.locals.now) (option_map type_of own.now) none_seen (elements_in list.now)) found.old found.new es.whole es.unkeyed) }
{
    let mut seen = SeenFields::new(alloc);
    let mut elements = Elements {
        whole: true,
        unkeyed: false,
    };
    for element in list {
        let key = found.element_key(alloc, scope.world, own, &mut seen, &element.key)?;
        let place = place_of(&element.value);
        let kind = judge_value(alloc, scope, &element.value, found)?.into_kind();
        let value = ListValue { place, kind };
        let fits = found.misfit_if(alloc, scope.world, &value, key.wanted)?;
        elements = elements.with(key, &value, fits);
    }
    Ok(elements)
}
