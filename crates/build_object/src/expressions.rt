//! Makes the code of expressions, from its last line to its first.
ghost use Rattle.std.specs.Prelude.{ℕ, suc, ◌∷◌, [], ◌≡◌, ◌==◌, ◌&&◌, ◌≤◌, ◌<◌, ◌+◌, ◌-◌, ◌^◌, IfOk, OnOk, take, length};
ghost use Rattle.go_ast.specs.Tree.{no_link};
ghost use Rattle.go_ast.specs.View.{expr_view, link_view, literal_view};
ghost use Rattle.types_expr.specs.Lists.{links_in, operands_in, arguments_in, elements_in};
ghost use Rattle.build_object.specs.LineView.{line_of, lines_in, Puts};
ghost use Rattle.build_object.specs.Lines.{Duplicate, Pop};
ghost use Rattle.build_object.specs.SourceView.{source_of};
ghost use Rattle.build_object.specs.Operands as operands;
ghost use Rattle.build_object.specs.Operands.{operated, calling, prefixed, qualifies, value_count};
ghost use Rattle.build_object.specs.Expressions.{operand_of, operations, linked, one_link, argument_lines, literal_lines, keyed_lines, bare_lines, value_lines, enter_line, given_lines};
ghost use Rattle.build_object.specs.Making.{index_lines, test_lines, lines_for, mode_of, before_link, AppliesRule, AppliesLines};

use crate::code::Code;
use crate::instructions::Instruction;
use crate::operands::{OperandMode, Wanted};
use crate::scope::SlotScope;
use crate::types::{is_struct, written_type};
use go_ast::syntax::{BinaryOp, PrefixOp};
use go_ast::tree::{CompositeLit, Element, Expr, ExprItem, Link, Operand};
use std::alloc::{AllocError, Global};
use types_expr::places::place_of;

/// Whether an operand with this mode is the name of a package, and no link stands between it and the next link.
fn is_qualifier(head: OperandMode<'_>, links: usize) -> bool
    ensures { result ≡ (links == 0 && qualifies (mode_of head.entry)) }
{
    links == 0 && head.qualifies()
}

impl<'a> SlotScope<'a> {
    /// The mode of a chain before the link `number`, as far as this link depends on it. `head` is the mode of the chain's first operand.
    fn mode_before(self, head: OperandMode<'a>, links: &[Link], number: usize) -> OperandMode<'a>
        requires { number ≤ length links.now }
        ensures { (o : operands.CodeOperand) → before_link o.mode ≡ before_link (mode_of head.entry) →
            before_link (linked (source_of self.entry.source.now) self.entry.slots.now.places.items o (links_in (take number links.now))).mode ≡ before_link (mode_of result) }
    {
        if number == 0 {
            return head;
        }
        let last = number - 1;
        match &links[last] {
            Link::Selector { name, .. } => {
                self.selector_mode(*name as usize, is_qualifier(head, last))
            }
            Link::Index { .. } => OperandMode::Values(1),
            Link::Call { .. } => OperandMode::Values(1),
        }
    }

    /// The number of values that a chain leaves up to the link `last`.
    fn left_by_links(self, head: OperandMode<'a>, links: &[Link], last: usize) -> usize
        requires { last < length links.now }
        ensures { (o : operands.CodeOperand) → before_link o.mode ≡ before_link (mode_of head.entry) →
            value_count (linked (source_of self.entry.source.now) self.entry.slots.now.places.items o (links_in (take (last + 1) links.now))).mode ≡ result }
    {
        match &links[last] {
            Link::Selector { name, .. } => self
                .selector_mode(*name as usize, is_qualifier(head, last))
                .values(),
            Link::Index { .. } => 1,
            Link::Call { .. } => self.mode_before(head, links, last).left_by_call(),
        }
    }

    /// The mode of an expression.
    pub fn mode(self, e: &Expr) -> OperandMode<'a>
        ensures { mode_of result ≡ (operand_of (source_of self.entry.source.now) self.entry.slots.now.places.items (expr_view e.now)).mode }
    {
        match e {
            Expr::Name(place) => self.name_mode(*place as usize),
            Expr::Blank(_) => OperandMode::Values(0),
            Expr::Chain { first, links } => {
                let head = self.mode(first);
                if links.is_empty() {
                    return OperandMode::Values(head.values());
                }
                OperandMode::Values(self.left_by_links(head, links, links.len() - 1))
            }
            Expr::NamedChain { name, links } => {
                let head = self.name_mode(*name as usize);
                if links.is_empty() {
                    return OperandMode::Values(head.values());
                }
                OperandMode::Values(self.left_by_links(head, links, links.len() - 1))
            }
            Expr::Number(_)
            | Expr::Text(_)
            | Expr::Composite(_)
            | Expr::Paren { .. }
            | Expr::Prefix { .. }
            | Expr::Address { .. }
            | Expr::Binary { .. }
            | Expr::NamedBinary { .. } => OperandMode::Values(1),
        }
    }
}

/// Puts the line of a unary operator before the code. The value of its operand is wanted before it.
#[tactic(auto, unfolding(crate::specs::LineView::line_of))]
fn put_prefix(op: PrefixOp, want: Wanted, code: &mut Code<'_>) -> Result<(), AllocError>
    ensures { OnOk result (AppliesLines (λ a. lines_for want (prefixed op a)) code.old code.new) }
{
    match (op, want) {
        (PrefixOp::Plus, _) | (PrefixOp::Deref, Wanted::Address) => Ok(()),
        (PrefixOp::Minus, _) => code.put(Instruction::Negate),
        (PrefixOp::Not, _) => code.put(Instruction::Not),
        (PrefixOp::Deref, Wanted::Value) => code.put(Instruction::Load),
    }
}

/// Puts the line of a call with `count` arguments, by the mode of what is called.
#[tactic(auto, unfolding(crate::specs::LineView::line_of, crate::specs::Operands::calling, crate::specs::Making::mode_of))]
fn put_call<'a>(mode: OperandMode<'a>, count: usize, code: &mut Code<'a>) -> Result<(), AllocError>
    requires { count < 2 ^ 63 }
    ensures { OnOk result (Puts (calling count (mode_of mode.entry)) code.old code.new) }
{
    match mode {
        OperandMode::Called {
            received,
            function,
            ..
        } => {
            let arguments = if received { count + 1 } else { count };
            code.put(Instruction::Call {
                function,
                arguments,
            })
        }
        OperandMode::CalledAsked { function, .. } => code.put(Instruction::CallAsked {
            function,
            arguments: count + 1,
        }),
        OperandMode::Predeclared(builtin) => code.put(Instruction::CallBuiltin {
            builtin,
            arguments: count,
        }),
        OperandMode::Values(_) | OperandMode::Converts | OperandMode::Qualifies => Ok(()),
    }
}

/// Puts the line of an index, for its value or its address.
#[tactic(auto, unfolding(crate::specs::LineView::line_of))]
fn put_index(want: Wanted, code: &mut Code<'_>) -> Result<(), AllocError>
    ensures { OnOk result (Puts (index_lines want) code.old code.new) }
{
    match want {
        Wanted::Value => code.put(Instruction::Index),
        Wanted::Address => code.put(Instruction::IndexAddress),
    }
}

/// The jump of `&&` or `||` over `passed` lines.
#[tactic(auto, unfolding(crate::specs::LineView::line_of))]
fn test_line<'a>(op: BinaryOp, passed: usize) -> Instruction<'a>
    ensures { (n : ℕ) → passed ≡ suc n → test_lines op n ≡ Duplicate ∷ line_of result ∷ Pop ∷ [] }
{
    match op {
        BinaryOp::Or => Instruction::JumpIf(passed),
        _ => Instruction::JumpUnless(passed),
    }
}

impl<'a> SlotScope<'a> {
    /// Puts the line behind an expression, if it leaves one value and that enters an interface.
    #[tactic(auto, unfolding(crate::specs::LineView::line_of))]
    fn put_enter(self, alloc: Global, e: &Expr, code: &mut Code<'a>) -> Result<(), AllocError>
        ensures { OnOk result (Puts (enter_line (source_of self.entry.source.now) (operand_of (source_of self.entry.source.now) self.entry.slots.now.places.items (expr_view e.now)) (expr_view e.now)) code.old code.new) }
    {
        match self.source.entered(place_of(e)) {
            Some(own) if self.mode(e).values() == 1 => {
                code.put(Instruction::Enter(own.copy(alloc)?))
            }
            _ => Ok(()),
        }
    }
}

/// Puts the lines between the operands of `&&` or `||`. The code had `end` lines before the second operand was put.
fn put_test(op: BinaryOp, end: usize, code: &mut Code<'_>) -> Result<(), AllocError>
    requires { end ≤ length (lines_in code.old) }
    ensures { OnOk result (Puts (test_lines op (length (lines_in code.old) - end)) code.old code.new) }
{
    code.put(Instruction::Pop)?;
    let passed = code.len() - end;
    code.put(test_line(op, passed))?;
    code.put(Instruction::Duplicate)
}

/// Puts the lines of an expression, for its value or its address.
#[cycle(expression)]
pub fn operand<'a>(
    alloc: Global,
    scope: SlotScope<'a>,
    e: &Expr,
    want: Wanted,
    code: &mut Code<'a>,
) -> Result<(), AllocError>
    ensures { OnOk result (Puts (lines_for want (operand_of (source_of scope.entry.source.now) scope.entry.slots.now.places.items (expr_view e.now))) code.old code.new) }
{
    match e {
        Expr::Number(place) => scope.put_number(*place as usize, code),
        Expr::Text(place) => scope.put_text(*place as usize, code),
        Expr::Name(place) => scope.put_name(*place as usize, want, code),
        Expr::Blank(_) => Ok(()),
        Expr::Composite(lit) => literal(alloc, scope, lit, code),
        Expr::Paren { inner, .. } => operand(alloc, scope, inner, want, code),
        Expr::Prefix {
            op,
            operand: inner,
            ..
        } => {
            put_prefix(*op, want, code)?;
            operand(alloc, scope, inner, Wanted::Value, code)
        }
        Expr::Address { literal: lit, .. } => {
            code.put(Instruction::New)?;
            literal(alloc, scope, lit, code)
        }
        Expr::Chain { first, links } => {
            let head = scope.mode(first);
            let want = chain(alloc, scope, links, head, want, code)?;
            operand(alloc, scope, first, want, code)
        }
        Expr::NamedChain { name, links } => {
            let head = scope.name_mode(*name as usize);
            let want = chain(alloc, scope, links, head, want, code)?;
            scope.put_name(*name as usize, want, code)
        }
        Expr::Binary { first, rest } => {
            operations(alloc, scope, rest, code)?;
            operand(alloc, scope, first, Wanted::Value, code)
        }
        Expr::NamedBinary { name, rest } => {
            operations(alloc, scope, rest, code)?;
            scope.put_name(*name as usize, Wanted::Value, code)
        }
    }
}

/// Puts the lines of links behind an operand with the mode `head`. Returns what is wanted of this operand.
#[cycle(expression)]
fn chain<'a>(
    alloc: Global,
    scope: SlotScope<'a>,
    links: &[Link],
    head: OperandMode<'a>,
    want: Wanted,
    code: &mut Code<'a>,
) -> Result<Wanted, AllocError>
    ensures { IfOk result (λ w. AppliesRule (λ o. linked (source_of scope.entry.source.now) scope.entry.slots.now.places.items o (links_in links.now)) (mode_of head.entry) want w code.old code.new) }
{
    let mut want = want;
    for i in (0..links.len()).rev() {
        let mode = scope.mode_before(head, links, i);
        want = link(alloc, scope, &links[i], mode, want, code)?;
    }
    Ok(want)
}

/// Puts the lines of a link behind an operand with this mode. Returns what is wanted of this operand.
#[cycle(expression)]
fn link<'a>(
    alloc: Global,
    scope: SlotScope<'a>,
    next: &Link,
    mode: OperandMode<'a>,
    want: Wanted,
    code: &mut Code<'a>,
) -> Result<Wanted, AllocError>
    ensures { IfOk result (λ w. AppliesRule (one_link (source_of scope.entry.source.now) scope.entry.slots.now.places.items (link_view next.now no_link)) (mode_of mode.entry) want w code.old code.new) }
{
    match next {
        Link::Selector { name, .. } => scope.put_selector(
            *name as usize,
            mode.qualifies(),
            want,
            code,
        ),
        Link::Index { index, .. } => {
            put_index(want, code)?;
            operand(alloc, scope, index, Wanted::Value, code)?;
            Ok(Wanted::Value)
        }
        Link::Call {
            arguments: list,
            ..
        } => {
            put_call(mode, list.len(), code)?;
            arguments(alloc, scope, list, code)?;
            Ok(Wanted::Value)
        }
    }
}

/// Puts the lines of the binary operators and operands behind a first operand.
#[cycle(expression)]
fn operations<'a>(
    alloc: Global,
    scope: SlotScope<'a>,
    rest: &[Operand],
    code: &mut Code<'a>,
) -> Result<(), AllocError>
    ensures { OnOk result (AppliesLines (λ a. operations (source_of scope.entry.source.now) scope.entry.slots.now.places.items a (operands_in rest.now)) code.old code.new) }
{
    for i in (0..rest.len()).rev() {
        operation(alloc, scope, &rest[i], code)?;
    }
    Ok(())
}

/// Puts the lines of one binary operator and its right operand.
#[cycle(expression)]
fn operation<'a>(
    alloc: Global,
    scope: SlotScope<'a>,
    next: &Operand,
    code: &mut Code<'a>,
) -> Result<(), AllocError>
    ensures { OnOk result (AppliesLines (λ a. operated next.now.op a (value_lines (source_of scope.entry.source.now) scope.entry.slots.now.places.items (expr_view next.now.value))) code.old code.new) }
{
    match next.op {
        BinaryOp::And | BinaryOp::Or => {
            let end = code.len();
            operand(alloc, scope, &next.value, Wanted::Value, code)?;
            put_test(next.op, end, code)
        }
        op => {
            code.put(Instruction::Operate(op))?;
            operand(alloc, scope, &next.value, Wanted::Value, code)
        }
    }
}

/// Puts the lines of an expression that is given to something, for its value.
#[cycle(expression)]
fn given<'a>(
    alloc: Global,
    scope: SlotScope<'a>,
    e: &Expr,
    code: &mut Code<'a>,
) -> Result<(), AllocError>
    ensures { OnOk result (Puts (given_lines (source_of scope.entry.source.now) scope.entry.slots.now.places.items (expr_view e.now)) code.old code.new) }
{
    scope.put_enter(alloc, e, code)?;
    operand(alloc, scope, e, Wanted::Value, code)
}

/// Puts the lines of the arguments of a call, or of other values in order.
#[cycle(expression)]
pub fn arguments<'a>(
    alloc: Global,
    scope: SlotScope<'a>,
    list: &[ExprItem],
    code: &mut Code<'a>,
) -> Result<(), AllocError>
    ensures { OnOk result (Puts (argument_lines (source_of scope.entry.source.now) scope.entry.slots.now.places.items (arguments_in list.now)) code.old code.new) }
{
    for i in (0..list.len()).rev() {
        given(alloc, scope, &list[i].value, code)?;
    }
    Ok(())
}

/// Puts the lines of a composite literal.
#[cycle(expression)]
fn literal<'a>(
    alloc: Global,
    scope: SlotScope<'a>,
    lit: &CompositeLit,
    code: &mut Code<'a>,
) -> Result<(), AllocError>
    ensures { OnOk result (Puts (literal_lines (source_of scope.entry.source.now) scope.entry.slots.now.places.items (literal_view lit.now)) code.old code.new) }
{
    let Some(own) = written_type(alloc, &scope.source.world, &lit.literal_type)? else {
        return Ok(());
    };
    if is_struct(&scope.source.world, &own) {
        keyed(alloc, scope, &lit.elements, code)?;
        return code.put(Instruction::Zero(own));
    }
    code.put(Instruction::MakeSlice(lit.elements.len()))?;
    bare(alloc, scope, &lit.elements, code)
}

/// Puts the lines of the elements of a struct's literal.
#[cycle(expression)]
fn keyed<'a>(
    alloc: Global,
    scope: SlotScope<'a>,
    list: &[Element],
    code: &mut Code<'a>,
) -> Result<(), AllocError>
    ensures { OnOk result (Puts (keyed_lines (source_of scope.entry.source.now) scope.entry.slots.now.places.items (elements_in list.now)) code.old code.new) }
{
    for i in (0..list.len()).rev() {
        scope.put_key(&list[i].key, code)?;
        given(alloc, scope, &list[i].value, code)?;
    }
    Ok(())
}

/// Puts the lines of the elements of a slice's literal.
#[cycle(expression)]
fn bare<'a>(
    alloc: Global,
    scope: SlotScope<'a>,
    list: &[Element],
    code: &mut Code<'a>,
) -> Result<(), AllocError>
    ensures { OnOk result (Puts (bare_lines (source_of scope.entry.source.now) scope.entry.slots.now.places.items (elements_in list.now)) code.old code.new) }
{
    for i in (0..list.len()).rev() {
        given(alloc, scope, &list[i].value, code)?;
    }
    Ok(())
}
