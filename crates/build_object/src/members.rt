//! Puts the lines of selectors and keys.
ghost use Rattle.std.specs.Prelude.{◌≡◌, ◌++◌, ◌∷◌, [], IfOk, OnOk};
ghost use Rattle.go_ast.specs.View.{key_view};
ghost use Rattle.types_expr.specs.View.{type_of};
ghost use Rattle.types_expr.specs.WorldView.{member_of};
ghost use Rattle.build_object.specs.Lines.{line_if_known, With};
ghost use Rattle.build_object.specs.LineView.{line_of, lines_in, Puts};
ghost use Rattle.build_object.specs.SourceView.{source_of};
ghost use Rattle.build_object.specs.Operands.{CodeOperand, qualifies, field_operand, receiver_lines, member_operand, typed_selector, selected};
ghost use Rattle.build_object.specs.Expressions.{key_position};
ghost use Rattle.build_object.specs.Making.{field_lines, lines_for, mode_of, AppliesSelector, AppliesAlways};

use crate::code::Code;
use crate::instructions::Instruction;
use crate::operands::{OperandMode, Wanted};
use crate::scope::SlotScope;
use go_ast::tree::Key;
use std::alloc::AllocError;
use types_expr::types::{GoType, WrittenAs};
use types_expr::world::Member;

/// The line of the field at this position of its struct. `through`: the value before it is a pointer.
#[tactic(auto, unfolding(crate::specs::LineView::line_of))]
fn field_line<'a>(position: usize, through: bool, want: Wanted) -> Instruction<'a>
    ensures { line_of result ∷ [] ≡ field_lines want through (Some position) }
{
    match (want, through) {
        (Wanted::Address, _) => Instruction::FieldAddress(position),
        (Wanted::Value, true) => Instruction::FieldThrough(position),
        (Wanted::Value, false) => Instruction::Field(position),
    }
}

/// Puts the line of a field, if its position is known. Returns what is wanted of the value before it.
fn put_field(
    position: Option<usize>,
    through: bool,
    want: Wanted,
    code: &mut Code<'_>,
) -> Result<Wanted, AllocError>
    ensures { IfOk result (λ w. AppliesAlways (λ o. field_operand o through position) want w code.old code.new) }
{
    if let Some(position) = position {
        code.put(field_line(position, through, want))?;
    }
    if through { Ok(Wanted::Value) } else { Ok(want) }
}

/// Puts the line of a method's receiver. Returns what is wanted of the value before the method.
#[tactic(auto, unfolding(crate::specs::LineView::line_of))]
fn put_receiver(
    is_pointer: bool,
    on_pointer: bool,
    code: &mut Code<'_>,
) -> Result<Wanted, AllocError>
    ensures { IfOk result (λ w. (o : CodeOperand) → receiver_lines o is_pointer on_pointer ++ lines_in code.old ≡ lines_for w o ++ lines_in code.new) }
{
    match (is_pointer, on_pointer) {
        (true, true) | (false, false) => Ok(Wanted::Value),
        (false, true) => Ok(Wanted::Address),
        (true, false) => {
            code.put(Instruction::Load)?;
            Ok(Wanted::Value)
        }
    }
}

impl<'a> SlotScope<'a> {
    /// Puts the line of a member of a value of type `before`. Returns what is wanted of this value.
    #[tactic(auto, unfolding(types_expr::specs::WorldView::member_of, types_expr::specs::View::form_of, crate::specs::Operands::member_operand))]
    fn put_member(
        self,
        before: &GoType,
        member: Member<'_>,
        want: Wanted,
        code: &mut Code<'a>,
    ) -> Result<Wanted, AllocError>
        ensures { IfOk result (λ w. AppliesAlways (λ o. member_operand (source_of self.entry.source.now) o (type_of before.now) (Some (member_of member.entry))) want w code.old code.new) }
    {
        match member {
            Member::Field(field) => match &field.form {
                WrittenAs::Field(_) => {
                    let through = self.source.world.underlying(before).is_pointer();
                    let position = self.source.packages.position(&field.symbol);
                    put_field(position, through, want, code)
                }
                WrittenAs::Method(_) => Ok(Wanted::Value),
            },
            Member::Method(method) => match &method.signature {
                None => Ok(Wanted::Value),
                Some(_) => put_receiver(before.is_pointer(), method.on_pointer, code),
            },
        }
    }

    /// Puts the line of the selector at a token, behind a value. Returns what is wanted of this value.
    #[tactic(auto, unfolding(crate::specs::Operands::typed_selector, crate::specs::Operands::member_operand))]
    fn put_typed(
        self,
        token: usize,
        want: Wanted,
        code: &mut Code<'a>,
    ) -> Result<Wanted, AllocError>
        ensures { IfOk result (λ w. AppliesAlways (λ o. typed_selector (source_of self.entry.source.now) token o ((source_of self.entry.source.now).before token)) want w code.old code.new) }
    {
        let Some(before) = self.source.before(token) else {
            return Ok(Wanted::Value);
        };
        match self.source.world.member(token, before) {
            None => Ok(Wanted::Value),
            Some(member) => self.put_member(before, member, want, code),
        }
    }

    /// Puts the lines of a selector, behind the name of a package (`qualified`) or another operand. Returns what is wanted of this operand.
    #[tactic(auto, unfolding(crate::specs::Operands::selected_by))]
    pub fn put_selector(
        self,
        token: usize,
        qualified: bool,
        want: Wanted,
        code: &mut Code<'a>,
    ) -> Result<Wanted, AllocError>
        ensures { IfOk result (λ w. AppliesSelector (selected (source_of self.entry.source.now) self.entry.slots.now.places.items token) qualified want w code.old code.new) }
    {
        if !qualified {
            return self.put_typed(token, want, code);
        }
        self.put_name(token, want, code)?;
        Ok(Wanted::Value)
    }

    /// The mode of the selector at a token, behind a value.
    #[tactic(auto, unfolding(types_expr::specs::WorldView::member_of, types_expr::specs::View::form_of, crate::specs::Operands::typed_selector, crate::specs::Operands::member_operand, crate::specs::Making::mode_of))]
    fn typed_mode(self, token: usize) -> OperandMode<'a>
        ensures { (o : CodeOperand) → (typed_selector (source_of self.entry.source.now) token o ((source_of self.entry.source.now).before token)).mode ≡ mode_of result }
    {
        let Some(before) = self.source.before(token) else {
            return OperandMode::Values(0);
        };
        match self.source.world.member(token, before) {
            None => OperandMode::Values(0),
            Some(Member::Field(field)) => match &field.form {
                WrittenAs::Field(_) => OperandMode::Values(1),
                WrittenAs::Method(signature) => OperandMode::of_asked(
                    self.source.packages.asked(&field.symbol),
                    signature.results.len(),
                ),
            },
            Some(Member::Method(method)) => match &method.signature {
                None => OperandMode::Values(0),
                Some(signature) => OperandMode::of_function(
                    self.source.packages.function(&method.symbol),
                    true,
                    signature.results.len(),
                ),
            },
        }
    }

    /// The mode of the selector at a token, behind the name of a package (`qualified`) or another operand.
    #[tactic(auto, unfolding(crate::specs::Operands::selected_by))]
    pub fn selector_mode(self, token: usize, qualified: bool) -> OperandMode<'a>
        ensures { (o : CodeOperand) → qualifies o.mode ≡ qualified →
            (selected (source_of self.entry.source.now) self.entry.slots.now.places.items token o).mode ≡ mode_of result }
    {
        if qualified {
            self.name_mode(token).unqualified()
        } else {
            self.typed_mode(token)
        }
    }

    /// The position in its struct of the field that a key names.
    #[tactic(auto, unfolding(types_expr::specs::WorldView::member_of))]
    fn key_position(self, key: &Option<Key>) -> Option<usize>
        ensures { result ≡ key_position (source_of self.entry.source.now) (key_view key.now) }
    {
        let Some(key) = key else {
            return None;
        };
        let Some(before) = self.source.before(key.name as usize) else {
            return None;
        };
        match self.source.world.member(key.name as usize, before) {
            Some(Member::Field(field)) => self.source.packages.position(&field.symbol),
            _ => None,
        }
    }

    /// Puts the line that sets the field of a key.
    #[tactic(auto, unfolding(crate::specs::LineView::line_of))]
    pub fn put_key(self, key: &Option<Key>, code: &mut Code<'a>) -> Result<(), AllocError>
        ensures { OnOk result (Puts (line_if_known With (key_position (source_of self.entry.source.now) (key_view key.now))) code.old code.new) }
    {
        match self.key_position(key) {
            None => Ok(()),
            Some(position) => code.put(Instruction::With(position)),
        }
    }
}
