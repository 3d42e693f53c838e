//! Puts the lines of names and literals.
ghost use Rattle.std.specs.Prelude.{◌≡◌, option_map, OnOk};
ghost use Rattle.build_object.specs.LineView.{function_of, Puts};
ghost use Rattle.build_object.specs.SourceView.{source_of};
ghost use Rattle.build_object.specs.Operands.{name_operand, plain_function, local_operand, global_operand};
ghost use Rattle.build_object.specs.Numbering.{slot_of};
ghost use Rattle.build_object.specs.Lines.{Integer, Text, Set, line_if_known};
ghost use Rattle.build_object.specs.Making.{lines_for, mode_of};

use crate::code::Code;
use crate::instructions::{FunctionName, Instruction};
use crate::numbered::NumberedPlaces;
use crate::operands::{OperandMode, Wanted};
use crate::source::Source;
use std::alloc::AllocError;
use types_expr::world::Bound;

/// The source of a function's code: that of its file, and the slots of its parameters and locals.
#[derive(Clone, Copy)]
pub struct SlotScope<'a> {
    pub source: &'a Source<'a>,
    pub slots: &'a NumberedPlaces,
}

impl<'a> SlotScope<'a> {
    /// The name in objects of the package-level function to which the name at a token is bound.
    #[tactic(auto, unfolding(crate::specs::LineView::function_of))]
    fn plain_function(self, token: usize) -> Option<FunctionName<'a>>
        ensures { option_map function_of result ≡ plain_function ((source_of self.entry.source.now).global token) }
    {
        match self.source.global(token) {
            None => None,
            Some(name) => Some(FunctionName::Plain(name)),
        }
    }

    /// The mode of the name at a token.
    #[tactic(auto, unfolding(crate::specs::Making::mode_of, crate::specs::Operands::bound_name, crate::specs::Operands::named_meaning, types_expr::specs::WorldView::bound_of))]
    pub fn name_mode(self, token: usize) -> OperandMode<'a>
        ensures { mode_of result ≡ (name_operand (source_of self.entry.source.now) self.entry.slots.now.places.items token).mode }
    {
        match self.source.world.bound(token) {
            Some(Bound::Local(_) | Bound::Variable(_) | Bound::Truth | Bound::Nil) =>
                OperandMode::Values(1),
            Some(Bound::TypeName(_)) => OperandMode::Converts,
            Some(Bound::Function(signature)) => OperandMode::of_function(
                self.plain_function(token),
                false,
                signature.results.len(),
            ),
            Some(Bound::Builtin(builtin)) => OperandMode::Predeclared(*builtin),
            Some(Bound::Package) => OperandMode::Qualifies,
            _ => OperandMode::Values(0),
        }
    }

    /// Puts the line of a parameter or local, for its value or its address.
    #[tactic(auto, unfolding(crate::specs::LineView::line_of))]
    fn put_local(self, place: usize, want: Wanted, code: &mut Code<'a>) -> Result<(), AllocError>
        ensures { OnOk result (Puts (lines_for want (local_operand (slot_of self.entry.slots.now.places.items place))) code.old code.new) }
    {
        match (self.slots.get(place), want) {
            (None, _) => Ok(()),
            (Some(slot), Wanted::Value) => code.put(Instruction::Local(slot)),
            (Some(slot), Wanted::Address) => code.put(Instruction::LocalAddress(slot)),
        }
    }

    /// Puts the line of a package-level variable, for its value or its address.
    #[tactic(auto, unfolding(crate::specs::LineView::line_of))]
    fn put_global(self, token: usize, want: Wanted, code: &mut Code<'a>) -> Result<(), AllocError>
        ensures { OnOk result (Puts (lines_for want (global_operand ((source_of self.entry.source.now).global token))) code.old code.new) }
    {
        match (self.source.global(token), want) {
            (None, _) => Ok(()),
            (Some(name), Wanted::Value) => code.put(Instruction::Global(name)),
            (Some(name), Wanted::Address) => code.put(Instruction::GlobalAddress(name)),
        }
    }

    /// Puts the lines of the name at a token, for its value or its address.
    #[tactic(auto, unfolding(crate::specs::LineView::line_of, crate::specs::Operands::bound_name, crate::specs::Operands::named_meaning, types_expr::specs::WorldView::bound_of))]
    pub fn put_name(self, token: usize, want: Wanted, code: &mut Code<'a>) -> Result<(), AllocError>
        ensures { OnOk result (Puts (lines_for want (name_operand (source_of self.entry.source.now) self.entry.slots.now.places.items token)) code.old code.new) }
    {
        match self.source.world.bound(token) {
            Some(Bound::Local(place)) => self.put_local(*place, want, code),
            Some(Bound::Variable(_)) => self.put_global(token, want, code),
            Some(Bound::Truth) => code.put(Instruction::Truth(self.source.truth(token))),
            Some(Bound::Nil) => code.put(Instruction::Nil),
            _ => Ok(()),
        }
    }

    /// Puts the line of the integer literal at a token.
    #[tactic(auto, unfolding(crate::specs::LineView::line_of))]
    pub fn put_number(self, token: usize, code: &mut Code<'a>) -> Result<(), AllocError>
        ensures { OnOk result (Puts (line_if_known Integer ((source_of self.entry.source.now).number token)) code.old code.new) }
    {
        match self.source.number(token) {
            None => Ok(()),
            Some(value) => code.put(Instruction::Integer(value)),
        }
    }

    /// Puts the line of the string literal at a token.
    #[tactic(auto, unfolding(crate::specs::LineView::line_of))]
    pub fn put_text(self, token: usize, code: &mut Code<'a>) -> Result<(), AllocError>
        ensures { OnOk result (Puts (line_if_known Text ((source_of self.entry.source.now).text token)) code.old code.new) }
    {
        match self.source.text(token) {
            None => Ok(()),
            Some(value) => code.put(Instruction::Text(value)),
        }
    }

    /// Puts the line that sets a parameter or local.
    #[tactic(auto, unfolding(crate::specs::LineView::line_of))]
    pub fn put_set(self, place: usize, code: &mut Code<'a>) -> Result<(), AllocError>
        ensures { OnOk result (Puts (line_if_known Set (slot_of self.entry.slots.now.places.items place)) code.old code.new) }
    {
        match self.slots.get(place) {
            None => Ok(()),
            Some(slot) => code.put(Instruction::Set(slot)),
        }
    }
}
