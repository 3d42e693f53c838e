//! The modes of operands: what an expression is to the code around it.
ghost use Rattle.std.specs.Prelude.{◌≡◌, option_map};
ghost use Rattle.build_object.specs.Operands.{qualifies, left_by_call, unqualified, value_count, function_mode, asked_mode};
ghost use Rattle.build_object.specs.LineView.{function_of};
ghost use Rattle.build_object.specs.Making.{mode_of};

use crate::instructions::FunctionName;
use types_expr::types::Builtin;

/// What is wanted of an expression: its value, or the address of its value.
#[derive(Clone, Copy)]
pub enum Wanted {
    Value,
    Address,
}

/// The mode of an operand. `Values`: it leaves so many values. `Called`: it is a function with so many results, or a method whose receiver
/// is on the stack. `CalledAsked`: it is a method that an interface asks for, and the value of the interface is on the stack. `Converts`: it
/// is a type, whose call is a conversion. `Predeclared`: it is a predeclared function. `Qualifies`: it is the name of a package.
#[derive(Clone, Copy)]
pub enum OperandMode<'a> {
    Values(usize),
    Called {
        received: bool,
        function: FunctionName<'a>,
        results: usize,
    },
    CalledAsked {
        function: FunctionName<'a>,
        results: usize,
    },
    Converts,
    Predeclared(Builtin),
    Qualifies,
}

impl<'a> OperandMode<'a> {
    /// The mode of a function or method, if its name is known.
    #[tactic(auto, unfolding(crate::specs::Making::mode_of))]
    pub fn of_function(
        name: Option<FunctionName<'a>>,
        received: bool,
        results: usize,
    ) -> OperandMode<'a>
        ensures { mode_of result ≡ function_mode (option_map function_of name.entry) received results }
    {
        match name {
            None => OperandMode::Values(0),
            Some(function) => OperandMode::Called {
                received,
                function,
                results,
            },
        }
    }

    /// The mode of a method that an interface asks for, if its name is known.
    #[tactic(auto, unfolding(crate::specs::Making::mode_of))]
    pub fn of_asked(name: Option<FunctionName<'a>>, results: usize) -> OperandMode<'a>
        ensures { mode_of result ≡ asked_mode (option_map function_of name.entry) results }
    {
        match name {
            None => OperandMode::Values(0),
            Some(function) => OperandMode::CalledAsked { function, results },
        }
    }

    /// Whether the operand is the name of a package.
    #[tactic(auto, unfolding(crate::specs::Making::mode_of))]
    pub fn qualifies(self) -> bool
        ensures { result ≡ qualifies (mode_of self.entry) }
    {
        matches!(self, OperandMode::Qualifies)
    }

    /// The mode of the selector of a qualified identifier. A package is never such a selector's meaning.
    #[tactic(auto, unfolding(crate::specs::Making::mode_of))]
    pub fn unqualified(self) -> OperandMode<'a>
        ensures { mode_of result ≡ unqualified (mode_of self.entry) }
    {
        match self {
            OperandMode::Qualifies => OperandMode::Values(0),
            _ => self,
        }
    }

    /// The number of values that a call leaves.
    #[tactic(auto, unfolding(crate::specs::Making::mode_of, crate::specs::Operands::left_by_call))]
    pub fn left_by_call(self) -> usize
        ensures { result ≡ left_by_call (mode_of self.entry) }
    {
        match self {
            OperandMode::Called { results, .. } | OperandMode::CalledAsked { results, .. } =>
                results,
            OperandMode::Predeclared(Builtin::Append | Builtin::Len) | OperandMode::Converts => 1,
            OperandMode::Predeclared(Builtin::Panic | Builtin::Print | Builtin::Println) => 0,
            OperandMode::Values(_) | OperandMode::Qualifies => 0,
        }
    }

    /// The number of values that the operand leaves.
    #[tactic(auto, unfolding(crate::specs::Making::mode_of))]
    pub fn values(self) -> usize
        ensures { result ≡ value_count (mode_of self.entry) }
    {
        match self {
            OperandMode::Values(count) => count,
            _ => 0,
        }
    }
}
