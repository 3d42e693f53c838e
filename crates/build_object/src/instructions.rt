//! The lines of a function's code, and the names in them.
use go_ast::syntax::BinaryOp;
use types_expr::types::{Builtin, GoType};

/// A package-level declaration, by the package's path and the name.
#[derive(Clone, Copy)]
pub struct GlobalName<'a> {
    pub path: &'a [u8],
    pub name: &'a [u8],
}

/// The name of a function in objects. A method has the name of its receiver's type too, and one that an interface asks for that of the
/// interface. A function `init` has its number among those of its package, from 0.
#[derive(Clone, Copy)]
pub enum FunctionName<'a> {
    Plain(GlobalName<'a>),
    Method {
        receiver: GlobalName<'a>,
        name: &'a [u8],
    },
    Initializer {
        path: &'a [u8],
        number: usize,
    },
}

/// A line of code, which works on a stack of values. The number of a jump counts the lines between the jump and its target. The number of
/// `JumpBack` counts lines back from the next line.
#[derive(Drop)]
pub enum Instruction<'a> {
    Integer(u64),
    Text(&'a [u8]),
    Truth(bool),
    Nil,
    Local(usize),
    Global(GlobalName<'a>),
    Field(usize),
    FieldThrough(usize),
    Index,
    Load,
    Negate,
    Not,
    Operate(BinaryOp),
    Duplicate,
    Pop,
    JumpUnless(usize),
    JumpIf(usize),
    Jump(usize),
    JumpBack(usize),
    Call {
        function: FunctionName<'a>,
        arguments: usize,
    },
    CallBuiltin {
        builtin: Builtin,
        arguments: usize,
    },
    CallAsked {
        function: FunctionName<'a>,
        arguments: usize,
    },
    Enter(GoType),
    Zero(GoType),
    With(usize),
    MakeSlice(usize),
    New,
    LocalAddress(usize),
    GlobalAddress(GlobalName<'a>),
    FieldAddress(usize),
    IndexAddress,
    BlankAddress,
    Set(usize),
    Assign(usize),
    Return(usize),
    End,
}
