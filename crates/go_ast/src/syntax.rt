//! The kinds of tokens that the grammar distinguishes, and the operators.

/// The kind of a token in the grammar. `Blank` is the identifier `_`, `Text` a string literal, and `Other` each keyword and operator that
/// the grammar does not use.
#[derive(Clone, Copy, PartialEq, Eq, Debug)]
pub enum Kind {
    Name,
    Blank,
    Number,
    Text,
    LeftParen,
    RightParen,
    LeftBracket,
    RightBracket,
    LeftBrace,
    RightBrace,
    Comma,
    Dot,
    Colon,
    Semicolon,
    Plus,
    Minus,
    Star,
    Slash,
    Percent,
    Equal,
    NotEqual,
    Less,
    LessEqual,
    Greater,
    GreaterEqual,
    AndAnd,
    OrOr,
    Not,
    Ampersand,
    Assign,
    Define,
    AddAssign,
    SubAssign,
    MulAssign,
    DivAssign,
    RemAssign,
    Increment,
    Decrement,
    If,
    Else,
    For,
    Break,
    Continue,
    Return,
    Var,
    Package,
    Import,
    Func,
    TypeWord,
    Struct,
    Interface,
    Other,
}

/// A binary operator.
#[derive(Clone, Copy, PartialEq, Eq, Debug)]
pub enum BinaryOp {
    Multiply,
    Divide,
    Remainder,
    Add,
    Subtract,
    Equal,
    NotEqual,
    Less,
    LessEqual,
    Greater,
    GreaterEqual,
    And,
    Or,
}

/// A prefix operator; `Deref` is `*`.
#[derive(Clone, Copy, PartialEq, Eq, Debug)]
pub enum PrefixOp {
    Plus,
    Minus,
    Not,
    Deref,
}

/// The operator of `x++` and `x--`.
#[derive(Clone, Copy, PartialEq, Eq, Debug)]
pub enum StepOp {
    Increment,
    Decrement,
}

/// The operator of `x += y`, `x -= y`, `x *= y`, `x /= y` or `x %= y`.
#[derive(Clone, Copy, PartialEq, Eq, Debug)]
pub enum UpdateOp {
    Add,
    Subtract,
    Multiply,
    Divide,
    Remainder,
}

/// A token: its kind, and its index among the file's tokens, from 0.
#[derive(Clone, Copy, PartialEq, Eq, Debug)]
pub struct Token {
    pub kind: Kind,
    pub place: u32,
}

/// The kind of fault of a token list: it is no file, or it nests too deeply.
#[derive(Clone, Copy, PartialEq, Eq, Debug)]
pub enum TokenFaultKind {
    Syntax,
    Nesting,
}
