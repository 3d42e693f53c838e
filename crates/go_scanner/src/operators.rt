//! The operators and punctuation of Go, and which operator some bytes begin with.
ghost use Rattle.std.specs.Prelude.{◌≡◌, ◌∷◌, [], Some, IfSome, nat_eq, find};
ghost use Rattle.std.specs.List.{starts_with};
ghost use Rattle.go_scanner.specs.Operators.{operator_spelling, all_operators, operators_with, may_join};

use crate::leading_bytes::{first_byte, second_byte};

/// An operator or punctuation mark.
#[derive(Clone, Copy, Debug, PartialEq, Eq)]
pub enum Operator {
    ShiftLeftAssign,
    ShiftRightAssign,
    Ellipsis,
    AndNotAssign,
    AddAssign,
    AndAssign,
    LogicalAnd,
    Equal,
    NotEqual,
    SubtractAssign,
    OrAssign,
    LogicalOr,
    LessEqual,
    MultiplyAssign,
    XorAssign,
    Arrow,
    GreaterEqual,
    ShiftLeft,
    DivideAssign,
    Increment,
    Define,
    ShiftRight,
    RemainderAssign,
    Decrement,
    AndNot,
    Add,
    And,
    LeftParen,
    RightParen,
    Subtract,
    Or,
    Less,
    LeftBracket,
    RightBracket,
    Multiply,
    Xor,
    Greater,
    LeftBrace,
    RightBrace,
    Divide,
    Assign,
    Comma,
    Semicolon,
    Remainder,
    Not,
    Period,
    Colon,
    Tilde,
}

impl Operator {
    /// All operators, longer ones first.
    pub const ALL: [Operator; 48] = [
        Operator::ShiftLeftAssign,
        Operator::ShiftRightAssign,
        Operator::Ellipsis,
        Operator::AndNotAssign,
        Operator::AddAssign,
        Operator::AndAssign,
        Operator::LogicalAnd,
        Operator::Equal,
        Operator::NotEqual,
        Operator::SubtractAssign,
        Operator::OrAssign,
        Operator::LogicalOr,
        Operator::LessEqual,
        Operator::MultiplyAssign,
        Operator::XorAssign,
        Operator::Arrow,
        Operator::GreaterEqual,
        Operator::ShiftLeft,
        Operator::DivideAssign,
        Operator::Increment,
        Operator::Define,
        Operator::ShiftRight,
        Operator::RemainderAssign,
        Operator::Decrement,
        Operator::AndNot,
        Operator::Add,
        Operator::And,
        Operator::LeftParen,
        Operator::RightParen,
        Operator::Subtract,
        Operator::Or,
        Operator::Less,
        Operator::LeftBracket,
        Operator::RightBracket,
        Operator::Multiply,
        Operator::Xor,
        Operator::Greater,
        Operator::LeftBrace,
        Operator::RightBrace,
        Operator::Divide,
        Operator::Assign,
        Operator::Comma,
        Operator::Semicolon,
        Operator::Remainder,
        Operator::Not,
        Operator::Period,
        Operator::Colon,
        Operator::Tilde,
    ];

    /// The operator's bytes.
    pub fn spelling(self) -> &'static [u8]
        ensures { result.now ≡ operator_spelling self }
    {
        match self {
            Operator::ShiftLeftAssign => b"<<=",
            Operator::ShiftRightAssign => b">>=",
            Operator::Ellipsis => b"...",
            Operator::AndNotAssign => b"&^=",
            Operator::AddAssign => b"+=",
            Operator::AndAssign => b"&=",
            Operator::LogicalAnd => b"&&",
            Operator::Equal => b"==",
            Operator::NotEqual => b"!=",
            Operator::SubtractAssign => b"-=",
            Operator::OrAssign => b"|=",
            Operator::LogicalOr => b"||",
            Operator::LessEqual => b"<=",
            Operator::MultiplyAssign => b"*=",
            Operator::XorAssign => b"^=",
            Operator::Arrow => b"<-",
            Operator::GreaterEqual => b">=",
            Operator::ShiftLeft => b"<<",
            Operator::DivideAssign => b"/=",
            Operator::Increment => b"++",
            Operator::Define => b":=",
            Operator::ShiftRight => b">>",
            Operator::RemainderAssign => b"%=",
            Operator::Decrement => b"--",
            Operator::AndNot => b"&^",
            Operator::Add => b"+",
            Operator::And => b"&",
            Operator::LeftParen => b"(",
            Operator::RightParen => b")",
            Operator::Subtract => b"-",
            Operator::Or => b"|",
            Operator::Less => b"<",
            Operator::LeftBracket => b"[",
            Operator::RightBracket => b"]",
            Operator::Multiply => b"*",
            Operator::Xor => b"^",
            Operator::Greater => b">",
            Operator::LeftBrace => b"{",
            Operator::RightBrace => b"}",
            Operator::Divide => b"/",
            Operator::Assign => b"=",
            Operator::Comma => b",",
            Operator::Semicolon => b";",
            Operator::Remainder => b"%",
            Operator::Not => b"!",
            Operator::Period => b".",
            Operator::Colon => b":",
            Operator::Tilde => b"~",
        }
    }
}

/// The operators that begin with this byte, longer ones first, or all operators where none does.
fn starting_with(first: u8) -> &'static [Operator]
    ensures { operators_with first result.now ≡ operators_with first all_operators }
{
    match first {
        b'<' => &[
            Operator::ShiftLeftAssign,
            Operator::LessEqual,
            Operator::Arrow,
            Operator::ShiftLeft,
            Operator::Less,
        ],
        b'>' => &[
            Operator::ShiftRightAssign,
            Operator::GreaterEqual,
            Operator::ShiftRight,
            Operator::Greater,
        ],
        b'.' => &[Operator::Ellipsis, Operator::Period],
        b'&' => &[
            Operator::AndNotAssign,
            Operator::AndAssign,
            Operator::LogicalAnd,
            Operator::AndNot,
            Operator::And,
        ],
        b'+' => &[Operator::AddAssign, Operator::Increment, Operator::Add],
        b'=' => &[Operator::Equal, Operator::Assign],
        b'!' => &[Operator::NotEqual, Operator::Not],
        b'-' => &[
            Operator::SubtractAssign,
            Operator::Decrement,
            Operator::Subtract,
        ],
        b'|' => &[Operator::OrAssign, Operator::LogicalOr, Operator::Or],
        b'*' => &[Operator::MultiplyAssign, Operator::Multiply],
        b'^' => &[Operator::XorAssign, Operator::Xor],
        b'/' => &[Operator::DivideAssign, Operator::Divide],
        b':' => &[Operator::Define, Operator::Colon],
        b'%' => &[Operator::RemainderAssign, Operator::Remainder],
        b'(' => &[Operator::LeftParen],
        b')' => &[Operator::RightParen],
        b'[' => &[Operator::LeftBracket],
        b']' => &[Operator::RightBracket],
        b'{' => &[Operator::LeftBrace],
        b'}' => &[Operator::RightBrace],
        b',' => &[Operator::Comma],
        b';' => &[Operator::Semicolon],
        b'~' => &[Operator::Tilde],
        _ => &Operator::ALL,
    }
}

/// Whether an operator of two or three bytes may begin with these two. The second one is `-`, `=` or `^`, or it is the first one again.
fn may_join(first: u8, second: u8) -> bool
    ensures { result ≡ may_join first second }
{
    matches!(second, b'-' | b'=' | b'^')
        || second == first && matches!(first, b'&' | b'+' | b'.' | b'<' | b'>' | b'|')
}

/// The operator of this one byte, if there is one.
fn one_byte_operator(first: u8) -> Option<Operator>
    ensures { IfSome result (λ operator. operator_spelling operator ≡ first ∷ []) }
{
    Some(match first {
        b'+' => Operator::Add,
        b'&' => Operator::And,
        b'(' => Operator::LeftParen,
        b')' => Operator::RightParen,
        b'-' => Operator::Subtract,
        b'|' => Operator::Or,
        b'<' => Operator::Less,
        b'[' => Operator::LeftBracket,
        b']' => Operator::RightBracket,
        b'*' => Operator::Multiply,
        b'^' => Operator::Xor,
        b'>' => Operator::Greater,
        b'{' => Operator::LeftBrace,
        b'}' => Operator::RightBrace,
        b'/' => Operator::Divide,
        b'=' => Operator::Assign,
        b',' => Operator::Comma,
        b';' => Operator::Semicolon,
        b'%' => Operator::Remainder,
        b'!' => Operator::Not,
        b'.' => Operator::Period,
        b':' => Operator::Colon,
        b'~' => Operator::Tilde,
        _ => return None,
    })
}

/// The operator of the first byte alone, where no operator of more bytes may begin. `None` leaves open which operator begins.
fn short_operator(bytes: &[u8]) -> Option<Operator>
    ensures { IfSome result (λ operator. find (λ o. starts_with nat_eq bytes.now (operator_spelling o)) all_operators ≡ Some operator) }
{
    let first = first_byte(bytes);
    if may_join(first, second_byte(bytes)) {
        return None;
    }
    one_byte_operator(first)
}

/// The first operator, among these, with which the bytes begin.
fn first_among(bytes: &[u8], operators: &[Operator]) -> Option<Operator>
    ensures { result ≡ find (λ o. starts_with nat_eq bytes.now (operator_spelling o)) operators.now }
{
    operators
        .iter()
        .copied()
        .find(|operator| bytes.starts_with(operator.spelling()))
}

/// The longest operator with which the bytes begin, or `None`.
pub fn operator_at(bytes: &[u8]) -> Option<Operator>
    ensures { result ≡ find (λ o. starts_with nat_eq bytes.now (operator_spelling o)) all_operators }
{
    match short_operator(bytes) {
        Some(operator) => Some(operator),
        None => first_among(bytes, starting_with(first_byte(bytes))),
    }
}
