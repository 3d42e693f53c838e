//! Lists the tokens of a file by their kinds in the grammar.
ghost use Rattle.std.specs.Prelude.{◌≡◌, ◌-◌, ◌<◌, length, IfOk};
ghost use Rattle.go_scanner.specs.Cuts.{bytes_of};
ghost use Rattle.go_scanner.specs.CutText.{tokens_in, token_at};
ghost use Rattle.go_ast.specs.Kinds.{kind_of_keyword, kind_of_operator, kind_of_name, kind_of, kinds_of, place_of};

use go_ast::syntax::{Kind, Token};
use go_scanner::{Class, Keyword, Operator, Pieces, short_number};
use std::alloc::{AllocError, Global};

/// The kind of a keyword.
fn kind_of_keyword(keyword: Keyword) -> Kind
    ensures { result ≡ kind_of_keyword keyword }
{
    match keyword {
        Keyword::Break => Kind::Break,
        Keyword::Continue => Kind::Continue,
        Keyword::Else => Kind::Else,
        Keyword::For => Kind::For,
        Keyword::Func => Kind::Func,
        Keyword::If => Kind::If,
        Keyword::Import => Kind::Import,
        Keyword::Interface => Kind::Interface,
        Keyword::Package => Kind::Package,
        Keyword::Return => Kind::Return,
        Keyword::Struct => Kind::Struct,
        Keyword::Type => Kind::TypeWord,
        Keyword::Var => Kind::Var,
        _ => Kind::Other,
    }
}

/// The kind of an operator.
fn kind_of_operator(operator: Operator) -> Kind
    ensures { result ≡ kind_of_operator operator }
{
    match operator {
        Operator::LeftParen => Kind::LeftParen,
        Operator::RightParen => Kind::RightParen,
        Operator::LeftBracket => Kind::LeftBracket,
        Operator::RightBracket => Kind::RightBracket,
        Operator::LeftBrace => Kind::LeftBrace,
        Operator::RightBrace => Kind::RightBrace,
        Operator::Comma => Kind::Comma,
        Operator::Period => Kind::Dot,
        Operator::Colon => Kind::Colon,
        Operator::Semicolon => Kind::Semicolon,
        Operator::Add => Kind::Plus,
        Operator::Subtract => Kind::Minus,
        Operator::Multiply => Kind::Star,
        Operator::Divide => Kind::Slash,
        Operator::Remainder => Kind::Percent,
        Operator::Equal => Kind::Equal,
        Operator::NotEqual => Kind::NotEqual,
        Operator::Less => Kind::Less,
        Operator::LessEqual => Kind::LessEqual,
        Operator::Greater => Kind::Greater,
        Operator::GreaterEqual => Kind::GreaterEqual,
        Operator::LogicalAnd => Kind::AndAnd,
        Operator::LogicalOr => Kind::OrOr,
        Operator::Not => Kind::Not,
        Operator::And => Kind::Ampersand,
        Operator::Assign => Kind::Assign,
        Operator::Define => Kind::Define,
        Operator::AddAssign => Kind::AddAssign,
        Operator::SubtractAssign => Kind::SubAssign,
        Operator::MultiplyAssign => Kind::MulAssign,
        Operator::DivideAssign => Kind::DivAssign,
        Operator::RemainderAssign => Kind::RemAssign,
        Operator::Increment => Kind::Increment,
        Operator::Decrement => Kind::Decrement,
        _ => Kind::Other,
    }
}

/// The kind of an identifier: `Blank` for `_`, else `Name`.
fn kind_of_name(bytes: &[u8]) -> Kind
    ensures { result ≡ kind_of_name bytes.now }
{
    if bytes == b"_".as_slice() {
        Kind::Blank
    } else {
        Kind::Name
    }
}

/// The kind of a token, by its class and its bytes.
fn kind_of(class: Class, bytes: &[u8]) -> Kind
    ensures { result ≡ kind_of class bytes.now }
{
    match class {
        Class::Name => kind_of_name(bytes),
        Class::Keyword(keyword) => kind_of_keyword(keyword),
        Class::Integer => Kind::Number,
        Class::InterpretedString | Class::RawString => Kind::Text,
        Class::Operator(operator) => kind_of_operator(operator),
        _ => Kind::Other,
    }
}

/// The kind of the file's token of this index, from 0.
fn kind_at(pieces: &Pieces, place: usize) -> Kind
    requires { place < length (tokens_in pieces.now) }
    ensures { result ≡ kind_of (token_at pieces.now place).class (bytes_of pieces.now.text (token_at pieces.now place)) }
{
    let class = pieces.tokens()[place].class();
    kind_of(class, pieces.text(place))
}

/// The file's tokens with their kinds.
pub(crate) fn kinds_of(alloc: Global, pieces: &Pieces) -> Result<Vec<Token>, AllocError>
    ensures { IfOk result (λ tokens. tokens.items ≡ kinds_of pieces.now) }
{
    let count = pieces.tokens().len();
    let mut tokens = Vec::with_capacity(alloc, count)?;
    for place in 0..count {
        let kind = kind_at(pieces, place);
        let number = short_number(place)?;
        tokens.push(Token {
            kind,
            place: number,
        })?;
    }
    Ok(tokens)
}

/// The offset at which the last `left` tokens of a file begin, or its end where `left` is 0.
pub(crate) fn place_of(pieces: &Pieces, left: usize) -> usize
    ensures { result ≡ place_of pieces.now left }
{
    let tokens = pieces.tokens();
    let first = tokens.len().saturating_sub(left);
    match &tokens[first..] {
        [token, ..] => token.start(),
        [] => pieces.file().len(),
    }
}
