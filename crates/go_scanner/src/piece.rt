//! The pieces into which a text is cut, and their classes.
use crate::keywords::Keyword;
use crate::operators::Operator;
use base_files::Span;

/// The class of a piece. `Name` is an identifier, also `_`; a `Blank` is one space, tab or carriage return.
#[derive(Clone, Copy, Debug, PartialEq, Eq)]
pub enum Class {
    ByteOrderMark,
    Blank,
    Newline,
    LineComment,
    GeneralComment,
    Name,
    Keyword(Keyword),
    Integer,
    InterpretedString,
    RawString,
    Operator(Operator),
}

/// A piece or a token: its class, and its span in the text.
#[derive(Clone, Copy, Debug, PartialEq, Eq)]
pub struct Piece {
    pub class: Class,
    pub span: Span,
}
