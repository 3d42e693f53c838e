//! The keywords of Go, and which keyword some bytes spell (Go specification, "Keywords").
ghost use Rattle.std.specs.Prelude.{◌≡◌, find};
ghost use Rattle.std.specs.Str.{bytes_eq};
ghost use Rattle.go_scanner.specs.Keywords.{keyword_spelling, all_keywords, keywords_with, may_begin};

use crate::leading_bytes::{first_byte, second_byte};

/// A keyword of Go.
#[derive(Clone, Copy, Debug, PartialEq, Eq)]
pub enum Keyword {
    Break,
    Case,
    Chan,
    Const,
    Continue,
    Default,
    Defer,
    Else,
    Fallthrough,
    For,
    Func,
    Go,
    Goto,
    If,
    Import,
    Interface,
    Map,
    Package,
    Range,
    Return,
    Select,
    Struct,
    Switch,
    Type,
    Var,
}

impl Keyword {
    /// All keywords, by alphabet.
    pub const ALL: [Keyword; 25] = [
        Keyword::Break,
        Keyword::Case,
        Keyword::Chan,
        Keyword::Const,
        Keyword::Continue,
        Keyword::Default,
        Keyword::Defer,
        Keyword::Else,
        Keyword::Fallthrough,
        Keyword::For,
        Keyword::Func,
        Keyword::Go,
        Keyword::Goto,
        Keyword::If,
        Keyword::Import,
        Keyword::Interface,
        Keyword::Map,
        Keyword::Package,
        Keyword::Range,
        Keyword::Return,
        Keyword::Select,
        Keyword::Struct,
        Keyword::Switch,
        Keyword::Type,
        Keyword::Var,
    ];

    /// The keyword's bytes.
    pub fn spelling(self) -> &'static [u8]
        ensures { result.now ≡ keyword_spelling self }
    {
        match self {
            Keyword::Break => b"break",
            Keyword::Case => b"case",
            Keyword::Chan => b"chan",
            Keyword::Const => b"const",
            Keyword::Continue => b"continue",
            Keyword::Default => b"default",
            Keyword::Defer => b"defer",
            Keyword::Else => b"else",
            Keyword::Fallthrough => b"fallthrough",
            Keyword::For => b"for",
            Keyword::Func => b"func",
            Keyword::Go => b"go",
            Keyword::Goto => b"goto",
            Keyword::If => b"if",
            Keyword::Import => b"import",
            Keyword::Interface => b"interface",
            Keyword::Map => b"map",
            Keyword::Package => b"package",
            Keyword::Range => b"range",
            Keyword::Return => b"return",
            Keyword::Select => b"select",
            Keyword::Struct => b"struct",
            Keyword::Switch => b"switch",
            Keyword::Type => b"type",
            Keyword::Var => b"var",
        }
    }
}

/// Whether a keyword may begin with these two bytes.
fn may_begin(first: u8, second: u8) -> bool
    ensures { result ≡ may_begin first second }
{
    match first {
        b'b' => second == b'r',
        b'c' => matches!(second, b'a' | b'h' | b'o'),
        b'd' => second == b'e',
        b'e' => second == b'l',
        b'f' => matches!(second, b'a' | b'o' | b'u'),
        b'g' => second == b'o',
        b'i' => matches!(second, b'f' | b'm' | b'n'),
        b'm' => second == b'a',
        b'p' => second == b'a',
        b'r' => matches!(second, b'a' | b'e'),
        b's' => matches!(second, b'e' | b't' | b'w'),
        b't' => second == b'y',
        b'v' => second == b'a',
        _ => false,
    }
}

/// The keywords that begin with this byte, or all keywords where none does.
fn starting_with(first: u8) -> &'static [Keyword]
    ensures { keywords_with first result.now ≡ keywords_with first all_keywords }
{
    match first {
        b'b' => &[Keyword::Break],
        b'c' => &[
            Keyword::Case,
            Keyword::Chan,
            Keyword::Const,
            Keyword::Continue,
        ],
        b'd' => &[Keyword::Default, Keyword::Defer],
        b'e' => &[Keyword::Else],
        b'f' => &[Keyword::Fallthrough, Keyword::For, Keyword::Func],
        b'g' => &[Keyword::Go, Keyword::Goto],
        b'i' => &[Keyword::If, Keyword::Import, Keyword::Interface],
        b'm' => &[Keyword::Map],
        b'p' => &[Keyword::Package],
        b'r' => &[Keyword::Range, Keyword::Return],
        b's' => &[Keyword::Select, Keyword::Struct, Keyword::Switch],
        b't' => &[Keyword::Type],
        b'v' => &[Keyword::Var],
        _ => &Keyword::ALL,
    }
}

/// The keyword, among these, that the bytes spell.
fn first_among(bytes: &[u8], keywords: &[Keyword]) -> Option<Keyword>
    ensures { result ≡ find (λ k. bytes_eq (keyword_spelling k) bytes.now) keywords.now }
{
    keywords
        .iter()
        .copied()
        .find(|keyword| keyword.spelling() == bytes)
}

/// The keyword that the bytes spell, or `None`.
pub fn keyword_of(bytes: &[u8]) -> Option<Keyword>
    ensures { result ≡ find (λ k. bytes_eq (keyword_spelling k) bytes.now) all_keywords }
{
    let first = first_byte(bytes);
    if !may_begin(first, second_byte(bytes)) {
        return None;
    }
    first_among(bytes, starting_with(first))
}
