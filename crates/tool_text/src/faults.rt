//! What is told of the faults of Go files: what is wrong, or which part of Go is not supported.
ghost use Rattle.std.specs.Prelude.{◌≡◌, ◌++◌, OnOk};
ghost use Rattle.tool_text.specs.Faults.{
  character_words,
  fault_words,
  first_signs,
  shown_token,
  first_word,
  is_other_keyword,
  is_other_name,
  is_sign_byte,
  is_word_byte,
  kind_words,
  quoted_words,
  syntax_words,
  token_words,
  undeclared_words,
  words_of_fault,
};

use crate::taken::is_among;
use base_files::FaultKind;
use std::alloc::AllocError;

/// The keywords of Go that begin or join nothing that is supported.
const OTHER_KEYWORDS: &[u8] =
    b"case chan const default defer fallthrough go goto interface map range select switch";

/// The names that Go declares before all packages and that are not supported.
const OTHER_NAMES: &[u8] =
    b"any byte cap clear close comparable complex complex64 complex128 copy delete error float32 float64 imag int8 int16 int32 int64 iota make max min new real recover rune uint uint8 uint16 uint32 uint64 uintptr";

/// Whether a byte may be in a name or a keyword: an ASCII letter or digit, `_`, or a byte of another character.
fn is_word_byte(byte: u8) -> bool
    ensures { result ≡ is_word_byte byte }
{
    byte.is_ascii_alphanumeric() || byte == b'_' || byte >= 128
}

/// Whether a byte may be in an operator: one of `% & * + - . / : < = > ^ |`, or a comma.
fn is_sign_byte(byte: u8) -> bool
    ensures { result ≡ is_sign_byte byte }
{
    (37 <= byte && byte < 39)
        || (42 <= byte && byte < 48)
        || byte == b':'
        || (60 <= byte && byte < 63)
        || byte == b'^'
        || byte == b'|'
}

/// The bytes of names and keywords with which a text begins.
fn first_word(text: &[u8]) -> &[u8]
    ensures { result.now ≡ first_word text.now }
{
    let mut end = 0;
    while end < text.len() && is_word_byte(text[end]) {
        end += 1;
    }
    &text[..end]
}

/// The bytes of operators with which a text begins, or its first byte.
fn first_signs(text: &[u8]) -> &[u8]
    ensures { result.now ≡ first_signs text.now }
{
    let mut end = 0;
    while end < text.len() && is_sign_byte(text[end]) {
        end += 1;
    }
    &text[..end.max(1).min(text.len())]
}

/// The word with which a text begins, or else its first operator or other sign.
fn shown_token(text: &[u8]) -> &[u8]
    ensures { result.now ≡ shown_token text.now }
{
    let word = first_word(text);
    if word.is_empty() {
        first_signs(text)
    } else {
        word
    }
}

/// Whether a word is one of the keywords that are not supported.
fn is_other_keyword(word: &[u8]) -> bool
    ensures { result ≡ is_other_keyword word.now }
{
    is_among(word, OTHER_KEYWORDS)
}

/// Whether a word is one of the predeclared names that are not supported.
fn is_other_name(word: &[u8]) -> bool
    ensures { result ≡ is_other_name word.now }
{
    is_among(word, OTHER_NAMES)
}

/// Appends what is told of a word or sign, in quotes.
fn push_quoted(text: &mut Vec<u8>, token: &[u8], words: &str) -> Result<(), AllocError>
    ensures { OnOk result (text.new.items ≡ text.old.items ++ quoted_words token.now words.now) }
{
    text.extend_from_slice(b"`")?;
    text.extend_from_slice(token)?;
    text.extend_from_slice(b"` ")?;
    text.extend_from_slice(words.as_bytes())
}

/// Appends what is told of a word or sign with which no supported syntax goes on.
fn push_token(text: &mut Vec<u8>, token: &[u8]) -> Result<(), AllocError>
    ensures { OnOk result (text.new.items ≡ text.old.items ++ token_words token.now) }
{
    if token.is_empty() {
        text.extend_from_slice(b"the file ends too early")
    } else if token == b"\n".as_slice() {
        text.extend_from_slice(b"the line ends too early, or such a line is not supported")
    } else if is_other_keyword(token) {
        push_quoted(text, token, "is not supported")
    } else {
        push_quoted(text, token, "is wrong here, or not supported")
    }
}

/// Appends what is told where a text has no supported syntax from here on.
fn push_syntax(text: &mut Vec<u8>, rest: &[u8]) -> Result<(), AllocError>
    ensures { OnOk result (text.new.items ≡ text.old.items ++ syntax_words rest.now) }
{
    push_token(text, shown_token(rest))
}

/// Appends what is told of a name that nothing declares.
fn push_undeclared(text: &mut Vec<u8>, rest: &[u8]) -> Result<(), AllocError>
    ensures { OnOk result (text.new.items ≡ text.old.items ++ undeclared_words rest.now) }
{
    let name = first_word(rest);
    if is_other_name(name) {
        push_quoted(text, name, "is not supported")
    } else {
        push_quoted(text, name, "is not declared")
    }
}

/// What is told of a character that begins nothing supported.
fn character_words(rest: &[u8]) -> &'static str
    ensures { result.now ≡ character_words rest.now }
{
    if rest.starts_with(b"'") {
        "runes are not supported"
    } else {
        "this character is wrong here, or not supported"
    }
}

/// What is told of a fault of a kind that says all.
fn kind_words(kind: FaultKind) -> &'static str
    ensures { result.now ≡ kind_words kind }
{
    match kind {
        FaultKind::Encoding => "this is not UTF-8",
        FaultKind::Number => "this number is wrong, or numbers like it are not supported",
        FaultKind::String => "this string does not end, or an escape in it is not supported",
        FaultKind::Comment => "this comment does not end",
        FaultKind::Character => "this character is wrong here, or not supported",
        FaultKind::Syntax => "this syntax is wrong, or not supported",
        FaultKind::Nesting => "this is nested deeper than is supported",
        FaultKind::Package => "the other files of the folder name another package",
        FaultKind::Missing => {
            "the folder has no such package, and packages of other modules and of the standard library are not supported"
        }
        FaultKind::Cycle => "this import leads back to its own package",
        FaultKind::Import => "the package that is imported has faults",
        FaultKind::Undeclared => "this is not declared",
        FaultKind::Unexported => "another package has to export this name",
        FaultKind::Repeated => "this name is declared already, or cannot be declared here",
        FaultKind::Unused => "this import is not used",
        FaultKind::NoNew => "no name is new left of this `:=`",
        FaultKind::Loop => "no `for` surrounds this",
        FaultKind::Recursive => "this type holds itself",
        FaultKind::Type => "the types do not fit here, or such an operand is not supported",
    }
}

/// Appends what is told of a fault where a text goes on with `rest`.
fn push_words(text: &mut Vec<u8>, kind: FaultKind, rest: &[u8]) -> Result<(), AllocError>
    ensures { OnOk result (text.new.items ≡ text.old.items ++ words_of_fault kind rest.now) }
{
    match kind {
        FaultKind::Syntax => push_syntax(text, rest),
        FaultKind::Undeclared => push_undeclared(text, rest),
        FaultKind::Character => text.extend_from_slice(character_words(rest).as_bytes()),
        _ => text.extend_from_slice(kind_words(kind).as_bytes()),
    }
}

/// Appends what is told of a fault where a text goes on with `rest`, and behind it the word of its kind.
pub fn push_fault_words(text: &mut Vec<u8>, kind: FaultKind, rest: &[u8]) -> Result<(), AllocError>
    ensures { OnOk result (text.new.items ≡ text.old.items ++ fault_words kind rest.now) }
{
    push_words(text, kind, rest)?;
    text.extend_from_slice(b" (")?;
    text.extend_from_slice(kind.name().as_bytes())?;
    text.extend_from_slice(b")")
}
