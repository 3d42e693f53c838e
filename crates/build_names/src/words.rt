//! Gives the symbols of a declaration in a text another name.
ghost use Rattle.std.specs.Prelude.{◌≡◌, ◌≢◌, ◌+◌, ◌<◌, ◌≤◌, ◌++◌, [], ℕ, List, length, IfOk, MatchOption, OnOk, option_copied};
ghost use Rattle.build_names.specs.Words.{behind_symbol, is_break, is_symbol_end, so_far, symbol_text, text_with_name, word_with, words_with};

use crate::GivenName;
use std::alloc::{AllocError, Global};

/// Whether the byte stands between words.
pub fn is_break(byte: u8) -> bool
    ensures { result ≡ is_break byte }
{
    matches!(
        byte,
        b' ' | b'\n' | b'(' | b')' | b',' | b';' | b'{' | b'}' | b'*' | b'[' | b']'
    )
}

/// Whether a symbol ends before this rest of a word.
fn is_symbol_end(rest: &[u8]) -> bool
    ensures { result ≡ is_symbol_end rest.now }
{
    match rest.first() {
        None => true,
        Some(byte) => *byte == b'#',
    }
}

/// The rest of a word behind these bytes, if the word begins with them.
fn rest_behind<'a>(word: &'a [u8], front: &[u8]) -> Option<&'a [u8]>
    ensures { MatchOption result ((rest : List ℕ) → word.now ≢ front.now ++ rest) (λ rest. word.now ≡ front.now ++ rest.now) }
{
    word.strip_prefix(front)
}

/// What stands behind the symbol in a word, if the word is the symbol, or begins with it and a `#`.
#[tactic(auto, using(crate::proofs::Symbols::symbol_found, crate::proofs::Symbols::symbol_longer, crate::proofs::Symbols::symbol_missed))]
fn behind_symbol<'a>(word: &'a [u8], symbol: &[u8]) -> Option<&'a [u8]>
    ensures { option_copied result ≡ behind_symbol symbol.now word.now }
{
    let rest = rest_behind(word, symbol)?;
    if is_symbol_end(rest) {
        Some(rest)
    } else {
        None
    }
}

/// Adds a word to a text. If it is the symbol `old`, or begins with it and a `#`, it has `new` in its place.
fn push_word(text: &mut Vec<u8>, word: &[u8], old: &[u8], new: &[u8]) -> Result<(), AllocError>
    ensures { OnOk result (text.new.items ≡ text.old.items ++ word_with old.now new.now word.now) }
{
    match behind_symbol(word, old) {
        None => text.extend_from_slice(word),
        Some(rest) => {
            text.extend_from_slice(new)?;
            text.extend_from_slice(rest)
        }
    }
}

/// The symbol of a package-level declaration.
fn symbol(alloc: Global, path: &[u8], name: &[u8]) -> Result<Vec<u8>, AllocError>
    ensures { IfOk result (λ symbol. symbol.items ≡ symbol_text path.now name.now) }
{
    let mut symbol = Vec::new(alloc);
    symbol.extend_from_slice(path)?;
    symbol.push(b'#')?;
    symbol.extend_from_slice(name)?;
    Ok(symbol)
}

/// The symbol that a declaration had, and the one that it gets.
#[derive(Drop)]
struct Symbols {
    old: Vec<u8>,
    new: Vec<u8>,
}

/// Goes past a byte of a text. If it stands between words, the word before it is added, and the byte. Returns where the word begins in
/// which the next byte stands.
#[tactic(auto, using(crate::proofs::Steps::at_break, crate::proofs::Steps::in_word))]
fn pass_byte(
    renamed: &mut Vec<u8>,
    text: &[u8],
    start: usize,
    at: usize,
    symbols: &Symbols,
) -> Result<usize, AllocError>
    requires order { start ≤ at }
    requires within { at < length text.now }
    ensures start { IfOk result (λ next. next ≤ at + 1) }
    ensures text { IfOk result (λ next. so_far symbols.now.old.items symbols.now.new.items text.now renamed.new.items next (at + 1) ≡ so_far symbols.now.old.items symbols.now.new.items text.now renamed.old.items start at) }
{
    let byte = text[at];
    if !is_break(byte) {
        return Ok(start);
    }
    push_word(renamed, &text[start..at], &symbols.old, &symbols.new)?;
    renamed.push(byte)?;
    Ok(at + 1)
}

/// The symbols of a declaration under its old name and its new one.
fn symbols_of(alloc: Global, given: &GivenName) -> Result<Symbols, AllocError>
    ensures old { IfOk result (λ symbols. symbols.old.items ≡ symbol_text given.now.path given.now.old) }
    ensures new { IfOk result (λ symbols. symbols.new.items ≡ symbol_text given.now.path given.now.new) }
{
    let old = symbol(alloc, given.path(), given.old())?;
    let new = symbol(alloc, given.path(), given.name())?;
    Ok(Symbols { old, new })
}

/// The text in which each word that is the symbol `old`, or begins with it and a `#`, has `new` in its place.
#[tactic(auto, using(crate::proofs::Steps::at_start, crate::proofs::Steps::at_end))]
fn text_with(alloc: Global, text: &[u8], symbols: &Symbols) -> Result<Vec<u8>, AllocError>
    ensures { IfOk result (λ renamed. renamed.items ≡ words_with symbols.now.old.items symbols.now.new.items [] text.now) }
{
    let mut renamed = Vec::with_capacity(alloc, text.len())?;
    let mut start = 0;
    for at in 0..text.len() {
        start = pass_byte(&mut renamed, text, start, at, symbols)?;
    }
    push_word(&mut renamed, &text[start..], &symbols.old, &symbols.new)?;
    Ok(renamed)
}

/// The text in which each word that is the symbol of the declaration, or begins with it and a `#`, has the new name.
pub fn text_with_name(alloc: Global, text: &[u8], given: &GivenName) -> Result<Vec<u8>, AllocError>
    ensures { IfOk result (λ renamed. renamed.items ≡ text_with_name given.now text.now) }
{
    let symbols = symbols_of(alloc, given)?;
    text_with(alloc, text, &symbols)
}
