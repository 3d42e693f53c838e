//! Takes the lines of commands apart. A later command is an arm here.
ghost use Rattle.std.specs.Prelude.{◌≡◌, ◌^◌, codes, MatchBool};
ghost use Rattle.server_read.specs.Words.{HasNoSpace};
ghost use Rattle.server_read.specs.Parsing.{SplitsWord, SplitsPlace, ReadsNumber, ReadsPart, ReadsArgument, ReadsPlace, ParsesBare, ParsesArgs, ParsesLine};

use crate::{Command, StateCommand, Word};
use itoa::Buffer;

/// The number below 2^64 that the text is the decimal of, without leading zeros.
fn parse_u64(text: &str) -> Option<u64>
    ensures { ReadsNumber (2 ^ 64) text.now result }
{
    let number = text.parse::<u64>().ok()?;
    let mut digits = Buffer::new();
    if digits.format(number) == text {
        Some(number)
    } else {
        None
    }
}

/// The number below 2^32 that the text is the decimal of, without leading zeros.
fn parse_u32(text: &str) -> Option<u32>
    ensures { ReadsNumber (2 ^ 32) text.now result }
{
    u32::try_from(parse_u64(text)?).ok()
}

/// The parts of the text before and after its first space.
fn split_word(text: &str) -> Option<(&str, &str)>
    ensures { SplitsWord text.now result }
{
    text.split_once(' ')
}

/// Whether the text has no space.
fn has_no_space(text: &str) -> bool
    ensures { MatchBool result (HasNoSpace text.now) (HasNoSpace text.now → ⊥) }
{
    split_word(text).is_none()
}

/// The parts of the text before and after its last `:#`.
#[tactic(auto, using(crate::proofs::Places::last_mark))]
fn split_place(text: &str) -> Option<(&str, &str)>
    ensures { SplitsPlace text.now result }
{
    text.rsplit_once(":#")
}

/// The text as the part of a word before an offset: it may be empty, and has no space.
fn parse_part(text: &str) -> Option<Word<'_>>
    ensures { ReadsPart text.now result }
{
    if has_no_space(text) {
        Some(Word::new(text))
    } else {
        None
    }
}

/// The text as a word: it isn't empty, and has no space.
fn parse_argument(text: &str) -> Option<Word<'_>>
    ensures { ReadsArgument text.now result }
{
    if !text.is_empty() && has_no_space(text) {
        Some(Word::new(text))
    } else {
        None
    }
}

/// The path and the offset of a place `path:#offset`.
fn parse_place(text: &str) -> Option<(Word<'_>, usize)>
    ensures { ReadsPlace text.now result }
{
    let (path, offset) = split_place(text)?;
    Some((parse_part(path)?, parse_u32(offset)? as usize))
}

/// The command `put BASIS PATH SIZE` with these words after `put`.
fn parse_put(words: &str) -> Option<Command<'_>>
    ensures { ParsesArgs (codes "put") words.now result }
{
    let (basis, rest) = split_word(words)?;
    let (path, size) = split_word(rest)?;
    Some(Command::OnState(StateCommand::Put {
        basis: parse_u64(basis)?,
        path: parse_argument(path)?,
        size: parse_u32(size)?,
        body: None,
    }))
}

/// The command `del BASIS PATH` with these words after `del`.
fn parse_del(words: &str) -> Option<Command<'_>>
    ensures { ParsesArgs (codes "del") words.now result }
{
    let (basis, path) = split_word(words)?;
    Some(Command::OnState(StateCommand::Del {
        basis: parse_u64(basis)?,
        path: parse_argument(path)?,
    }))
}

/// The command `rename BASIS PATH:#OFFSET NAME` with these words after `rename`.
fn parse_rename(words: &str) -> Option<Command<'_>>
    ensures { ParsesArgs (codes "rename") words.now result }
{
    let (basis, rest) = split_word(words)?;
    let (place, name) = split_word(rest)?;
    let (path, offset) = parse_place(place)?;
    Some(Command::OnState(StateCommand::Rename {
        basis: parse_u64(basis)?,
        path,
        offset,
        name: parse_argument(name)?,
    }))
}

/// The command `move BASIS FROM TO` with these words after `move`.
fn parse_move(words: &str) -> Option<Command<'_>>
    ensures { ParsesArgs (codes "move") words.now result }
{
    let (basis, rest) = split_word(words)?;
    let (from, to) = split_word(rest)?;
    Some(Command::OnState(StateCommand::Move {
        basis: parse_u64(basis)?,
        from: parse_argument(from)?,
        to: parse_argument(to)?,
    }))
}

/// The command `undo BASIS` with this word after `undo`.
fn parse_undo(words: &str) -> Option<Command<'_>>
    ensures { ParsesArgs (codes "undo") words.now result }
{
    let basis = parse_u64(words)?;
    Some(Command::OnState(StateCommand::Undo { basis }))
}

/// The command `redo BASIS` with this word after `redo`.
fn parse_redo(words: &str) -> Option<Command<'_>>
    ensures { ParsesArgs (codes "redo") words.now result }
{
    let basis = parse_u64(words)?;
    Some(Command::OnState(StateCommand::Redo { basis }))
}

/// The command `cat PATH` with this word after `cat`.
fn parse_cat(words: &str) -> Option<Command<'_>>
    ensures { ParsesArgs (codes "cat") words.now result }
{
    let path = parse_argument(words)?;
    Some(Command::OnState(StateCommand::Cat { path }))
}

/// The command `object PATH` with this word after `object`.
fn parse_object(words: &str) -> Option<Command<'_>>
    ensures { ParsesArgs (codes "object") words.now result }
{
    let path = parse_argument(words)?;
    Some(Command::OnState(StateCommand::Object { path }))
}

/// The command `objects BASIS` with this word after `objects`.
fn parse_objects(words: &str) -> Option<Command<'_>>
    ensures { ParsesArgs (codes "objects") words.now result }
{
    let basis = parse_u64(words)?;
    Some(Command::OnState(StateCommand::Objects { basis }))
}

/// The command `uses PATH:#OFFSET` with this word after `uses`.
fn parse_uses(words: &str) -> Option<Command<'_>>
    ensures { ParsesArgs (codes "uses") words.now result }
{
    let (path, offset) = parse_place(words)?;
    Some(Command::OnState(StateCommand::Uses { path, offset }))
}

/// The command `log NUMBER` with this word after `log`.
fn parse_log(words: &str) -> Option<Command<'_>>
    ensures { ParsesArgs (codes "log") words.now result }
{
    let number = parse_u64(words)?;
    Some(Command::Log { number })
}

/// The command of this one word.
fn parse_bare(verb: &str) -> Option<Command<'_>>
    ensures { ParsesBare verb.now result }
{
    match verb {
        "look" => Some(Command::OnState(StateCommand::Look)),
        "list" => Some(Command::OnState(StateCommand::List)),
        "faults" => Some(Command::OnState(StateCommand::Faults)),
        "work" => Some(Command::OnState(StateCommand::Work)),
        "wait" => Some(Command::Wait),
        "status" => Some(Command::Status),
        _ => None,
    }
}

/// The command with this first word and these words after it.
fn parse_verb<'a>(verb: &str, words: &'a str) -> Option<Command<'a>>
    ensures { ParsesArgs verb.now words.now result }
{
    match verb {
        "put" => parse_put(words),
        "del" => parse_del(words),
        "rename" => parse_rename(words),
        "move" => parse_move(words),
        "undo" => parse_undo(words),
        "redo" => parse_redo(words),
        "cat" => parse_cat(words),
        "uses" => parse_uses(words),
        "object" => parse_object(words),
        "objects" => parse_objects(words),
        "log" => parse_log(words),
        _ => None,
    }
}

/// The command whose line the text is, or `None` where there is none.
pub fn parse_command(text: &str) -> Option<Command<'_>>
    ensures { ParsesLine text.now result }
{
    match split_word(text) {
        None => parse_bare(text),
        Some((verb, words)) => parse_verb(verb, words),
    }
}
