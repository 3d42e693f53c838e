//! Reads the words of a command line as a request, or finds why they make none.
ghost use Rattle.std.specs.Prelude.{◌≡◌, IfOk, map, string_bytes};
ghost use Rattle.clap.specs.Words.{FailsBy, fault_of, kind_of, subcommand_of, subcommand_rows_of};
ghost use Rattle.server_words.specs.CommandLine.{gorefd};
ghost use Rattle.server_words.specs.Reads.{IsUsage, ReadsRequest, IsParserFault};

use crate::command_line::command_line;
use crate::requests::{Words, asked};
use clap::error::ErrorKind;
use clap::{ArgMatches, Error};
use std::alloc::{AllocError, Global};

/// Why words make no request.
#[derive(Drop)]
pub enum RequestFault {
    /// Memory was wanting.
    Memory,
    /// The words ask for help. The text goes to standard output.
    Help(String),
    /// The words ask for the program's version. The text goes to standard output.
    Version(String),
    /// The words are no command line of the program. The text goes to standard error.
    Usage(String),
}

impl From<AllocError> for RequestFault {
    ghost use Rattle.server_words.specs.declared.reading.RequestFault.TheVariants.{Memory};

    ghost from_gives = { λ _ fault. fault ≡ Memory };

    fn from(_: AllocError) -> RequestFault {
        RequestFault::Memory
    }
}

/// The fault that an error of the parser is, with the text that it prints.
fn as_fault(alloc: Global, error: &Error) -> Result<RequestFault, AllocError>
    ensures { IfOk result (IsParserFault (kind_of error.now)) }
{
    match error.kind() {
        ErrorKind::OutOfMemory => Ok(RequestFault::Memory),
        ErrorKind::DisplayHelp => Ok(RequestFault::Help(format!(in alloc; "{error}")?)),
        ErrorKind::DisplayVersion => Ok(RequestFault::Version(format!(in alloc; "{error}")?)),
        _ => Ok(RequestFault::Usage(format!(in alloc; "{error}")?)),
    }
}

/// The fault of words that the parser accepts and that make no request.
fn no_request(alloc: Global) -> Result<RequestFault, AllocError>
    ensures { IfOk result IsUsage }
{
    let text = String::from_str(alloc, "error: these words ask nothing\n")?;
    Ok(RequestFault::Usage(text))
}

/// Parses the words of a command line, the first of which is the program's name.
fn parse<'a>(alloc: Global, words: &'a [String]) -> Result<ArgMatches<'a>, Error>
    ensures found { IfOk result (λ matches. subcommand_rows_of matches ≡ subcommand_of gorefd (map string_bytes words.now)) }
    ensures fails { FailsBy (fault_of gorefd (map string_bytes words.now)) result }
{
    let line = command_line(alloc)?;
    line.try_get_matches_from(words)
}

/// Reads the words of a command line, the first of which is the program's name, as a request.
pub fn read_request<'a>(alloc: Global, words: &'a [String]) -> Result<Words<'a>, RequestFault>
    ensures { ReadsRequest (map string_bytes words.now) result }
{
    match parse(alloc, words) {
        Ok(matches) => match asked(&matches) {
            Some(words) => Ok(words),
            None => Err(no_request(alloc)?),
        },
        Err(error) => Err(as_fault(alloc, &error)?),
    }
}
