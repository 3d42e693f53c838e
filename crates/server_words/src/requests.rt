//! The request that the matches of a command line make.
ghost use Rattle.std.specs.Prelude.{◌≡◌, Some, codes, option_map};
ghost use Rattle.clap.specs.Words.{found_of, rows_of, subcommand_rows_of};
ghost use Rattle.server_words.specs.CommandRequests.{FindsRequest, FindsNumber, FindsOptional, FindsServe, FindsStop};

use crate::tools::{
    FaultsOptions, LspOptions, MoveOptions, RenameOptions, UsesOptions, faults_options, is_given,
    lsp_options, move_options, rename_options, uses_options, value,
};
use clap::ArgMatches;

/// The options of `serve`: the path of the socket, and how many threads build packages and how many serve connections. `stop_after` is the
/// number of connections after which to end, if there is one. `idle` is for how many seconds a client may send nothing, if that is limited.
/// `chapter` is how many entries a chapter of the journal has, if that is said. `journal` is the folder where the changes are kept, if there is
/// one.
#[derive(Clone, Copy)]
pub struct ServeOptions<'a> {
    pub socket: &'a str,
    pub workers: u32,
    pub sessions: u32,
    pub stop_after: Option<u32>,
    pub idle: Option<u32>,
    pub chapter: Option<u32>,
    pub journal: Option<&'a str>,
}

/// The options of `stop`: the path of the socket, and whether the connections of sessions under way are shut.
#[derive(Clone, Copy)]
pub struct StopOptions<'a> {
    pub socket: &'a str,
    pub at_once: bool,
}

/// The request of a command line.
#[derive(Clone, Copy)]
pub enum Words<'a> {
    /// Serve one session from standard input to standard output.
    Run,
    /// Serve sessions on a socket.
    Serve(ServeOptions<'a>),
    /// End a server.
    Stop(StopOptions<'a>),
    /// Rename in the files of a folder.
    Rename(RenameOptions<'a>),
    /// Move a package in a folder.
    Move(MoveOptions<'a>),
    /// List uses in the files of a folder.
    Uses(UsesOptions<'a>),
    /// List the faults of the files of a folder.
    Faults(FaultsOptions<'a>),
    /// Serve an editor from standard input to standard output.
    Lsp(LspOptions<'a>),
}

/// The number that an option was given, or `None` where it was given none from 1 to `most`.
fn number(matches: &ArgMatches<'_>, option: &str, most: u32) -> Option<u32>
    ensures { FindsNumber option.now most (rows_of (found_of matches.now)) result }
{
    let number = matches.get_one::<u32>(option)?;
    if 1 <= number && number <= most {
        Some(number)
    } else {
        None
    }
}

/// The number of an option that need not be given, or `Some(None)` without it. It is `None` where the option was given no number from 1 to
/// 1000000.
fn optional_number(matches: &ArgMatches<'_>, option: &str) -> Option<Option<u32>>
    ensures { FindsOptional option.now (rows_of (found_of matches.now)) result }
{
    match matches.get_str(option) {
        None => Some(None),
        Some(_) => Some(Some(number(matches, option, 1_000_000)?)),
    }
}

/// The options of `serve`, or `None` where one is missing or out of its range.
fn serve_words<'a>(matches: &ArgMatches<'a>) -> Option<ServeOptions<'a>>
    ensures { FindsServe (rows_of (found_of matches.now)) result }
{
    let socket = matches.get_str("socket")?;
    let workers = number(matches, "workers", 16)?;
    let sessions = number(matches, "sessions", 32)?;
    let stop_after = optional_number(matches, "stop-after")?;
    let idle = optional_number(matches, "idle")?;
    let chapter = optional_number(matches, "chapter")?;
    let journal = matches.get_str("journal");
    Some(ServeOptions {
        socket,
        workers,
        sessions,
        stop_after,
        idle,
        chapter,
        journal,
    })
}

/// The options of `stop`, or `None` where the path is missing.
fn stop_words<'a>(matches: &ArgMatches<'a>) -> Option<StopOptions<'a>>
    ensures { FindsStop (rows_of (found_of matches.now)) result }
{
    let socket = value(matches, "socket")?;
    Some(StopOptions {
        socket,
        at_once: is_given(matches, "now"),
    })
}

/// The name of the subcommand, with its matches.
fn named<'a, 'b>(matches: &'b ArgMatches<'a>) -> Option<(&'a str, &'b ArgMatches<'a>)>
    ensures { option_map (λ p. (p.0.now, rows_of (found_of p.1.now))) result ≡ subcommand_rows_of matches.now }
{
    matches.subcommand()
}

/// The request of the subcommand `serve` with these matches.
fn serve_request<'a>(matches: &ArgMatches<'a>) -> Option<Words<'a>>
    ensures { FindsRequest (Some (codes "serve", rows_of (found_of matches.now))) result }
{
    match serve_words(matches) {
        Some(words) => Some(Words::Serve(words)),
        None => None,
    }
}

/// The request of the subcommand `stop` with these matches.
fn stop_request<'a>(matches: &ArgMatches<'a>) -> Option<Words<'a>>
    ensures { FindsRequest (Some (codes "stop", rows_of (found_of matches.now))) result }
{
    match stop_words(matches) {
        Some(words) => Some(Words::Stop(words)),
        None => None,
    }
}

/// The request of the subcommand `rename` with these matches.
fn rename_request<'a>(matches: &ArgMatches<'a>) -> Option<Words<'a>>
    ensures { FindsRequest (Some (codes "rename", rows_of (found_of matches.now))) result }
{
    match rename_options(matches) {
        Some(options) => Some(Words::Rename(options)),
        None => None,
    }
}

/// The request of the subcommand `move` with these matches.
fn move_request<'a>(matches: &ArgMatches<'a>) -> Option<Words<'a>>
    ensures { FindsRequest (Some (codes "move", rows_of (found_of matches.now))) result }
{
    match move_options(matches) {
        Some(options) => Some(Words::Move(options)),
        None => None,
    }
}

/// The request of the subcommand `uses` with these matches.
fn uses_request<'a>(matches: &ArgMatches<'a>) -> Option<Words<'a>>
    ensures { FindsRequest (Some (codes "uses", rows_of (found_of matches.now))) result }
{
    match uses_options(matches) {
        Some(options) => Some(Words::Uses(options)),
        None => None,
    }
}

/// The request of the subcommand `faults` with these matches.
fn faults_request<'a>(matches: &ArgMatches<'a>) -> Option<Words<'a>>
    ensures { FindsRequest (Some (codes "faults", rows_of (found_of matches.now))) result }
{
    match faults_options(matches) {
        Some(options) => Some(Words::Faults(options)),
        None => None,
    }
}

/// The request of the subcommand `lsp` with these matches.
fn lsp_request<'a>(matches: &ArgMatches<'a>) -> Option<Words<'a>>
    ensures { FindsRequest (Some (codes "lsp", rows_of (found_of matches.now))) result }
{
    match lsp_options(matches) {
        Some(options) => Some(Words::Lsp(options)),
        None => None,
    }
}

/// The request of the subcommand of this name with these matches.
fn request_by<'a>(name: &str, matches: &ArgMatches<'a>) -> Option<Words<'a>>
    ensures { FindsRequest (Some (name.now, rows_of (found_of matches.now))) result }
{
    match name {
        "run" => Some(Words::Run),
        "serve" => serve_request(matches),
        "stop" => stop_request(matches),
        "rename" => rename_request(matches),
        "move" => move_request(matches),
        "uses" => uses_request(matches),
        "faults" => faults_request(matches),
        "lsp" => lsp_request(matches),
        _ => None,
    }
}

/// The request of a command line with these matches.
pub(crate) fn asked<'a>(matches: &ArgMatches<'a>) -> Option<Words<'a>>
    ensures { FindsRequest (subcommand_rows_of matches.now) result }
{
    let (name, found) = named(matches)?;
    request_by(name, found)
}
