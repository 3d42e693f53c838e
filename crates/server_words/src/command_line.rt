//! The program's command line, with its help.
ghost use Rattle.std.specs.Prelude.{◌≡◌, IfOk, Some, codes, false, pos};
ghost use Rattle.clap.specs.Words.{app_of, rule_of, with_rule, with_subcommand};
ghost use Rattle.clap.specs.declared.builder.command.Command.TheViews.{out-Command as fields_of};
ghost use Rattle.clap.specs.declared.builder.value_parser.ValueParser.TheVariants as parser;
ghost use Rattle.server_words.specs.CommandLine.{
  bare_app,
  changing_app,
  dry_run_rule,
  ending_app,
  faults_app,
  flag_rule,
  gorefd,
  listing_app,
  lsp_app,
  move_app,
  number_rule,
  option_rule,
  rename_app,
  required_rule,
  root_rule,
  rooted_app,
  run_app,
  serve_app,
  serving_app,
  socket_rule,
  stop_app,
  uses_app,
  word_rule,
};

use clap::builder::ValueParser;
use clap::{Arg, ArgAction, Command};
use std::alloc::{AllocError, Global};

/// The version that `--version` prints.
const VERSION: &str = "0.1.0";

/// The option `--socket PATH`.
fn socket<'a>(alloc: Global) -> Arg<'a>
    ensures rule { rule_of result ≡ socket_rule }
    ensures local { result.global ≡ false }
{
    Arg::new(alloc, "socket")
        .long("socket")
        .value_name("PATH")
        .help("The path of the server's socket")
        .required(true)
}

/// An option whose value is a number from 1 to `most`.
fn number_option<'a>(alloc: Global, name: &'a str, value: &'a str, most: i64) -> Arg<'a>
    ensures rule { rule_of result ≡ record (option_rule name.now) { parser = Some (parser.Signed (pos 1) most) } }
    ensures local { result.global ≡ false }
{
    Arg::new(alloc, name)
        .long(name)
        .value_name(value)
        .value_parser(ValueParser::signed(1, most))
}

/// The option `--workers N`.
fn workers<'a>(alloc: Global) -> Arg<'a>
    ensures rule { rule_of result ≡ required_rule (number_rule (codes "workers") 16) }
    ensures local { result.global ≡ false }
{
    number_option(alloc, "workers", "N", 16)
        .help("How many threads build packages, 1 to 16")
        .required(true)
}

/// The option `--sessions M`.
fn sessions<'a>(alloc: Global) -> Arg<'a>
    ensures rule { rule_of result ≡ required_rule (number_rule (codes "sessions") 32) }
    ensures local { result.global ≡ false }
{
    number_option(alloc, "sessions", "M", 32)
        .help("How many threads serve connections, 1 to 32")
        .required(true)
}

/// The option `--stop-after K`.
fn stop_after<'a>(alloc: Global) -> Arg<'a>
    ensures rule { rule_of result ≡ number_rule (codes "stop-after") 1000000 }
    ensures local { result.global ≡ false }
{
    number_option(alloc, "stop-after", "K", 1_000_000).help(
        "Ends after K connections, 1 to 1000000; else it does not end",
    )
}

/// The option `--idle SECONDS`.
fn idle<'a>(alloc: Global) -> Arg<'a>
    ensures rule { rule_of result ≡ number_rule (codes "idle") 1000000 }
    ensures local { result.global ≡ false }
{
    number_option(alloc, "idle", "SECONDS", 1_000_000).help(
        "Ends a session whose client sends or reads nothing for so long, 1 to 1000000",
    )
}

/// The option `--chapter ENTRIES`.
fn chapter<'a>(alloc: Global) -> Arg<'a>
    ensures rule { rule_of result ≡ number_rule (codes "chapter") 900000 }
    ensures local { result.global ≡ false }
{
    number_option(alloc, "chapter", "ENTRIES", 900_000).help(
        "Closes the journal when it has so many entries, 1 to 900000; else 900000",
    )
}

/// The option `--journal DIR`.
fn journal<'a>(alloc: Global) -> Arg<'a>
    ensures rule { rule_of result ≡ option_rule (codes "journal") }
    ensures local { result.global ≡ false }
{
    Arg::new(alloc, "journal")
        .long("journal")
        .value_name("DIR")
        .help(
            "Keeps each change in this folder before it is answered, and goes on with those that are there",
        )
}

/// The subcommand `run`.
fn run_command<'a>(alloc: Global) -> Command<'a>
    ensures app { app_of result ≡ run_app }
    ensures local { (fields_of result).has_globals ≡ false }
{
    Command::new(alloc, "run").about("Serves one session from standard input to standard output")
}

/// The subcommand `serve`, with its options.
fn serve_command<'a>(alloc: Global) -> Result<Command<'a>, AllocError>
    ensures app { IfOk result (λ command. app_of command ≡ serve_app) }
    ensures local { IfOk result (λ command. (fields_of command).has_globals ≡ false) }
{
    let bare = Command::new(alloc, "serve").about(
        "Serves sessions to those who connect to a Unix socket, and builds packages beside them",
    );
    let with_socket = bare.arg(socket(alloc))?;
    let with_workers = with_socket.arg(workers(alloc))?;
    let with_sessions = with_workers.arg(sessions(alloc))?;
    let with_end = with_sessions.arg(stop_after(alloc))?;
    let with_idle = with_end.arg(idle(alloc))?;
    let with_chapter = with_idle.arg(chapter(alloc))?;
    with_chapter.arg(journal(alloc))
}

/// The option `--now`.
fn at_once<'a>(alloc: Global) -> Arg<'a>
    ensures rule { rule_of result ≡ flag_rule (codes "now") }
    ensures local { result.global ≡ false }
{
    Arg::new(alloc, "now")
        .long("now")
        .help("Shuts the connections of sessions that are under way")
        .action(ArgAction::SetTrue)
}

/// The subcommand `stop`, with its options.
fn stop_command<'a>(alloc: Global) -> Result<Command<'a>, AllocError>
    ensures app { IfOk result (λ command. app_of command ≡ stop_app) }
    ensures local { IfOk result (λ command. (fields_of command).has_globals ≡ false) }
{
    let about = "Ends a server, and returns once it has ended";
    let bare = Command::new(alloc, "stop").about(about);
    let with_socket = with_option(bare, socket(alloc))?;
    with_option(with_socket, at_once(alloc))
}

/// The command with one more option, which its subcommands do not take over.
fn with_option<'a>(command: Command<'a>, option: Arg<'a>) -> Result<Command<'a>, AllocError>
    requires before { (fields_of command).has_globals ≡ false }
    requires local { option.global ≡ false }
    ensures app { IfOk result (λ new. app_of new ≡ with_rule (app_of command.entry) (rule_of option.entry)) }
    ensures local { IfOk result (λ new. (fields_of new).has_globals ≡ false) }
{
    command.arg(option)
}

/// The option `--root DIR`.
fn root<'a>(alloc: Global) -> Arg<'a>
    ensures rule { rule_of result ≡ root_rule }
    ensures local { result.global ≡ false }
{
    Arg::new(alloc, "root")
        .long("root")
        .value_name("DIR")
        .help("The folder whose Go files are read")
        .default_value(".")
}

/// The option `--dry-run`.
fn dry_run<'a>(alloc: Global) -> Arg<'a>
    ensures rule { rule_of result ≡ dry_run_rule }
    ensures local { result.global ≡ false }
{
    Arg::new(alloc, "dry-run")
        .long("dry-run")
        .help("Prints the change as a unified diff, and changes no file")
        .action(ArgAction::SetTrue)
}

/// A word that has to be given without the name of an option.
fn word<'a>(alloc: Global, name: &'a str, help: &'a str) -> Arg<'a>
    ensures rule { rule_of result ≡ word_rule name.now }
    ensures local { result.global ≡ false }
{
    Arg::new(alloc, name)
        .value_name(name)
        .help(help)
        .required(true)
}

/// A subcommand with the option `--root`.
fn rooted_command<'a>(
    alloc: Global,
    name: &'a str,
    about: &'a str,
) -> Result<Command<'a>, AllocError>
    ensures app { IfOk result (λ command. app_of command ≡ rooted_app name.now) }
    ensures local { IfOk result (λ command. (fields_of command).has_globals ≡ false) }
{
    let bare = Command::new(alloc, name).about(about);
    with_option(bare, root(alloc))
}

/// A subcommand with the options `--root` and `--dry-run`.
fn changing_command<'a>(
    alloc: Global,
    name: &'a str,
    about: &'a str,
) -> Result<Command<'a>, AllocError>
    ensures app { IfOk result (λ command. app_of command ≡ changing_app name.now) }
    ensures local { IfOk result (λ command. (fields_of command).has_globals ≡ false) }
{
    let rooted = rooted_command(alloc, name, about)?;
    with_option(rooted, dry_run(alloc))
}

/// What is said of a word that gives a place.
const PLACE: &str =
    "PATH:#OFFSET or PATH:LINE:COLUMN: the byte of an identifier, in a file below the folder";

/// The subcommand `rename`.
fn rename_command<'a>(alloc: Global) -> Result<Command<'a>, AllocError>
    ensures app { IfOk result (λ command. app_of command ≡ rename_app) }
    ensures local { IfOk result (λ command. (fields_of command).has_globals ≡ false) }
{
    let about = "Gives what is declared or used at a place another name, in all files of a folder";
    let bare = changing_command(alloc, "rename", about)?;
    let placed = with_option(bare, word(alloc, "PLACE", PLACE))?;
    with_option(placed, word(alloc, "NAME", "The new name"))
}

/// The subcommand `move`.
fn move_command<'a>(alloc: Global) -> Result<Command<'a>, AllocError>
    ensures app { IfOk result (λ command. app_of command ≡ move_app) }
    ensures local { IfOk result (λ command. (fields_of command).has_globals ≡ false) }
{
    let about = "Gives the folder of a package another path, and changes its imports";
    let bare = changing_command(alloc, "move", about)?;
    let from = with_option(bare, word(alloc, "FROM", "The folder of the package"))?;
    with_option(from, word(alloc, "TO", "Its new path"))
}

/// The subcommand `uses`.
fn uses_command<'a>(alloc: Global) -> Result<Command<'a>, AllocError>
    ensures app { IfOk result (λ command. app_of command ≡ uses_app) }
    ensures local { IfOk result (λ command. (fields_of command).has_globals ≡ false) }
{
    let about = "Lists the uses of what is declared or used at a place";
    let bare = rooted_command(alloc, "uses", about)?;
    with_option(bare, word(alloc, "PLACE", PLACE))
}

/// The subcommand `faults`.
fn faults_command<'a>(alloc: Global) -> Result<Command<'a>, AllocError>
    ensures app { IfOk result (λ command. app_of command ≡ faults_app) }
    ensures local { IfOk result (λ command. (fields_of command).has_globals ≡ false) }
{
    rooted_command(
        alloc,
        "faults",
        "Lists the faults of the Go files of a folder",
    )
}

/// The subcommand `lsp`.
fn lsp_command<'a>(alloc: Global) -> Result<Command<'a>, AllocError>
    ensures app { IfOk result (λ command. app_of command ≡ lsp_app) }
    ensures local { IfOk result (λ command. (fields_of command).has_globals ≡ false) }
{
    let about = "Serves an editor from standard input to standard output, as a language server";
    rooted_command(alloc, "lsp", about)
}

/// The program's command line without its subcommands.
fn bare_command<'a>(alloc: Global) -> Command<'a>
    ensures { app_of result ≡ bare_app }
{
    Command::new(alloc, "gorefd")
        .about("Renames and moves in Go source, with undo, and builds packages")
        .version(VERSION)
        .subcommand_required(true)
        .disable_help_subcommand(true)
}

/// The command line with the subcommands that serve sessions.
fn serving_command<'a>(alloc: Global) -> Result<Command<'a>, AllocError>
    ensures { IfOk result (λ command. app_of command ≡ serving_app) }
{
    let command = bare_command(alloc).subcommand(run_command(alloc))?;
    let serve = serve_command(alloc)?;
    command.subcommand(serve)
}

/// The command line with the subcommand that ends a server, too.
fn with_stop<'a>(alloc: Global) -> Result<Command<'a>, AllocError>
    ensures { IfOk result (λ command. app_of command ≡ ending_app) }
{
    let serving = serving_command(alloc)?;
    let stop = stop_command(alloc)?;
    serving.subcommand(stop)
}

/// The command line with the subcommands that serve sessions and those that change files.
fn with_changes<'a>(alloc: Global) -> Result<Command<'a>, AllocError>
    ensures { IfOk result (λ command. app_of command ≡ with_subcommand (with_subcommand ending_app rename_app.top) move_app.top) }
{
    let ending = with_stop(alloc)?;
    let rename = rename_command(alloc)?;
    let renaming = ending.subcommand(rename)?;
    let moving = move_command(alloc)?;
    renaming.subcommand(moving)
}

/// The command line with the subcommands of sessions and of folders.
fn with_lists<'a>(alloc: Global) -> Result<Command<'a>, AllocError>
    ensures { IfOk result (λ command. app_of command ≡ listing_app) }
{
    let changing = with_changes(alloc)?;
    let faults = faults_command(alloc)?;
    let listing = changing.subcommand(faults)?;
    let uses = uses_command(alloc)?;
    listing.subcommand(uses)
}

/// The program's command line.
pub(crate) fn command_line<'a>(alloc: Global) -> Result<Command<'a>, AllocError>
    ensures { IfOk result (λ command. app_of command ≡ gorefd) }
{
    let listing = with_lists(alloc)?;
    let lsp = lsp_command(alloc)?;
    listing.subcommand(lsp)
}
