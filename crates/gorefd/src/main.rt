//! The program `gorefd`. It serves one session over a book of its own, from standard input to standard output, or sessions on a socket. Or it
//! does a command over a folder of Go files, or serves an editor.
#![tactic(auto)]

ghost use Rattle.std.specs.Io.KnownBytes.{Appends};
ghost use Rattle.std.specs.Prelude.{◌≡◌, ◌≤◌, ◌&&◌, IfErr, IfOk, OnOk, false, if◌then◌else◌};
ghost use Rattle.std.specs.Process.{exit_status};
ghost use Rattle.gorefd.specs.Statuses.{IsStatusOf, IsUnread};
ghost use Rattle.gorefd.specs.OneSession.{ServesOne};

mod fault;

use base_files::Limits;
use fault::ProgramFault;
use lsp_server::serve_editor;
use server_session::{SessionFault, session_alone};
use server_shared::OpenGate;
use server_socket::{StopFault, serve, stop};
use server_words::{RequestFault, Words, read_request};
use std::alloc::Global;
use std::env::Env;
use std::fmt::Display;
use std::io;
use std::io::{BufReader, BufWriter, ErrorKind, Read, Write};
use std::process::ExitCode;
use tool_commands::{list_faults, list_uses, move_package, rename};
use tool_disk::ToolFault;
use tool_told::CommandOutcome;

/// The usage text where a word of the command line is not UTF-8.
const NOT_UTF8: &str =
    "error: a word is not UTF-8\n\nUsage: gorefd <COMMAND>\n\nFor more information, try '--help'.\n";

/// Serves one session with the greatest limits, over a new book that has them too. Returns how it ended, and the writer.
fn serve_from<I: Read + Drop, O: Write>(
    alloc: Global,
    input: I,
    output: O,
) -> (Result<(), SessionFault>, O)
    ensures { ServesOne result.0 }
{
    session_alone(alloc, input, output, Limits::FULL)
}

/// Serves one session from standard input to standard output. Returns how it ended, if there was memory to begin it.
fn serve_one(
    rt: &(impl Input + Print + AllocGlobal),
) -> Result<Result<(), SessionFault>, ProgramFault>
    ensures { IfOk result ServesOne }
{
    let alloc = rt.alloc();
    let input = BufReader::new(alloc, rt.reader()).map_err(|_| ProgramFault::Memory)?;
    let output = BufWriter::new(alloc, std::io::writer(rt)).map_err(|_| ProgramFault::Memory)?;
    let (ended, _output) = serve_from(alloc, input, output);
    Ok(ended)
}

/// Serves one session from standard input to standard output.
fn run(rt: &(impl Input + Print + AllocGlobal)) -> Result<(), ProgramFault> {
    let ended = serve_one(rt)?;
    ended?;
    Ok(())
}

/// Prints how many entries the settled journal has, and returns the exit status.
fn print_settled<R: Print + Eprint>(rt: &R, entries: u64) -> ExitCode
    ensures { exit_status result ≤ 1 }
{
    match println!(rt; "settled {entries}") {
        Ok(()) => ExitCode::SUCCESS,
        Err(_) => ended(rt, ProgramFault::Write),
    }
}

/// Prints nothing where a server was ended, and else why none was. Returns the exit status.
fn print_stopped(rt: &impl Eprint, came: Result<(), StopFault>) -> ExitCode
    ensures within { exit_status result ≤ 1 }
    ensures failed { IfErr came (λ _. exit_status result ≡ 1) }
{
    match came {
        Ok(()) => ExitCode::SUCCESS,
        Err(fault) => ended(rt, fault),
    }
}

/// Prints on standard error why the program ended, and returns the exit status 1.
fn ended(rt: &impl Eprint, fault: impl Display + Drop) -> ExitCode
    ensures { exit_status result ≡ 1 }
{
    let _ = eprintln!(rt; "gorefd: {fault}");
    ExitCode::from(1)
}

/// Prints the text of words that make no request, and returns the exit status: 0 for help and the version, 2 for a usage text.
fn print_fault<R: Print + Eprint>(rt: &R, fault: &RequestFault) -> ExitCode
    ensures { IsStatusOf fault.now (exit_status result) }
{
    match fault {
        RequestFault::Memory => ended(rt, ProgramFault::Memory),
        RequestFault::Help(text) | RequestFault::Version(text) => match print!(rt; "{text}") {
            Ok(()) => ExitCode::SUCCESS,
            Err(_) => ended(rt, ProgramFault::Write),
        },
        RequestFault::Usage(text) => {
            let _ = eprint!(rt; "{text}");
            ExitCode::from(2)
        }
    }
}

/// Writes the output and the notes of a command over a folder. It tells what came of the output, and of the notes.
fn write_outcome<O: Write, N: Write>(
    output: &mut O,
    notes: &mut N,
    outcome: &CommandOutcome,
) -> (io::Result<()>, io::Result<()>)
    ensures output { OnOk result.0 (Appends (O.contents output.old) (O.contents output.new) outcome.now.output.items) }
    ensures notes { OnOk result.1 (Appends (N.contents notes.old) (N.contents notes.new) outcome.now.notes.items) }
{
    let noted = notes.write_all(outcome.notes.as_slice());
    let printed = output.write_all(outcome.output.as_slice());
    (printed, noted)
}

/// The exit status of a command over a folder: 0 where it was done and its output is written, else 1.
fn outcome_status(is_done: bool, is_written: bool) -> ExitCode
    ensures { exit_status result ≡ (if is_done && is_written then 0 else 1) }
{
    if is_done && is_written {
        ExitCode::SUCCESS
    } else {
        ExitCode::from(1)
    }
}

/// Prints what a command over a folder has to print, and returns the exit status: 0 where it was done and its output is written, else 1.
fn print_outcome(rt: &HostRuntime, outcome: &CommandOutcome) -> ExitCode
    ensures within { exit_status result ≤ 1 }
    ensures refused { outcome.now.is_done ≡ false → exit_status result ≡ 1 }
{
    let mut output = std::io::writer(rt);
    let mut notes = rt.stderr();
    let (printed, _noted) = write_outcome(&mut output, &mut notes, outcome);
    if printed.is_err() {
        let _ = eprintln!(rt; "gorefd: {}", ProgramFault::Write);
    }
    outcome_status(outcome.is_done, printed.is_ok())
}

/// Prints what came of a command over a folder, and returns the exit status.
fn print_command(rt: &HostRuntime, came: Result<CommandOutcome, ToolFault>) -> ExitCode
    ensures within { exit_status result ≤ 1 }
    ensures failed { IfErr came (λ _. exit_status result ≡ 1) }
{
    match came {
        Ok(outcome) => print_outcome(rt, &outcome),
        Err(fault) => ended(rt, fault),
    }
}

/// Serves an editor from standard input to standard output. Returns whether its session ended orderly.
fn edit(rt: &HostRuntime, root: &str) -> Result<bool, ProgramFault> {
    let alloc = rt.alloc();
    let input = BufReader::new(alloc, rt.reader()).map_err(|_| ProgramFault::Memory)?;
    let output = BufWriter::new(alloc, std::io::writer(rt)).map_err(|_| ProgramFault::Memory)?;
    let (ended, _output) = serve_editor(rt, root, input, output);
    Ok(ended?)
}

/// Serves an editor, and returns the exit status: 0 where its session ended orderly, else 1.
fn serve_lsp(rt: &HostRuntime, root: &str) -> ExitCode
    ensures { exit_status result ≤ 1 }
{
    match edit(rt, root) {
        Ok(true) => ExitCode::SUCCESS,
        Ok(false) => ExitCode::from(1),
        Err(fault) => ended(rt, fault),
    }
}

/// The words of the command line, the first of which is the program's name.
fn words<R: Env + AllocGlobal>(rt: &R) -> Result<Vec<String>, RequestFault>
    ensures { IfErr result (IsUnread NOT_UTF8.now) }
{
    match std::env::args(rt) {
        Ok(words) => Ok(words.collect(rt.alloc())?),
        Err(error) if error.kind() == ErrorKind::OutOfMemory => Err(RequestFault::Memory),
        Err(_) => {
            let text = String::from_str(rt.alloc(), NOT_UTF8)?;
            Err(RequestFault::Usage(text))
        }
    }
}

fn main(rt: HostRuntime) -> ExitCode {
    let words = match words(&rt) {
        Ok(words) => words,
        Err(fault) => return print_fault(&rt, &fault),
    };
    match read_request(rt.alloc(), words.as_slice()) {
        Ok(Words::Run) => match run(&rt) {
            Ok(()) => ExitCode::SUCCESS,
            Err(fault) => ended(&rt, fault),
        },
        Ok(Words::Serve(words)) => match serve(&rt, &words, &OpenGate) {
            Ok(entries) => print_settled(&rt, entries),
            Err(fault) => ended(&rt, fault),
        },
        Ok(Words::Stop(words)) => print_stopped(&rt, stop(&rt, words.socket, words.at_once)),
        Ok(Words::Rename(options)) => print_command(&rt, rename(&rt, &options)),
        Ok(Words::Move(options)) => print_command(&rt, move_package(&rt, &options)),
        Ok(Words::Uses(options)) => print_command(&rt, list_uses(&rt, &options)),
        Ok(Words::Faults(options)) => print_command(&rt, list_faults(&rt, &options)),
        Ok(Words::Lsp(options)) => serve_lsp(&rt, options.root),
        Err(fault) => print_fault(&rt, &fault),
    }
}
