//! The commands that change files: `rename` and `move`.
ghost use Rattle.std.specs.Prelude.{◌≡◌, ◌↔◌, IfOk, IsTrue, string_bytes};
ghost use Rattle.tool_told.specs.Asked.{path_below};
ghost use Rattle.tool_commands.specs.Told.{
  IsAboutSource,
  TellsChange,
  TellsMoveOf,
  TellsMoved,
  TellsRename,
  TellsRenameOf,
  TellsSome,
};

use crate::opened::Opened;
use base_files::Refusal;
use refactor_preserve::Planned;
use server_words::{MoveOptions, RenameOptions};
use std::alloc::{AllocError, Global};
use std::fs::File;
use std::rt::Files;
use std::thread::Threads;
use tool_disk::{ToolFault, refuse_left_out};
use tool_text::plain_path;
use tool_told::{CommandOutcome, NamedPlace, path_below, path_of};

/// Shows a planned change in a dry run, and else makes it. `run` is the folder, and whether it is a dry run. `moved` is the folder that moves
/// and its new path, or two empty texts.
fn show_or_write<R: Files + AllocGlobal>(
    rt: &R,
    opened: &Opened,
    run: (&str, bool),
    moved: (&str, &str),
    planned: &Planned,
) -> Result<CommandOutcome, ToolFault>
    ensures { IfOk result (TellsChange opened.now run.entry.1 planned.now.change) }
{
    let (root, dry_run) = run;
    if dry_run {
        Ok(opened.show(rt.alloc(), planned)?)
    } else {
        opened.write(rt, root, moved, planned)
    }
}

/// Renames what is declared or used at a byte, in all files of a folder.
fn rename_byte<R: Files + AllocGlobal>(
    rt: &R,
    opened: &Opened,
    options: &RenameOptions<'_>,
    byte: (&str, usize),
) -> Result<CommandOutcome, ToolFault>
    ensures { IfOk result (TellsRename opened.now options.now.place.now options.now.name.now options.now.dry_run byte.entry.0.now byte.entry.1) }
{
    let alloc = rt.alloc();
    let (path, offset) = byte;
    match opened.folder.rename(alloc, path, offset, options.name) {
        Err(refusal) => Ok(opened.refused_at(alloc, options.place, byte, &refusal)?),
        Ok(planned) => {
            let run = (options.root, options.dry_run);
            show_or_write(rt, opened, run, ("", ""), &planned)
        }
    }
}

/// Renames what a word of a place names, in all files of a folder.
fn rename_named<R: Files + AllocGlobal>(
    rt: &R,
    opened: &Opened,
    options: &RenameOptions<'_>,
) -> Result<CommandOutcome, ToolFault>
    ensures { IfOk result (TellsRenameOf options.now opened.now) }
{
    let alloc = rt.alloc();
    match opened.named(alloc, options.place)? {
        NamedPlace::NoPlace => Ok(opened.no_place(alloc, options.place)?),
        NamedPlace::NoPosition => Ok(opened.no_position(alloc, options.place)?),
        NamedPlace::Byte { path, offset } => {
            rename_byte(rt, opened, options, (path.as_str(), offset))
        }
    }
}

/// Renames what is declared or used at a place, in all files of a folder.
pub fn rename<R: Files<File = File> + Threads + AllocGlobal + Clone + Drop>(
    rt: &R,
    options: &RenameOptions<'_>,
) -> Result<CommandOutcome, ToolFault>
    ensures { IfOk result (TellsSome (TellsRenameOf options.now)) }
{
    let opened = Opened::to_write(rt, options.root, options.dry_run)?;
    let outcome = rename_named(rt, &opened, options)?;
    opened.leave();
    Ok(outcome)
}

/// Whether a refused move is about the folder that was to move: it has no package, or its path is none.
fn is_about_source(alloc: Global, from: &str, refusal: &Refusal) -> Result<bool, AllocError>
    ensures { IfOk result (λ is. IsTrue is ↔ IsAboutSource from.now refusal.now) }
{
    match refusal {
        Refusal::NoPackage => Ok(true),
        Refusal::BadPath => Ok(path_of(alloc, from)?.is_none()),
        _ => Ok(false),
    }
}

/// The outcome of a move that is refused.
fn refused_move(
    alloc: Global,
    opened: &Opened,
    options: &MoveOptions<'_>,
    from: &str,
    refusal: &Refusal,
) -> Result<CommandOutcome, AllocError>
    requires { from.now ≡ path_below (string_bytes opened.now.prefix) options.now.from.now }
    ensures { IfOk result (TellsMoved opened.now options.now.from.now options.now.to.now options.now.dry_run (Err refusal.now)) }
{
    if is_about_source(alloc, from, refusal)? {
        opened.refused(alloc, options.from, None, refusal)
    } else {
        opened.refused(alloc, options.to, None, refusal)
    }
}

/// Moves a folder to another path. Both paths are those in the workspace.
fn move_between<R: Files + AllocGlobal>(
    rt: &R,
    opened: &Opened,
    options: &MoveOptions<'_>,
    paths: (&str, &str),
) -> Result<CommandOutcome, ToolFault>
    requires from { paths.0.now ≡ path_below (string_bytes opened.now.prefix) options.now.from.now }
    requires to { paths.1.now ≡ path_below (string_bytes opened.now.prefix) options.now.to.now }
    ensures { IfOk result (TellsMoveOf options.now opened.now) }
{
    let alloc = rt.alloc();
    let (from, to) = paths;
    match opened.folder.move_package(alloc, from, to) {
        Err(refusal) => Ok(refused_move(alloc, opened, options, from, &refusal)?),
        Ok(planned) => {
            let run = (options.root, options.dry_run);
            let moved = (plain_path(options.from), plain_path(options.to));
            show_or_write(rt, opened, run, moved, &planned)
        }
    }
}

/// Moves the folder of a package in an opened folder.
fn move_named<R: Files + AllocGlobal>(
    rt: &R,
    opened: &Opened,
    options: &MoveOptions<'_>,
) -> Result<CommandOutcome, ToolFault>
    ensures { IfOk result (TellsMoveOf options.now opened.now) }
{
    let alloc = rt.alloc();
    let from = path_below(alloc, opened.prefix.as_str(), options.from)?;
    let to = path_below(alloc, opened.prefix.as_str(), options.to)?;
    move_between(rt, opened, options, (from.as_str(), to.as_str()))
}

/// Refuses a new path of a folder at which its files would be left out. What is no path is refused by the plan.
fn refuse_target<R: Files + AllocGlobal>(rt: &R, root: &str, to: &str) -> Result<(), ToolFault> {
    match path_of(rt.alloc(), to)? {
        Some(_) => refuse_left_out(rt, root, to),
        None => Ok(()),
    }
}

/// Moves the folder of a package, with all that lies in it, and changes its imports.
pub fn move_package<R: Files<File = File> + Threads + AllocGlobal + Clone + Drop>(
    rt: &R,
    options: &MoveOptions<'_>,
) -> Result<CommandOutcome, ToolFault>
    ensures { IfOk result (TellsSome (TellsMoveOf options.now)) }
{
    let opened = Opened::to_write(rt, options.root, options.dry_run)?;
    refuse_target(rt, options.root, plain_path(options.to))?;
    let outcome = move_named(rt, &opened, options)?;
    opened.leave();
    Ok(outcome)
}
