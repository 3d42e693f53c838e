//! The commands that change no file: `uses` and `faults`.
ghost use Rattle.std.specs.Prelude.{IfOk};
ghost use Rattle.tool_commands.specs.Told.{TellsFaults, TellsSome, TellsUses, TellsUsesOf};

use crate::opened::Opened;
use server_words::{FaultsOptions, UsesOptions};
use std::alloc::{AllocError, Global};
use std::rt::Files;
use std::thread::Threads;
use tool_disk::ToolFault;
use tool_told::{CommandOutcome, NamedPlace, faults_outcome, uses_outcome};

/// Lists the uses of what is declared or used at a byte.
fn uses_of_byte(
    alloc: Global,
    opened: &Opened,
    word: &str,
    byte: (&str, usize),
) -> Result<CommandOutcome, AllocError>
    ensures { IfOk result (TellsUses opened.now word.now byte.entry.0.now byte.entry.1) }
{
    let (path, offset) = byte;
    match opened.folder.uses(alloc, path, offset) {
        Err(refusal) => opened.refused_at(alloc, word, byte, &refusal),
        Ok(places) => {
            let notes = opened.notes.as_slice();
            uses_outcome(alloc, notes, opened.naming(), places.as_slice())
        }
    }
}

/// Lists the uses of what a word of a place names.
fn uses_of_named(alloc: Global, opened: &Opened, word: &str) -> Result<CommandOutcome, AllocError>
    ensures { IfOk result (TellsUsesOf word.now opened.now) }
{
    match opened.named(alloc, word)? {
        NamedPlace::NoPlace => opened.no_place(alloc, word),
        NamedPlace::NoPosition => opened.no_position(alloc, word),
        NamedPlace::Byte { path, offset } => {
            uses_of_byte(alloc, opened, word, (path.as_str(), offset))
        }
    }
}

/// Lists the uses of what is declared or used at a place.
pub fn list_uses<R: Files + Threads + AllocGlobal + Clone + Drop>(
    rt: &R,
    options: &UsesOptions<'_>,
) -> Result<CommandOutcome, ToolFault>
    ensures { IfOk result (TellsSome (TellsUsesOf options.now.place.now)) }
{
    let opened = Opened::to_read(rt, options.root)?;
    let outcome = uses_of_named(rt.alloc(), &opened, options.place)?;
    opened.leave();
    Ok(outcome)
}

/// Lists the faults of the Go files of an opened folder.
fn faults_of(alloc: Global, opened: &Opened) -> Result<CommandOutcome, AllocError>
    ensures { IfOk result (TellsFaults opened.now) }
{
    let faults = opened.folder.faults(alloc)?;
    let notes = opened.notes.as_slice();
    faults_outcome(alloc, notes, opened.naming(), faults.as_slice())
}

/// Lists the faults of the Go files of a folder. It is done only where there is none.
pub fn list_faults<R: Files + Threads + AllocGlobal + Clone + Drop>(
    rt: &R,
    options: &FaultsOptions<'_>,
) -> Result<CommandOutcome, ToolFault>
    ensures { IfOk result (TellsSome TellsFaults) }
{
    let opened = Opened::to_read(rt, options.root)?;
    let outcome = faults_of(rt.alloc(), &opened)?;
    opened.leave();
    Ok(outcome)
}
