//! A folder that was read, and what commands tell of it.
ghost use Rattle.std.specs.FinMap as map;
ghost use Rattle.std.specs.Prelude.{◌≡◌, IfOk, codes, false, string_bytes, true};
ghost use Rattle.std.specs.Option.{option_copied};
ghost use Rattle.tool_disk.specs.Writes.{file_parts};
ghost use Rattle.tool_told.specs.Asked.{NamesPlace};
ghost use Rattle.tool_commands.specs.Told.{
  IsAskedPlace,
  IsNamingOf,
  TellsChange,
  TellsRefusal,
  TellsRefusalAt,
  TellsWord,
  TellsWriting,
  shown_texts,
  text_parts,
};

use base_files::{Place, Refusal};
use refactor_preserve::Planned;
use std::alloc::{AllocError, Global};
use std::fs::File;
use std::mem;
use std::rt::Files;
use std::thread::Threads;
use tool_disk::{
    FileOf, FolderWriting, HeldFolder, Loaded, ToolFault, hold, load_and_parse, recover,
    refuse_cut_off, write_all,
};
use tool_plan::CheckedFolder;
use tool_told::{
    AskedFor, CommandOutcome, NamedPlace, Naming, Rewrite, cut_off_outcome, named_place, path_of,
    refusal_outcome, rewrites, shown_outcome, shown_path, word_outcome, written_outcome,
};

/// A folder whose packages were checked, with what stands before it in the paths of its files. Its notes are on a run that was cut off, and on
/// files that were left out. It is held where something is to be written.
#[derive(Drop)]
pub(crate) struct Opened {
    pub folder: CheckedFolder,
    pub prefix: String,
    pub notes: Vec<u8>,
    held: Option<HeldFolder>,
}

impl Opened {
    /// Reads a folder, and checks its packages.
    fn read<R: Files + Threads + AllocGlobal + Clone + Drop>(
        rt: &R,
        root: &str,
        mut notes: Vec<u8>,
        held: Option<HeldFolder>,
    ) -> Result<Opened, ToolFault> {
        let Loaded {
            files,
            prefix,
            notes: left_out,
        } = load_and_parse(rt, root)?;
        for line in &left_out {
            notes.extend_from_slice(line.as_bytes())?;
        }
        let snapshot = files.into_snapshot(rt, rt.alloc())?;
        let folder = CheckedFolder::of(rt, rt.alloc(), snapshot)?;
        Ok(Opened {
            folder,
            prefix,
            notes,
            held,
        })
    }

    /// Opens a folder in which nothing is to be written.
    pub(crate) fn to_read<R: Files + Threads + AllocGlobal + Clone + Drop>(
        rt: &R,
        root: &str,
    ) -> Result<Opened, ToolFault> {
        refuse_cut_off(rt, root)?;
        Opened::read(rt, root, Vec::new(rt.alloc()), None)
    }

    /// Opens a folder in which something is to be written, unless files stay as they are.
    pub(crate) fn to_write<R: Files<File = File> + Threads + AllocGlobal + Clone + Drop>(
        rt: &R,
        root: &str,
        dry_run: bool,
    ) -> Result<Opened, ToolFault> {
        if dry_run {
            return Opened::to_read(rt, root);
        }
        let held = hold(rt, root)?;
        let mut notes = Vec::new(rt.alloc());
        recover(rt, root, &mut notes)?;
        Opened::read(rt, root, notes, Some(held))
    }

    /// Ends the work in the folder. What was read is not given back piece by piece, since the program ends behind it.
    pub(crate) fn leave(self) {
        let Opened {
            folder,
            prefix,
            notes,
            held,
        } = self;
        mem::forget(folder);
        drop(prefix);
        drop(notes);
        drop(held);
    }

    /// How places in its files are told.
    pub(crate) fn naming(&self) -> Naming<'_>
        ensures { IsNamingOf self.now result }
    {
        Naming {
            files: self.folder.files(),
            prefix: self.prefix.as_str(),
        }
    }

    /// What a word of a place names.
    pub(crate) fn named(&self, alloc: Global, word: &str) -> Result<NamedPlace, AllocError>
        ensures { IfOk result (NamesPlace self.now.folder.files (string_bytes self.now.prefix) word.now) }
    {
        named_place(alloc, self.folder.files(), self.prefix.as_str(), word)
    }

    /// The outcome of a word that names no place.
    pub(crate) fn no_place(&self, alloc: Global, word: &str) -> Result<CommandOutcome, AllocError>
        ensures { IfOk result (TellsWord self.now word.now (codes "a place is PATH:#OFFSET or PATH:LINE:COLUMN")) }
    {
        let why = "a place is PATH:#OFFSET or PATH:LINE:COLUMN";
        word_outcome(alloc, self.notes.as_slice(), word, why)
    }

    /// The outcome of a position that its file does not have.
    pub(crate) fn no_position(
        &self,
        alloc: Global,
        word: &str,
    ) -> Result<CommandOutcome, AllocError>
        ensures { IfOk result (TellsWord self.now word.now (codes "the file has no such line and column")) }
    {
        let why = "the file has no such line and column";
        word_outcome(alloc, self.notes.as_slice(), word, why)
    }

    /// The outcome of a command that is refused.
    pub(crate) fn refused(
        &self,
        alloc: Global,
        word: &str,
        place: Option<&Place>,
        refusal: &Refusal,
    ) -> Result<CommandOutcome, AllocError>
        ensures { IfOk result (TellsRefusal self.now word.now (option_copied place.entry) refusal.now) }
    {
        let asked = AskedFor {
            word: word.as_bytes(),
            place,
        };
        refusal_outcome(alloc, self.notes.as_slice(), self.naming(), asked, refusal)
    }

    /// The place of a byte, where its file was read.
    fn asked_place(
        &self,
        alloc: Global,
        path: &str,
        offset: usize,
    ) -> Result<Option<Place>, AllocError>
        ensures { IfOk result (IsAskedPlace self.now.folder.files path.now offset) }
    {
        let Some(path) = path_of(alloc, path)? else {
            return Ok(None);
        };
        if self.folder.files().get(&path).is_some() {
            Ok(Some(Place { path, offset }))
        } else {
            Ok(None)
        }
    }

    /// The outcome of a command about a byte that is refused.
    pub(crate) fn refused_at(
        &self,
        alloc: Global,
        word: &str,
        byte: (&str, usize),
        refusal: &Refusal,
    ) -> Result<CommandOutcome, AllocError>
        ensures { IfOk result (TellsRefusalAt self.now word.now byte.entry.0.now byte.entry.1 refusal.now) }
    {
        let place = self.asked_place(alloc, byte.0, byte.1)?;
        self.refused(alloc, word, place.as_ref(), refusal)
    }

    /// All files that were read, by their paths below the folder.
    fn all_read(&self, alloc: Global) -> Result<Vec<FileOf<'_>>, AllocError>
        ensures { IfOk result (λ read. file_parts read.items ≡ shown_texts (string_bytes self.now.prefix) (map.entries self.now.folder.files)) }
    {
        let mut read = Vec::new(alloc);
        for (path, text) in self.folder.files().iter() {
            let path = shown_path(self.prefix.as_str(), path);
            let text = text.bytes();
            read.push(FileOf { path, text })?;
        }
        Ok(read)
    }

    /// The outcome of a change that is not to be made.
    pub(crate) fn show(
        &self,
        alloc: Global,
        planned: &Planned,
    ) -> Result<CommandOutcome, AllocError>
        ensures { IfOk result (TellsChange self.now true planned.now.change) }
    {
        let change = planned.change.get();
        let after = change.files.files();
        let changes = change.edits.changed();
        shown_outcome(alloc, self.notes.as_slice(), self.naming(), after, changes)
    }

    /// Makes a change on the disk. `moved` is the folder that moves and its new path, or two empty texts.
    pub(crate) fn write<R: Files + AllocGlobal>(
        &self,
        rt: &R,
        root: &str,
        moved: (&str, &str),
        planned: &Planned,
    ) -> Result<CommandOutcome, ToolFault>
        ensures { IfOk result (TellsChange self.now false planned.now.change) }
    {
        let alloc = rt.alloc();
        let change = planned.change.get();
        let after = change.files.files();
        let rewrites = rewrites(alloc, self.naming(), after, change.edits.changed())?;
        let new = new_texts(alloc, rewrites.as_slice())?;
        let read = self.all_read(alloc)?;
        let (from, to) = moved;
        let writing = FolderWriting {
            root,
            from,
            to,
            new: new.as_slice(),
            read: read.as_slice(),
        };
        self.written(rt, writing, rewrites.as_slice())
    }

    /// Writes files, and tells what came of it.
    fn written<R: Files + AllocGlobal>(
        &self,
        rt: &R,
        writing: FolderWriting<'_>,
        rewrites: &[Rewrite<'_>],
    ) -> Result<CommandOutcome, ToolFault>
        requires { file_parts writing.new.now ≡ text_parts rewrites.now }
        ensures { IfOk result (TellsWriting rewrites.now self.now.notes.items) }
    {
        let alloc = rt.alloc();
        let notes = self.notes.as_slice();
        let outcome = written_outcome(alloc, notes, rewrites)?;
        let mut done = Vec::new(alloc);
        match write_all(rt, writing, &mut done) {
            Ok(()) => Ok(outcome),
            Err(ToolFault::Memory) => {
                drop(outcome);
                Err(ToolFault::Memory)
            }
            Err(ToolFault::Told(why)) => {
                drop(outcome);
                Ok(cut_off_outcome(alloc, notes, done, why.as_str())?)
            }
        }
    }
}

/// The new texts of files, by their paths before the change.
fn new_texts<'a>(alloc: Global, rewrites: &[Rewrite<'a>]) -> Result<Vec<FileOf<'a>>, AllocError>
    ensures { IfOk result (λ new. file_parts new.items ≡ text_parts rewrites.now) }
{
    let mut new = Vec::new(alloc);
    for rewrite in rewrites {
        let path = rewrite.path;
        let text = rewrite.text;
        new.push(FileOf { path, text })?;
    }
    Ok(new)
}
