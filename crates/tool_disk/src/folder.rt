//! The Go files of a folder, as they are read one after another. Threads may parse those that were read while others are read.
ghost use Rattle.std.specs.FinMap as map;
ghost use Rattle.std.specs.Prelude.{
  ◌≡◌,
  ◌↔◌,
  ◌+◌,
  ◌≤◌,
  ◌++◌,
  [],
  ◌∷◌,
  IfOk,
  IsTrue,
  OnErr,
  OnOk,
  cond,
  is_some,
  length,
};
ghost use Rattle.base_files.specs.Packages.{package_paths};
ghost use Rattle.workspace_snapshot.specs.Fits.{FilesFit, total_bytes};
ghost use Rattle.tool_disk.specs.Puts.{
  AreInPackages,
  AreServerLimits,
  PutsFile,
  bytes_at,
  folder_snapshot,
  is_first_in,
  is_folder_of,
};

use base_files::{FileText, Files, Limits, Path, Refusal};
use std::alloc::{AllocError, Global};
use std::thread::Threads;
use workspace_parsing::Parsing;
use workspace_snapshot::{Snapshot, has_text};

/// The files of a folder that were read so far, how many bytes they have, and a Go file of each package.
#[derive(Drop)]
pub struct FolderFiles {
    limits: Limits,
    files: Files,
    bytes: usize,
    packages: Vec<Path>,
    parsing: Parsing,
    ghost fitting: { FilesFit limits files },
    ghost summed: { bytes ≡ total_bytes files },
    ghost counted: { length packages.items ≡ length (package_paths files) },
    ghost in_packages: { AreInPackages packages.items files },
}

/// Whether a folder has one of the files.
fn is_folder_of(files: &[Path], folder: &[u8]) -> bool
    ensures { result ≡ is_folder_of files.now folder.now }
{
    files.iter().any(|path| path.folder() == folder)
}

/// Adds a file, and notes it where its package is new. Where memory is wanting, nothing changes.
fn add(
    files: &mut Files,
    packages: &mut Vec<Path>,
    path: Path,
    text: FileText,
    is_new: bool,
) -> Result<(), AllocError>
    ensures files { OnOk result (files.new ≡ map.insert files.old path text) }
    ensures packages { OnOk result (packages.new.items ≡ cond is_new (packages.old.items ++ path ∷ []) packages.old.items) }
    ensures same_files { OnErr result (files.new ≡ files.old) }
    ensures same_packages { OnErr result (packages.new.items ≡ packages.old.items) }
{
    packages.reserve(1)?;
    files.insert(path.clone()?, text)?;
    if is_new {
        packages.push_reserved(path);
    }
    Ok(())
}

impl FolderFiles {
    /// No files, with the limits of a server.
    pub fn new(alloc: Global) -> FolderFiles
        ensures files { result.files ≡ map.empty }
        ensures limits { AreServerLimits result.limits }
    {
        FolderFiles {
            limits: Limits::FULL,
            files: Files::new(alloc),
            bytes: 0,
            packages: Vec::new(alloc),
            parsing: Parsing::new(alloc),
        }
    }

    /// The number of bytes of the file at a path, or 0 where there is none.
    fn bytes_at(&self, path: &Path) -> usize
        ensures { result ≡ bytes_at self.now.files path.now }
    {
        match self.files.get(path) {
            None => 0,
            Some(text) => text.len(),
        }
    }

    /// How many bytes a text at a path may have, by the limit on the bytes of all files.
    fn room_at(&self, path: &Path) -> usize
        ensures room { result + total_bytes self.now.files ≡ self.now.limits.total_bytes + bytes_at self.now.files path.now }
        ensures within { result ≤ self.now.limits.total_bytes }
    {
        self.limits.total_bytes - self.bytes + self.bytes_at(path)
    }

    /// Whether a file is the first Go file of its package.
    fn is_first(&self, path: &Path) -> bool
        ensures { result ≡ is_first_in self.now.packages.items path.now }
    {
        path.is_go() && !is_folder_of(self.packages.as_slice(), path.folder())
    }

    /// How many files there are once one stands at a path.
    fn count_with(&self, path: &Path) -> usize
        ensures { result ≡ cond (is_some (map.get self.now.files path.now)) (map.len self.now.files) (map.len self.now.files + 1) }
    {
        if self.files.get(path).is_some() {
            self.files.len()
        } else {
            self.files.len() + 1
        }
    }

    /// Whether the files keep the limits on files once a text stands at a path.
    fn keep_limits(&self, path: &Path, text: &FileText) -> bool
        ensures { IsTrue result ↔ FilesFit self.now.limits (map.insert self.now.files path.now text.now) }
    {
        let length = text.len();
        let room = self.room_at(path);
        let count = self.count_with(path);
        if length > self.limits.file_bytes {
            return false;
        }
        if length > room {
            return false;
        }
        if count > self.limits.files {
            return false;
        }
        true
    }

    /// Whether the files keep the limits once a text stands at a path, by which a package may be new.
    fn fit(&self, path: &Path, text: &FileText, is_new: bool) -> bool
        ensures { IsTrue result ↔ (FilesFit self.now.limits (map.insert self.now.files path.now text.now) × (length self.now.packages.items + cond is_new 1 0 ≤ self.now.limits.packages)) }
    {
        self.keep_limits(path, text)
            && self.packages.len() + usize::from(is_new) <= self.limits.packages
    }

    /// Adds a file, or refuses it exactly as a put is refused. A refused file changes nothing.
    pub fn put(&mut self, alloc: Global, path: &str, text: FileText) -> Result<(), Refusal>
        ensures { PutsFile (folder_snapshot self.old.limits self.old.files) path.now text (folder_snapshot self.new.limits self.new.files) result }
    {
        let path = Path::read(alloc, path, 2)?;
        if has_text(&self.files, &path, &text) {
            return Err(Refusal::Same);
        }
        let is_new = self.is_first(&path);
        if !self.fit(&path, &text, is_new) {
            return Err(Refusal::TooLarge);
        }
        let left = self.room_at(&path) - text.len();
        self.parsing.take(&path, &text)?;
        add(&mut self.files, &mut self.packages, path, text, is_new)?;
        self.bytes = self.limits.total_bytes - left;
        Ok(())
    }

    /// Has a thread parse files that were read, if there are enough. To be called when all files of their folders were read.
    pub fn begin_parsing<R: Threads>(&mut self, rt: &R, alloc: Global) -> Result<(), AllocError>
        ensures files { self.new.files ≡ self.old.files }
        ensures limits { self.new.limits ≡ self.old.limits }
    {
        self.parsing.begin(rt, alloc)
    }

    /// The files that were read so far.
    pub fn files(&self) -> &Files
        ensures { result.now ≡ self.now.files }
    {
        &self.files
    }

    /// The files as a snapshot, parsed in several threads.
    pub fn into_snapshot<R: Threads>(self, rt: &R, alloc: Global) -> Result<Snapshot, AllocError>
        ensures { IfOk result (λ snapshot. snapshot ≡ folder_snapshot self.limits self.files) }
    {
        let FolderFiles {
            limits,
            files,
            bytes: _,
            packages,
            parsing,
        } = self;
        drop(packages);
        let graph = parsing.graph(rt, alloc, &files)?;
        drop(files);
        Ok(Snapshot {
            number: 0,
            limits,
            files: graph,
        })
    }
}
