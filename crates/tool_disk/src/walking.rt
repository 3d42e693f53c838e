//! Reads the Go files below a folder, as Go finds them.
use crate::fault::{ToolFault, at, told};
use crate::folder::FolderFiles;
use crate::paths::below;
use crate::steps::{read_whole, text_there};
use base_files::{FileText, Refusal};
use std::alloc::Global;
use std::fs;
use std::fs::{DirEntry, FileType};
use std::rt::Files;
use std::thread::Threads;
use tool_text::{has_build_line, module_path, names_platform, takes_file, takes_folder};

/// How many folders are looked at, at most.
const MOST_FOLDERS: usize = 65_536;

/// What was read of a folder: its Go files, what stands before it in their paths, and notes on files that were left out.
#[derive(Drop)]
pub struct Loaded {
    pub files: FolderFiles,
    pub prefix: String,
    pub notes: Vec<String>,
}

/// A walk over folders: those that are left to look at, with a slash behind each, and what was read so far.
#[derive(Drop)]
struct Walk<'a> {
    root: &'a str,
    folders: Vec<String>,
    loaded: Loaded,
}

/// Notes why a file or folder was left out.
fn note(alloc: Global, loaded: &mut Loaded, path: &str, why: &str) -> Result<(), ToolFault> {
    let line = format!(in alloc; "{path}: left out: {why}\n")?;
    loaded.notes.push(line)?;
    Ok(())
}

/// The path of the module that the text of a `go.mod` names, with a slash.
fn module_prefix(alloc: Global, text: &[u8]) -> Result<String, ToolFault> {
    let Some(path) = module_path(text) else {
        return Err(told(alloc, "go.mod", "it names no module"));
    };
    let Ok(path) = std::str::from_utf8(path) else {
        return Err(told(alloc, "go.mod", "the path of the module is not UTF-8"));
    };
    let prefix = format!(in alloc; "{path}/")?;
    Ok(prefix)
}

/// What stands before a folder in the paths of its packages: the path of its module with a slash, or nothing without a `go.mod`.
fn prefix_of<R: Files + AllocGlobal>(rt: &R, root: &str) -> Result<String, ToolFault> {
    let alloc = rt.alloc();
    let place = below(alloc, root, "go.mod")?;
    match text_there(rt, "go.mod", place.as_str())? {
        Some(text) => module_prefix(alloc, text.as_slice()),
        None => Ok(String::new(alloc)),
    }
}

/// Adds a file to those that were read. One that cannot be held ends the walk.
fn put(alloc: Global, loaded: &mut Loaded, path: &str, bytes: Vec<u8>) -> Result<(), ToolFault> {
    let text = FileText::new(alloc, bytes)?;
    let prefix = loaded.prefix.as_str();
    let name = format!(in alloc; "{prefix}{path}")?;
    match loaded.files.put(alloc, name.as_str(), text) {
        Ok(()) => Ok(()),
        Err(Refusal::Memory) => Err(ToolFault::Memory),
        Err(Refusal::BadPath) => Err(told(
            alloc,
            path,
            "this path has characters or a length that no package has here",
        )),
        Err(_) => Err(told(alloc, path, "with this file the files exceed a limit")),
    }
}

/// Reads a Go file whose name has no build constraint.
fn read_file<R: Files + AllocGlobal>(
    rt: &R,
    walk: &mut Walk<'_>,
    path: &str,
) -> Result<(), ToolFault> {
    let alloc = rt.alloc();
    let place = below(alloc, walk.root, path)?;
    let bytes = at(alloc, path, read_whole(rt, place.as_str()))?;
    if has_build_line(bytes.as_slice()) {
        note(alloc, &mut walk.loaded, path, "it has a build constraint")
    } else {
        put(alloc, &mut walk.loaded, path, bytes)
    }
}

/// Takes a Go file, or notes why it is left out.
fn take_file<R: Files + AllocGlobal>(
    rt: &R,
    walk: &mut Walk<'_>,
    folder: &str,
    name: &str,
) -> Result<(), ToolFault> {
    let alloc = rt.alloc();
    let path = format!(in alloc; "{folder}{name}")?;
    if names_platform(name.as_bytes()) {
        note(
            alloc,
            &mut walk.loaded,
            path.as_str(),
            "its name has a build constraint",
        )
    } else if folder.is_empty() && walk.loaded.prefix.is_empty() {
        note(
            alloc,
            &mut walk.loaded,
            path.as_str(),
            "without a go.mod this folder has no path of a package",
        )
    } else {
        read_file(rt, walk, path.as_str())
    }
}

/// Whether a folder has a `go.mod` of its own.
fn is_module<R: Files + AllocGlobal>(rt: &R, folder: &str) -> Result<bool, ToolFault> {
    let alloc = rt.alloc();
    let path = below(alloc, folder, "go.mod")?;
    at(alloc, path.as_str(), fs::exists(rt, path.as_str()))
}

/// Takes a folder, or leaves it out.
fn take_folder<R: Files + AllocGlobal>(
    rt: &R,
    walk: &mut Walk<'_>,
    folder: &str,
    name: &str,
) -> Result<(), ToolFault> {
    if !takes_folder(name.as_bytes()) {
        return Ok(());
    }
    let alloc = rt.alloc();
    let path = format!(in alloc; "{folder}{name}/")?;
    let place = below(alloc, walk.root, path.as_str())?;
    if is_module(rt, place.as_str())? {
        note(
            alloc,
            &mut walk.loaded,
            path.as_str(),
            "it has a go.mod of its own",
        )
    } else {
        walk.folders.push(path)?;
        Ok(())
    }
}

/// Notes each module in which the folder lies: its other packages are not seen.
fn note_modules_above<R: Files + AllocGlobal>(
    rt: &R,
    root: &str,
    loaded: &mut Loaded,
) -> Result<(), ToolFault> {
    let alloc = rt.alloc();
    let place = below(alloc, root, "")?;
    let real = at(alloc, root, fs::canonicalize(rt, place.as_str()))?;
    let mut folder = String::new(alloc);
    for name in real.as_str().split('/') {
        folder.push_str(name)?;
        folder.push('/')?;
        if is_module(rt, folder.as_str())? {
            let path = below(alloc, folder.as_str(), "go.mod")?;
            let why = "this folder lies in its module, whose other packages are not seen";
            note(alloc, loaded, path.as_str(), why)?;
        }
    }
    Ok(())
}

/// Refuses a path of a folder whose files would be left out: a folder on the way has a name that is not taken, or a `go.mod` of its own.
pub fn refuse_left_out<R: Files + AllocGlobal>(
    rt: &R,
    root: &str,
    path: &str,
) -> Result<(), ToolFault> {
    let alloc = rt.alloc();
    let mut folder = below(alloc, root, "")?;
    for name in path.split('/') {
        folder = below(alloc, folder.as_str(), name)?;
        if !takes_folder(name.as_bytes()) || is_module(rt, folder.as_str())? {
            return Err(told(alloc, path, "Go files are left out there"));
        }
    }
    Ok(())
}

/// Whether a path leads to a file, over symbolic links.
fn leads_to_file<R: Files + AllocGlobal>(
    rt: &R,
    kind: FileType,
    path: &str,
) -> Result<bool, ToolFault> {
    if !kind.is_symlink() {
        return Ok(kind.is_file());
    }
    let data = at(rt.alloc(), path, fs::metadata(rt, path))?;
    Ok(data.is_file())
}

/// Takes an entry of a folder.
fn take_entry<R: Files + AllocGlobal>(
    rt: &R,
    walk: &mut Walk<'_>,
    folder: &str,
    entry: &DirEntry<R>,
) -> Result<(), ToolFault> {
    let alloc = rt.alloc();
    let name = entry.file_name();
    let path = entry.path();
    let kind = at(alloc, path.as_str(), entry.file_type())?;
    if kind.is_dir() {
        take_folder(rt, walk, folder, name)
    } else if takes_file(name.as_bytes()) && leads_to_file(rt, kind, path.as_str())? {
        take_file(rt, walk, folder, name)
    } else {
        Ok(())
    }
}

/// Looks at a folder.
fn look<R: Files + AllocGlobal + Clone + Drop>(
    rt: &R,
    walk: &mut Walk<'_>,
    folder: &str,
) -> Result<(), ToolFault> {
    let alloc = rt.alloc();
    let path = below(alloc, walk.root, folder)?;
    for entry in at(alloc, path.as_str(), fs::read_dir(rt, path.as_str()))? {
        let entry = at(alloc, path.as_str(), entry)?;
        take_entry(rt, walk, folder, &entry)?;
    }
    Ok(())
}

/// Looks at the next folder. Returns whether there was one.
fn look_at_next<R: Files + AllocGlobal + Clone + Drop>(
    rt: &R,
    walk: &mut Walk<'_>,
) -> Result<bool, ToolFault> {
    match walk.folders.pop() {
        None => Ok(false),
        Some(folder) => {
            look(rt, walk, folder.as_str())?;
            Ok(true)
        }
    }
}

/// That a folder has too many folders.
fn too_many(alloc: Global, walk: &Walk<'_>) -> ToolFault {
    told(alloc, walk.root, "it has more folders than are looked at")
}

/// Looks at folders until none is left.
fn look_at_all<R: Files + AllocGlobal + Clone + Drop>(
    rt: &R,
    walk: &mut Walk<'_>,
) -> Result<(), ToolFault> {
    for _ in 0..MOST_FOLDERS {
        if !look_at_next(rt, walk)? {
            return Ok(());
        }
    }
    Err(too_many(rt.alloc(), walk))
}

/// Looks at folders until none is left. Threads parse files that were read meanwhile.
fn look_and_parse<R: Files + Threads + AllocGlobal + Clone + Drop>(
    rt: &R,
    walk: &mut Walk<'_>,
) -> Result<(), ToolFault> {
    let alloc = rt.alloc();
    for _ in 0..MOST_FOLDERS {
        if !look_at_next(rt, walk)? {
            return Ok(());
        }
        walk.loaded.files.begin_parsing(rt, alloc)?;
    }
    Err(too_many(alloc, walk))
}

/// A walk that begins at a folder.
fn walk_from<'a, R: Files + AllocGlobal>(rt: &R, root: &'a str) -> Result<Walk<'a>, ToolFault> {
    let alloc = rt.alloc();
    let prefix = prefix_of(rt, root)?;
    let mut loaded = Loaded {
        files: FolderFiles::new(alloc),
        prefix,
        notes: Vec::new(alloc),
    };
    if loaded.prefix.is_empty() {
        note_modules_above(rt, root, &mut loaded)?;
    }
    let mut folders = Vec::new(alloc);
    folders.push(String::new(alloc))?;
    Ok(Walk {
        root,
        folders,
        loaded,
    })
}

/// What was read in a walk, with the notes in order.
fn what_was_read(walk: Walk<'_>) -> Result<Loaded, ToolFault> {
    let Walk {
        root: _,
        folders,
        loaded,
    } = walk;
    drop(folders);
    let mut loaded = loaded;
    loaded.notes.sort()?;
    Ok(loaded)
}

/// Reads the Go files below a folder.
pub fn load<R: Files + AllocGlobal + Clone + Drop>(
    rt: &R,
    root: &str,
) -> Result<Loaded, ToolFault> {
    let mut walk = walk_from(rt, root)?;
    look_at_all(rt, &mut walk)?;
    what_was_read(walk)
}

/// Reads the Go files below a folder, and has threads parse them.
pub fn load_and_parse<R: Files + Threads + AllocGlobal + Clone + Drop>(
    rt: &R,
    root: &str,
) -> Result<Loaded, ToolFault> {
    let mut walk = walk_from(rt, root)?;
    look_and_parse(rt, &mut walk)?;
    what_was_read(walk)
}
