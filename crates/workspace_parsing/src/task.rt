//! What a thread is given to parse, and what it promises of the graph that it makes.
ghost use Rattle.std.specs.FinMap as map;
ghost use Rattle.std.specs.Prelude.{◌≡◌, ℕ, List, None, IfOk, IfSome};
ghost use Rattle.std.specs.List.{Contains};
ghost use Rattle.workspace_graph.specs.Borrows.{names};
ghost use Rattle.workspace_parsing.specs.Shares.{GivesGraph};

use base_files::{Files, Path};
use std::alloc::{AllocError, Global};
use std::snapshot::Snapshot;
use std::thread::{Builder, Promise, PromisedHandle, Threads};
use workspace_graph::Graph;

/// The stack of each thread, in bytes, whatever limit the program was started with. It is four times what a file at the limit of nesting takes.
const PARSE_STACK: usize = 8_388_608;

/// Files to parse. A thread owns its task.
#[derive(Drop)]
pub(crate) struct ParseTask {
    alloc: Global,
    files: Files,
}

/// A thread's promise: it gives the graph of these files.
#[derive(Drop)]
pub(crate) struct GraphPromised {
    files: Snapshot<Files>,
}

impl Promise<Result<Graph, AllocError>> for GraphPromised {
    ghost use Rattle.workspace_parsing.specs.Shares.{GivesGraph};

    ghost kept_by = { λ promised given. GivesGraph promised.files.value given };
}

/// A thread that parses files.
pub(crate) type ParseThread = PromisedHandle<Result<Graph, AllocError>, GraphPromised>;

/// The paths of all files.
fn all_paths(alloc: Global, files: &Files) -> Result<Vec<&Path>, AllocError>
    ensures { IfOk result (λ paths. (path : List ℕ) → (Contains (names paths.items) path → ⊥) → map.get files.now path ≡ None) }
{
    let mut paths = Vec::new(alloc);
    for (path, _) in files.iter() {
        paths.push(path)?;
    }
    Ok(paths)
}

/// The graph of some files. All of them are parsed.
pub(crate) fn parsed(alloc: Global, files: &Files) -> Result<Graph, AllocError>
    ensures { IfOk result (λ graph. graph ≡ files.now) }
{
    let empty = Graph::empty(alloc)?;
    let copy = files.copy()?;
    let paths = all_paths(alloc, files)?;
    Graph::changed(alloc, &empty, copy, paths.as_slice())
}

impl ParseTask {
    /// The task of parsing files.
    pub(crate) fn new(alloc: Global, files: Files) -> ParseTask
        ensures { result.files ≡ files }
    {
        ParseTask { alloc, files }
    }

    /// The graph of its files.
    fn graph(&self) -> Result<Graph, AllocError>
        ensures { GivesGraph self.now.files result }
    {
        parsed(self.alloc, &self.files)
    }

    /// Has a thread parse the files, and returns it, unless none can be made. Then they are not parsed here.
    pub(crate) fn begin<R: Threads>(self, rt: &R) -> Option<ParseThread>
        ensures { IfSome result (λ thread. thread.promise.files.value ≡ self.files) }
    {
        let task = self;
        let promise = GraphPromised {
            files: Snapshot::of(&task.files),
        };
        let parse = move || -> Result<Graph, AllocError>
            ensures { GivesGraph task.files result }
        { task.graph() };
        match Builder::new()
            .stack_size(PARSE_STACK)
            .spawn_with(rt, promise, parse)
        {
            Ok(thread) => Some(thread),
            Err(_) => None,
        }
    }
}
