//! Files that come one after another, and are parsed in threads while others come. What the threads give is joined at the end. It is taken
//! only where it is the graph of all files, so no promise is asked of a thread.
ghost use Rattle.std.specs.FinMap as map;
ghost use Rattle.std.specs.Prelude.{◌≡◌, IfOk, IsTrue};
ghost use Rattle.base_edits.specs.Made.{with_files};
ghost use Rattle.workspace_parsing.specs.Overlaid.{ShareNoPackage};

use crate::shares::set_file;
use crate::task::{ParseTask, ParseThread};
use crate::together::parsed_together;
use base_files::{FileText, Files, Path};
use std::alloc::{AllocError, Global};
use std::mem;
use std::thread::{Threads, join_promised};
use workspace_graph::Graph;

/// How many files a thread is given to parse, at least.
const ENOUGH: usize = 64;

/// Files that came. Some wait for a thread, and the others were given to threads.
#[derive(Drop)]
pub struct Parsing {
    waiting: Files,
    threads: Vec<ParseThread>,
}

/// Whether no package of one graph is at the path of a package of another one.
fn share_no_package(above: &Graph, below: &Graph) -> bool
    ensures { IsTrue result → ShareNoPackage above.now below.now }
{
    for number in 0..above.len() {
        if below.number_of(&above.package(number).path).is_some() {
            return false;
        }
    }
    true
}

/// The files of `below`, with those of `above` set at their paths.
fn overlaid_files(below: &Files, above: &Files) -> Result<Files, AllocError>
    ensures { IfOk result (λ files. files ≡ with_files (map.entries above.now) below.now) }
{
    let mut files = below.copy()?;
    for (path, text) in above.iter() {
        set_file(&mut files, path, text)?;
    }
    Ok(files)
}

/// The graph of the files of two graphs that share no package. No file is parsed.
fn overlaid(alloc: Global, below: &Graph, above: &Graph) -> Result<Graph, AllocError>
    requires { ShareNoPackage above.now below.now }
{
    let files = overlaid_files(below.files(), above.files())?;
    Graph::with_packages(alloc, below, above, files)
}

/// A graph with the files that a thread gave. It stays as it is where a package would have files of both.
fn with_part(
    alloc: Global,
    graph: Graph,
    part: &Result<Graph, AllocError>,
) -> Result<Graph, AllocError> {
    match part {
        Err(AllocError) => Err(AllocError),
        Ok(part) => {
            if share_no_package(part, &graph) {
                overlaid(alloc, &graph, part)
            } else {
                Ok(graph)
            }
        }
    }
}

/// A graph with the files that threads gave.
fn with_parts(
    alloc: Global,
    graph: Graph,
    parts: &[Result<Graph, AllocError>],
) -> Result<Graph, AllocError> {
    let mut graph = graph;
    for part in parts {
        graph = with_part(alloc, graph, part)?;
    }
    Ok(graph)
}

impl Parsing {
    /// No files came.
    pub fn new(alloc: Global) -> Parsing {
        Parsing {
            waiting: Files::new(alloc),
            threads: Vec::new(alloc),
        }
    }

    /// Takes a file that came.
    pub fn take(&mut self, path: &Path, text: &FileText) -> Result<(), AllocError> {
        set_file(&mut self.waiting, path, text)
    }

    /// Has a thread parse the files that wait, if there are enough. To be called when all files of their folders came.
    pub fn begin<R: Threads>(&mut self, rt: &R, alloc: Global) -> Result<(), AllocError> {
        if self.waiting.len() < ENOUGH {
            return Ok(());
        }
        let files = mem::replace(&mut self.waiting, Files::new(alloc));
        if let Some(thread) = ParseTask::new(alloc, files).begin(rt) {
            self.threads.push(thread)?;
        }
        Ok(())
    }

    /// The graph of all files, of which those that came are parsed already or at last. Where others came than these, all are parsed anew.
    pub fn graph<R: Threads>(
        self,
        rt: &R,
        alloc: Global,
        files: &Files,
    ) -> Result<Graph, AllocError>
        ensures { IfOk result (λ graph. graph ≡ files.now) }
    {
        let Parsing { waiting, threads } = self;
        let waiting = parsed_together(rt, alloc, &waiting)?;
        let parts = join_promised(rt, threads)?;
        let graph = with_parts(alloc, waiting, parts.as_slice())?;
        if graph.files().same(files) {
            Ok(graph)
        } else {
            parsed_together(rt, alloc, files)
        }
    }
}
