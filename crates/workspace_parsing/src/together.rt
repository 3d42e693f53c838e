//! Parses files in several threads: each share in a thread of its own. Where a thread can't be made, all files are parsed one after another.
ghost use Rattle.std.specs.Prelude.{◌≡◌, ◌+◌, ◌<◌, length, IfOk, IfSome};
ghost use Rattle.workspace_parsing.specs.Promises.{PromiseShares};
ghost use Rattle.workspace_parsing.specs.Shares.{GiveShares, IsPartBetween};

use crate::shares::{SHARES, add_share, files_between};
use crate::task::{ParseTask, ParseThread, parsed};
use base_files::Files;
use std::alloc::{AllocError, Global};
use std::thread::{Threads, join_promised};
use workspace_graph::Graph;

/// Has a thread parse the files of a share, unless none can be made.
fn begin<R: Threads>(
    rt: &R,
    alloc: Global,
    files: &Files,
    number: usize,
) -> Result<Option<ParseThread>, AllocError>
    requires { number < SHARES }
    ensures { IfOk result (λ begun. IfSome begun (λ thread. IsPartBetween files.now number (number + 1) thread.promise.files.value)) }
{
    let part = files_between(alloc, files, number, number + 1)?;
    let task = ParseTask::new(alloc, part);
    Ok(task.begin(rt))
}

/// Has a thread parse each share, unless some thread can't be made. Those that were begun are let go then.
fn begin_each<R: Threads>(
    rt: &R,
    alloc: Global,
    files: &Files,
) -> Result<Option<Vec<ParseThread>>, AllocError>
    ensures size { IfOk result (λ begun. IfSome begun (λ threads. length threads.items ≡ SHARES)) }
    ensures shares { IfOk result (λ begun. IfSome begun (λ threads. PromiseShares files.now threads.items)) }
{
    let mut threads = Vec::new(alloc);
    for number in 0..SHARES {
        let Some(thread) = begin(rt, alloc, files, number)? else {
            return Ok(None);
        };
        threads.push(thread)?;
    }
    Ok(Some(threads))
}

/// The graph of the files of all shares.
fn all_shares(
    alloc: Global,
    files: &Files,
    shares: &[Result<Graph, AllocError>],
) -> Result<Graph, AllocError>
    requires size { length shares.now ≡ SHARES }
    requires shares { GiveShares files.now shares.now }
    ensures { IfOk result (λ graph. graph ≡ files.now) }
{
    let mut graph = Graph::empty(alloc)?;
    for number in 0..shares.len() {
        graph = add_share(alloc, files, number, &graph, &shares[number])?;
    }
    Ok(graph)
}

/// The graph of some files, which several threads parse.
pub fn parsed_together<R: Threads>(
    rt: &R,
    alloc: Global,
    files: &Files,
) -> Result<Graph, AllocError>
    ensures { IfOk result (λ graph. graph ≡ files.now) }
{
    let Some(threads) = begin_each(rt, alloc, files)? else {
        return parsed(alloc, files);
    };
    let shares = join_promised(rt, threads)?;
    all_shares(alloc, files, shares.as_slice())
}
