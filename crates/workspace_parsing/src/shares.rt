//! Shares the files of a workspace out, and joins the graphs of shares. All files of a folder have the same share.
ghost use Rattle.std.specs.FinMap as map;
ghost use Rattle.std.specs.Prelude.{◌≡◌, ◌+◌, ◌<◌, cond, IfOk, OnOk};
ghost use Rattle.workspace_parsing.specs.Shares.{
  GivesShare,
  IsPartBetween,
  is_between,
  share_of,
};

use base_files::{FileText, Files, Path};
use std::alloc::{AllocError, Global};
use workspace_graph::Graph;

/// How many shares there are.
pub(crate) const SHARES: usize = 8;

/// The share of all files in a folder.
fn share_of(folder: &[u8]) -> usize
    ensures { result ≡ share_of folder.now }
{
    let mut share = 0;
    for byte in folder {
        share = (share + usize::from(*byte)) % SHARES;
    }
    share
}

/// Whether a file has a share from `low` on and below `high`.
fn is_between(path: &Path, low: usize, high: usize) -> bool
    ensures { result ≡ is_between low high path.now }
{
    let share = share_of(path.folder());
    low <= share && share < high
}

/// Sets the text at a path.
pub(crate) fn set_file(part: &mut Files, path: &Path, text: &FileText) -> Result<(), AllocError>
    ensures { OnOk result (part.new ≡ map.insert part.old path.now text.now) }
{
    part.insert(path.clone()?, text.clone()?)
}

/// Sets the text at a path, if asked to.
fn add_if(part: &mut Files, path: &Path, text: &FileText, is_asked: bool) -> Result<(), AllocError>
    ensures { OnOk result (part.new ≡ cond is_asked (map.insert part.old path.now text.now) part.old) }
{
    if is_asked {
        set_file(part, path, text)
    } else {
        Ok(())
    }
}

/// The files with a share from `low` on and below `high`.
pub(crate) fn files_between(
    alloc: Global,
    files: &Files,
    low: usize,
    high: usize,
) -> Result<Files, AllocError>
    ensures { IfOk result (IsPartBetween files.now low high) }
{
    let mut part = Files::new(alloc);
    for (path, text) in files.iter() {
        add_if(&mut part, path, text, is_between(path, low, high))?;
    }
    Ok(part)
}

/// The graph of the files of the shares up to that of a number, from those below it and this one.
fn with_share(
    alloc: Global,
    files: &Files,
    number: usize,
    below: &Graph,
    share: &Graph,
) -> Result<Graph, AllocError>
    requires number { number < SHARES }
    requires below { IsPartBetween files.now 0 number below.now }
    requires share { IsPartBetween files.now number (number + 1) share.now }
    ensures { IfOk result (IsPartBetween files.now 0 (number + 1)) }
{
    let part = files_between(alloc, files, 0, number + 1)?;
    Graph::with_packages(alloc, below, share, part)
}

/// The graph of the files of the shares up to that of a number, as `with_share` makes it, where the share was parsed.
pub(crate) fn add_share(
    alloc: Global,
    files: &Files,
    number: usize,
    below: &Graph,
    share: &Result<Graph, AllocError>,
) -> Result<Graph, AllocError>
    requires number { number < SHARES }
    requires below { IsPartBetween files.now 0 number below.now }
    requires share { GivesShare files.now number share.now }
    ensures { IfOk result (IsPartBetween files.now 0 (number + 1)) }
{
    match share {
        Ok(share) => with_share(alloc, files, number, below, share),
        Err(AllocError) => Err(AllocError),
    }
}
