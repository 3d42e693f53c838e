//! Finds the hunks of a diff: runs of line pairs with all that differ, and with up to three even pairs before and behind.
ghost use Rattle.std.specs.Prelude.{◌≡◌, ◌<◌, ◌≤◌, ℕ, IfOk, length};
ghost use Rattle.tool_text.specs.Diff.{AreHunks, IsEvenAt};

use crate::script::LinePair;
use base_files::Span;
use std::alloc::{AllocError, Global};

/// How many even pairs a hunk has before its first uneven pair and behind its last.
const CONTEXT: usize = 3;

/// The number of the first uneven pair at `from` or behind it, or the number of all pairs.
fn next_uneven(pairs: &[LinePair<'_>], from: usize) -> usize
    requires { from ≤ length pairs.now }
    ensures behind { from ≤ result }
    ensures within { result ≤ length pairs.now }
    ensures even { (number : ℕ) → from ≤ number → number < result → IsEvenAt pairs.now number }
{
    let mut at = from;
    while at < pairs.len() && pairs[at].is_even() {
        at += 1;
    }
    at
}

/// Where the hunk ends whose first uneven pair is `first`.
fn hunk_end(pairs: &[LinePair<'_>], first: usize) -> usize
    requires { first < length pairs.now }
    ensures behind { first < result }
    ensures within { result ≤ length pairs.now }
{
    let mut end = first + 1;
    let mut next = next_uneven(pairs, end);
    while next < pairs.len() && next - end <= 2 * CONTEXT {
        end = next + 1;
        next = next_uneven(pairs, end);
    }
    if pairs.len() - end < CONTEXT {
        pairs.len()
    } else {
        end + CONTEXT
    }
}

/// The hunks of the pairs.
pub(crate) fn hunks(alloc: Global, pairs: &[LinePair<'_>]) -> Result<Vec<Span>, AllocError>
    ensures { IfOk result (λ hunks. AreHunks pairs.now hunks.items) }
{
    let mut hunks = Vec::new(alloc);
    let mut from = 0;
    let mut first = next_uneven(pairs, 0);
    while first < pairs.len() {
        let start = first.saturating_sub(CONTEXT).max(from);
        let end = hunk_end(pairs, first);
        hunks.push(Span { start, end })?;
        from = end;
        first = next_uneven(pairs, end);
    }
    Ok(hunks)
}
