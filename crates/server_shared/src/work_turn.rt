//! What a worker's turn came to, and how a worker waits where memory is wanting.

use crate::opening::Opening;
use crate::shared::Shared;
use std::sync::Wait;
use std::thread;

/// What a worker's turn came to.
#[derive(Clone, Copy, Debug, PartialEq, Eq)]
pub enum WorkTurn {
    /// A Job was taken, built and delivered.
    HandedIn,
    /// Memory was wanting: no Job was taken, or the Job was given back.
    Lacking,
}

/// How many turns in a row a worker takes while memory is wanting. Each may add two entries to the journal, so they have an end.
const MOST_LACKS: u32 = 32;

/// How often a worker lets other threads run between two such turns.
const YIELDS: u32 = 1_024;

/// Waits where memory was wanting in a turn, and in so many before it. Returns in how many it is now said to have been wanting. Others get
/// their time to let memory go. After the last of the turns in a row the worker waits for a change or a delivery.
pub(crate) fn wait_for_memory<L: Opening, R: Wait>(
    rt: &R,
    shared: &Shared<L>,
    news: u64,
    lacks: u32,
) -> u32 {
    if lacks >= MOST_LACKS {
        shared.wait_for_news(rt, news);
        return 0;
    }
    for _ in 0..YIELDS {
        thread::yield_now();
    }
    lacks.saturating_add(1)
}
