//! Lists and sorted maps in chunks that copies share: a change to a copy costs one chunk, not all items.
//!
//! Crates above rely on: each function of `SharedMap` does what it would do to a list of entries sorted by key. Each function of
//! `SharedList` does what it would do to a list. `copy` returns a collection of equal value.
#![tactic(auto)]

mod chunk;
mod chunks;
mod copies;
mod entries;
mod items;
mod list;
mod map;
mod setting;
mod share;

pub use items::{Entries, Items, ListItems};
pub use list::SharedList;
pub use map::SharedMap;
pub use share::{Same, Share};
