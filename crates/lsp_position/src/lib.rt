//! Positions as editors name them: a line and a column in code units, both from 0, against byte offsets, exact both ways.
//!
//! Crates above rely on: `position_at` gives the position of an offset. `offset_at` gives the last place that a position does not lie
//! before, and so the offset of each position of a place. `units_are_counted` says what a column counts.
#![tactic(auto)]

pub mod laws;
mod offsets;
mod positions;
mod units;

pub use offsets::offset_at;
pub use positions::{EditorPosition, position_at};
pub use units::PositionEncoding;
