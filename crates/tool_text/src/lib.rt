//! Texts that tools read and print. Read are words of places, the module of a `go.mod`, and names of files and folders. Printed are lines and
//! columns of byte offsets, sentences about places with the source line, and unified diffs.
//!
//! Crates above rely on: `position_of` and `offset_of` turn offsets into positions and back exactly. `push_told` writes a sentence as
//! `told_text` defines it. `push_diff` writes a diff by which the new text can be made of the old one, as `IsDiff` says.
#![tactic(auto)]

mod diff;
mod faults;
mod go_mod;
mod hunks;
mod journal;
pub mod laws;
mod parts;
mod places;
mod plain;
mod positions;
mod script;
mod sentences;
mod taken;

pub use diff::push_diff;
pub use faults::push_fault_words;
pub use go_mod::module_path;
pub use journal::{is_line, push_lines, read_lines};
pub use places::{AskedPlace, Spot, read_place};
pub use plain::{plain_path, without_prefix};
pub use positions::{LinePosition, offset_of, position_of};
pub use sentences::{push_located, push_told};
pub use taken::{has_build_line, names_platform, takes_file, takes_folder};
