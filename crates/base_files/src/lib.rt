//! Texts, paths, places, faults and refusals, the limits and the files of a workspace, tables by shared paths of packages, and lists with
//! room.
//!
//! Crates above rely on: `Files` is a finite map from paths to bytes. `Path::read` refuses with `BadPath` exactly the texts that are no
//! path. A value of `Limits` never exceeds `Limits::FULL`. `PathTable` does what would be done to a list of entries sorted by path.
#![tactic(auto)]

mod bytes;
mod entries;
mod fault_kind;
mod file_text;
mod files;
mod limits;
mod path;
mod place;
mod refusal;
mod room;
mod shared_path;
mod table;

pub use fault_kind::FaultKind;
pub use file_text::FileText;
pub use files::Files;
pub use limits::Limits;
pub use path::Path;
pub use place::{Place, Span};
pub use refusal::Refusal;
pub use room::list_as_long;
pub use shared_path::SharedPath;
pub use table::{PathEntry, PathTable};
