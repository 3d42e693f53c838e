//! The check of statements, function bodies and declarations: the types of locals, the type faults and the member uses of a file.
//!
//! Crates above rely on: `check_file` finds exactly the type faults and the uses of members that the definition of the same name gives.
#![tactic(auto)]

mod call_statements;
mod checked;
mod declarations;
mod files;
mod headers;
mod locals;
mod sides;
mod simple;
mod statements;

pub use checked::CheckedBody;
pub use files::check_file;
