//! The conflicts of a change: identifiers that it would lose, since nothing would bind them, or capture, since another declaration would.
//!
//! Crates above rely on the definition of a change's first conflict (`IsFirstConflict`), and on the law that no conflict stays bound. Plans
//! find that conflict by the scopes and members before the change.
#![tactic(auto)]

mod conflict;
pub mod laws;

pub use conflict::{Capturer, Conflict, told};
