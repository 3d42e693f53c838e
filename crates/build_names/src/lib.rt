//! The symbols of package-level declarations in the texts of objects, and new names for them.
//!
//! Crates above rely on: `text_with_name` gives exactly the text that is defined under its name. There each symbol of the declaration has
//! the new name.
#![tactic(auto)]

mod given_name;
mod words;

pub use given_name::GivenName;
pub use words::{is_break, text_with_name};
