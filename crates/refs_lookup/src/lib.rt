//! Finds the declaration of the identifier at a byte of a file. Laws: each identifier has at most one declaration, and the closure of a
//! package determines its bindings.
//!
//! Crates above rely on: `declaration_at` returns the declaration, or refuses exactly where the byte is in no identifier or the identifier
//! has no declaration, or for want of memory. There is at most one declaration (`one_declaration`).
#![tactic(auto)]

pub mod closure_laws;
mod declaration_at_byte;
mod exported;
mod identifier_at_byte;
pub mod laws;
pub mod member_tokens;
mod own_name;
pub mod unique;
mod used_member;

pub use declaration_at_byte::{declaration_at, declaration_in_package};
pub use exported::has_name;
