//! What it means that a change preserves the binding of each identifier, and whether its files keep the limits.
//!
//! Crates above rely on the definition of preserved bindings (`Preserves`): the change leaves no fault, and each identifier is bound to what
//! its declaration has become, and to nothing more. `within_limits` refuses a change whose files don't keep the limits.
#![tactic(auto)]

mod planned;

pub use planned::{Planned, within_limits};
