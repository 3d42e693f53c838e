//! What the server tells, as JSON: its capabilities, places, edits, faults.
//!
//! Crates above rely on: each value is exactly what its definition says, with the members that the protocol names.
#![tactic(auto)]

mod capabilities;
mod edits;
mod faults;
mod places;

pub use capabilities::initialize_result;
pub use edits::{
    apply_edit_params, changes_value, document_changes_value, document_edit_value, text_edit_value,
};
pub use faults::{diagnostic_value, diagnostics_params};
pub use places::{Between, highlight_value, location_value, prepared_value, range_value};
