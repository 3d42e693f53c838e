//! The underlying types, fields and methods of a package's type definitions, and the faults of these.
//!
//! Crates above rely on: `Members::of` finds exactly the underlying types, the fields and the methods, and which of these count.
//! `member_faults` lists exactly the faults of members, sorted. `cycles` marks exactly the numbers that lie on a cycle of links.
#![tactic(auto)]

mod components;
mod faults;
mod field_marks;
mod link_cycles;
mod member_names;
mod method_marks;
mod methods;
mod origins;
mod recursion;
mod search;
mod struct_fields;
mod type_members;
mod underlying;
mod values;

pub use faults::member_faults;
pub use field_marks::counting_fields;
pub use link_cycles::cycles;
pub use method_marks::counting_methods;
pub use methods::owners;
pub use recursion::recursive_definitions;
pub use struct_fields::{FieldDef, MemberForm, fields};
pub use type_members::{Fields, Members, Methods};
pub use underlying::{copy, own_struct, underlying_types};
