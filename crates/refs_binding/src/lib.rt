//! The binding relation: what each identifier of a workspace is bound to. With it come the exports of packages, sorted bound identifiers,
//! and the places and names of declarations.
//!
//! Crates above rely on: `IsBoundTo` says whether an identifier is bound to a declaration, by scope, as a qualified identifier or as a
//! member. A `FaultlessWorkspace` is a graph with the findings of its packages, none with a fault. `refuse_faults` lends one, or refuses
//! with `Faulty` exactly a workspace that has a fault, and names its first one.
#![tactic(auto)]

pub mod bindings;
mod bound_identifier;
mod declaration;
pub mod exports;
mod faultless;
mod faults;
pub mod identifiers;
pub mod indexed;
pub mod laws;
pub mod member_uses;
pub mod own_names;
mod package_reader;
mod packages;
mod place_key;
mod reading;
mod scope_uses;

pub use bound_identifier::BoundIdentifier;
pub use declaration::Declaration;
pub use faultless::FaultlessWorkspace;
pub use faults::refuse_faults;
pub use identifiers::is_name;
pub use member_uses::member_declaration;
pub use own_names::{field_places, method_places};
pub use package_reader::PackageReader;
pub use packages::{Packages, all_seen, read_table, seen_by};
pub use place_key::PlaceKey;
pub use reading::{laid_table, members_of, own_of, path_of, qualified_of, trees};
pub use scope_uses::declaration_in_scope;
