//! The faults, the imports and the declarations of one package, and the types that its type expressions name.
//!
//! Crates above rely on: `Index::of` finds the declarations of a package with their ranks, and the identifier at each token. `lay_names`
//! makes the scope table in which an import without a name declares its package's name. `broken_definitions` marks exactly the broken type
//! definitions. `ExportTable` keeps the export data of other packages. A sorted list of faults has exactly the faults that were added.
#![tactic(auto)]

mod broken;
mod declared;
mod export_tables;
mod exports;
mod fault;
mod files;
mod index;
mod known_export;
mod listing;
mod package_names;
mod paths;
mod ranks;
mod reachability;
mod states;
mod written;

pub use broken::{broken_definitions, no_links, note};
pub use declared::{Declared, Function, TypeDef, Variable};
pub use export_tables::ExportTable;
pub use exports::{Exports, is_exported};
pub use fault::Fault;
pub use files::{clause_name, clause_token, literal};
pub use index::{Index, Package};
pub use known_export::KnownExportData;
pub use listing::{push, push_if, sort};
pub use package_names::{PackageNames, lay_names};
pub use paths::{is_import, literal_of, path_of};
pub use ranks::Ranks;
pub use reachability::{reached, reached_in_order, row};
pub use states::{ImportState, ImportStates};
pub use types_expr::exports::{Export, ExportData, ExportMeaning, PackageScope};
pub use written::{defined_type, export_at, local_definition, mentioned, named_type};
