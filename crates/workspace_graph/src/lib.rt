//! The packages of a workspace with their parsed files, and which imports which.
//!
//! Crates above rely on: a `Graph` has the packages of its files, by number in the order of their paths. Each file has its tree or its first
//! fault. `Graph::changed` makes the graph after a change, and parses only named files; `Graph::changed_by_edits` does so where edits are known, and
//! compares no texts. Its answers are exact: imports, importers, closures (`closure`), the packages whose closures have a marked one
//! (`reaching`), the packages below one (`below`).
#![tactic(auto)]

mod among;
mod changed;
mod closure;
mod depth_first;
mod drafts;
mod faulty_file;
mod file_imports;
mod folders;
mod graph;
mod grown;
mod import_links;
pub mod import_paths;
mod importers;
mod in_folder;
mod known_edits;
mod link_rows;
mod order;
mod package;
mod package_list;
mod packages_below;
mod parsed;
mod renewed_imports;
mod rows;
mod same_imports;
mod search;
mod shared_links;
mod shared_package;
mod updated;

pub use among::is_among;
pub use faulty_file::FaultyFile;
pub use file_imports::{FileImport, read_imports};
pub use folders::folders_of;
pub use graph::Graph;
pub use import_links::ImportLinks;
pub use package::ParsedPackage;
pub use package_list::PackageList;
pub use packages_below::PackagesBelow;
