//! Laws of renames and of imports that gain a name: pieces, tokens and trees are kept, and so are the identifiers of a package and their
//! bindings. A path in double quotes is one string literal (`quoted_path_is_literal`). On fixed scopes a rename keeps each binding exactly
//! if the old names show no conflict (`bindings_are_kept_without_conflicts`). There is no code that runs.
//!
//! Crates above rely on: these laws, and lemmas of `proofs/` on conflicts by the old names, pieces, trees and layouts.
#![tactic(auto)]

pub mod bare_imports;
pub mod gained;
pub mod named_import;
pub mod quoted;
pub mod renumbered;
pub mod renumbered_sites;
pub mod rescoped;
pub mod respelled_layouts;
