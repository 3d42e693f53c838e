//! The identifiers of a package, their scopes, and their bindings by scope.
//!
//! Crates above rely on: a `ScopeTable` has exactly the identifiers of its files, by number, with their names and places. `binding` returns
//! the declaration that an identifier is bound to by the scopes of the package. `identifier_at` returns the identifier at a token.
#![tactic(auto)]

pub mod by_token;
mod capacity;
mod contents;
mod counting;
mod declarations;
pub mod declare;
mod declaring;
mod expressions;
pub mod identifiers;
mod inner_blocks;
pub mod laws;
mod links;
pub mod model;
pub mod named;
mod nearest;
mod numbering;
mod outer_blocks;
mod resolve;
mod simple;
mod source;
mod statements;
pub mod table;
