//! Makes the object of a package, and prints it: the code of its functions, for a machine with a stack.
//!
//! Crates above rely on: `object` prints the object of a package without faults as the definition has it (`IsObjectTextOf`).
//! `checked_object` prints the same text by what checking already found.
#![tactic(auto)]

mod code;
mod declarations;
mod expressions;
mod functions;
mod imports;
mod instructions;
pub mod laws;
mod members;
mod names;
mod numbered;
mod object_names;
pub mod objects;
mod operands;
mod origin;
pub mod packages;
mod printing;
mod scope;
mod simple;
mod slots;
mod source;
mod sources;
mod statements;
mod types;
mod walks;

pub use instructions::{FunctionName, GlobalName};
