//! Types, kinds of values, the world that a file's names are bound in, and the judgement of expressions.
//!
//! Crates above rely on: `judge` finds exactly the meaning, the faults and the uses of members that the definition of the same name gives.
#![tactic(auto)]

pub mod calls;
pub mod classes;
pub mod exports;
pub mod found;
pub mod judge;
pub mod keys;
pub mod literals;
pub mod locals;
pub mod meaning;
pub mod operations;
pub mod operators;
pub mod places;
pub mod symbol;
pub mod type_exprs;
pub mod types;
pub mod world;
