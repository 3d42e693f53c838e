//! Reads what a move needs of the workspace before it: the first identifier that the move captures or loses, or that there is none, and the
//! names that get the new name of the package. No edited text is read.
//!
//! Where the name of the package follows its path, each import of it without a name is renamed. The conflicts of the move are those of these
//! renames in the scopes of their packages. So only the packages that import the one that moves are read, each once. A package in whose
//! tokens the new name stands nowhere, and the old one only before a dot, is given no scope table.
//!
//! Crates above rely on: `read_move` tells the first conflict of the move, or that it has none (`TellsMoveConflict`). It marks the names
//! that refer to the package by its imports (`KnowsMoveUses`).
#![tactic(auto)]

mod following;
mod imports;
mod marks;
mod packages;
mod plain;
mod tables;

pub use following::read_move;
pub use packages::MoveReading;
