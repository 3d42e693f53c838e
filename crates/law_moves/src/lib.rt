//! Laws of moves of packages. Each package is there at its moved path, with its layout, its members and verdicts. The moves that lose and
//! capture no identifier are those that preserve bindings, and the first conflict, which the scopes before the move tell, decides. There is
//! no code that runs.
//!
//! Crates above rely on: `moves_keep_members`, `moves_have_verdicts`, `moves_stay_sound`, `all_known_move`, `moves_agree`,
//! `move_conflicts_refuse`, `move_conflicts_are_told` and `first_conflicts_decide_moves`. In `proofs/`, lemmas tell of moved paths and of
//! the edits of a move by file.
#![tactic(auto)]

pub mod agreement;
pub mod conflicts;
pub mod decided;
pub mod kept;
pub mod known;
pub mod moved_packages;
pub mod new_names;
pub mod paths;
pub mod replaced;
pub mod there;
pub mod verdicts;
