//! Carries finished units and verdicts over a change, and compares the inputs of a build with a workspace.
//!
//! Crates above rely on: `marks_of` marks exactly the packages whose closure has other texts after a change. `carried_units` keeps exactly
//! the units of the others, and verdicts that `kept` and `learned` keep are right. `learned_from` and `with_kept` keep exactly the verdicts
//! of another workspace on packages whose closures stay. `judged_ahead` adds right verdicts to those that are known. `are_inputs_of_both` is
//! true exactly where two inputs are those of a package. `Finished` is the table of units by package number.
#![tactic(auto)]

mod carried;
mod carried_known;
mod carried_verdicts;
mod change_marks;
mod changes;
mod differing;
mod file_text;
mod finished;
mod folders;
mod judging;
mod learning;
mod number_hint;
mod same_inputs;

pub use carried::{carried_units, keeps_closure, none_carried};
pub use carried_known::{kept, known_after, nothing_carried};
pub use carried_verdicts::verdicts_after;
pub use change_marks::{marks_by, marks_of};
pub use changes::{Marks, closure_marks};
pub use file_text::has_text;
pub use finished::Finished;
pub use folders::folder_marks;
pub use judging::{judged_ahead, verdicts_at};
pub use learning::{FoundElsewhere, learned, learned_from, take_in_each, with_kept};
pub use number_hint::number_by_hint;
pub use same_inputs::are_inputs_of_both;
