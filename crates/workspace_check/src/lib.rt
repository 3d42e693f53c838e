//! Checks the packages of a workspace. A finding is what checking found in a package: its faults, or else its uses of members, its entries
//! of values into interfaces and its qualified identifiers. A verdict says whether the package has faults, and has its export data if not.
//! A package builds on another one if it imports that one, directly or indirectly, and is not so imported by it.
//!
//! Crates above rely on: `verdicts` returns the finding of each package, which its closure determines, and `faults` lists all faults.
#![tactic(auto)]

mod cycles;
mod earlier;
mod fault;
mod fault_list;
mod finding;
mod findings;
mod found_package;
mod gathered;
mod judging;
mod known;
pub mod laws;
mod marks;
mod order;
mod placing;
mod progress;
mod reuse;
mod seeing;
mod shared_known;

pub use earlier::{Earlier, EarlierParts};
pub use fault::FileFault;
pub use fault_list::faults;
pub use finding::{Finding, SharedFinding};
pub use findings::{Findings, Found, verdicts};
pub use found_package::FoundPackage;
pub use known::{Known, KnownVerdict};
pub use marks::is_marked;
pub use progress::Progress;
pub use seeing::{seen, seen_imports};
pub use shared_known::SharedKnown;
