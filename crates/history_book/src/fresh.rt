//! Decides whether a delivery is of a state.
ghost use Rattle.std.specs.Prelude.{◌≡◌, ◌<◌, ◌↔◌, ℕ, Contains, IfOk, IsTrue, List, MatchOption, length};
ghost use Rattle.std.specs.List.{All};
ghost use Rattle.std.specs.List.Sorted.{IsStrictlyIncreasing};
ghost use Rattle.base_files.specs.Packages.{package_paths};
ghost use Rattle.workspace_graph.specs.Graphs.{ListsPackages};
ghost use Rattle.workspace_graph.specs.Packages.{IsInClosure};
ghost use Rattle.build_unit.specs.Inputs.{AreInputs};
ghost use Rattle.history_machine.specs.Deliveries.{IsFresh};
ghost use Rattle.history_book.specs.Fresh.{AreOfState, FindsFresh};

use build_carry::are_inputs_of_both;
use build_unit::{Built, Job};
use history_machine::State;
use std::alloc::{AllocError, Global};
use workspace_graph::Graph;

/// Whether what was built is of the Job's package.
fn is_same_package(job: &Job, built: &Built) -> bool
    ensures { IsTrue result ↔ (built.now.package ≡ job.now.package) }
{
    built.package().path() == job.package().path()
}

/// Whether the inputs of a Job, and those of what was built, are the texts of a package's closure. The closure is given by the numbers of
/// its packages, which rise.
fn have_inputs(files: &Graph, closure: &[usize], job: &Job, built: &Built) -> bool
    requires numbers { All (λ number. number < length (package_paths files.now)) closure.now }
    requires rising { IsStrictlyIncreasing closure.now }
    ensures { (p : List ℕ) → Contains (package_paths files.now) p → ListsPackages files.now (IsInClosure files.now p) closure.now → IsTrue result ↔ (AreInputs files.now p job.now.inputs × AreInputs files.now p built.now.inputs) }
{
    are_inputs_of_both(files, closure, job.inputs(), built.inputs())
}

/// The number of the Job's package in the state. It is `None` where what was built is of another package, or the Job or what was built has
/// another state's number. No text is compared.
pub fn number_of(state: &State, job: &Job, built: &Built) -> Option<usize>
    ensures { MatchOption result (IsFresh state.now job.now built.now → ⊥) (AreOfState state.now job.now built.now) }
{
    let built_number = built.number();
    if job.number() != state.number
        || built_number != state.number
        || !is_same_package(job, built)
    {
        return None;
    }
    state.files.number_of(job.package().path())
}

/// The number of the Job's package in the state, or `None` where the delivery may not enter the state. The texts of the package's closure
/// are compared.
pub fn fresh_number(
    alloc: Global,
    state: &State,
    job: &Job,
    built: &Built,
) -> Result<Option<usize>, AllocError>
    ensures { IfOk result (FindsFresh state.now job.now built.now) }
{
    let Some(number) = number_of(state, job, built) else {
        return Ok(None);
    };
    let closure = state.files.closure(alloc, number)?;
    if have_inputs(&state.files, closure.as_slice(), job, built) {
        Ok(Some(number))
    } else {
        Ok(None)
    }
}
