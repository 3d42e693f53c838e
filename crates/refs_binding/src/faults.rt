//! Refuses a workspace with faults.
ghost use Rattle.std.specs.Prelude.{ℕ, ◌≡◌, [], slice_get, Some, IsTrue, IfOk};
ghost use Rattle.workspace_check.specs.declared.finding.Finding.{Finding as Found};
ghost use Rattle.workspace_check.specs.Found.{AreFindings};
ghost use Rattle.refs_binding.specs.Workspaces.{IsFaultless, RefusesFaults, RefusesFirst};

use crate::faultless::FaultlessWorkspace;
use base_files::Refusal;
use std::alloc::Global;
use workspace_check::{Findings, SharedFinding, faults};
use workspace_graph::Graph;

/// Refuses a workspace with the first fault of its list, if it has any.
fn refuse_first(alloc: Global, graph: &Graph, found: &Findings) -> Result<(), Refusal>
    requires { AreFindings graph.now found.now }
    ensures { RefusesFirst graph.now result }
{
    match faults(alloc, found)?.into_iter().next() {
        None => Ok(()),
        Some(fault) => Err(Refusal::Faulty {
            place: fault.place,
            kind: fault.kind,
        }),
    }
}

/// Whether none of the findings has a fault.
fn are_faultless(packages: &[SharedFinding]) -> bool
    ensures { IsTrue result → (n : ℕ) (f : Found) → slice_get packages.now n ≡ Some f → f.faults.items ≡ [] }
{
    for finding in packages {
        if !finding.get().faults.is_empty() {
            return false;
        }
    }
    true
}

/// Refuses a workspace with the first fault of its list, if some finding has one. Without a fault no list is made.
fn refuse_if_faulty(alloc: Global, graph: &Graph, found: &Findings) -> Result<(), Refusal>
    requires { AreFindings graph.now found.now }
    ensures first { RefusesFirst graph.now result }
    ensures sound { IfOk result (λ _. IsFaultless graph.now found.now) }
{
    if are_faultless(&found.packages) {
        Ok(())
    } else {
        refuse_first(alloc, graph, found)
    }
}

/// Returns the workspace if no finding has a fault. Else refuses it with the first fault of its list.
pub fn refuse_faults<'a>(
    alloc: Global,
    graph: &'a Graph,
    findings: &'a Findings,
) -> Result<FaultlessWorkspace<'a>, Refusal>
    requires { AreFindings graph.now findings.now }
    ensures { RefusesFaults graph.now findings.now result }
{
    match refuse_if_faulty(alloc, graph, findings) {
        Err(refusal) => Err(refusal),
        Ok(()) => Ok(FaultlessWorkspace { graph, findings }),
    }
}
