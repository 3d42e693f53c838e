//! The first fault of some packages of a workspace.
ghost use Rattle.std.specs.Prelude.{◌≡◌, [], MatchOption, Some, slice_get};
ghost use Rattle.workspace_check.specs.Found.{AreFindings};
ghost use Rattle.refactor_part.specs.Affected.{IsMarkedPackage};
ghost use Rattle.refactor_part.specs.FirstFaults.{HaveFirstFault, HaveNoFault, RefusesFirstOf};

use base_files::Refusal;
use workspace_check::{FileFault, Finding, Findings, is_marked};
use workspace_graph::Graph;

/// The first fault of a package.
fn first_of(finding: &Finding) -> Option<&FileFault>
    ensures { MatchOption result (finding.now.faults.items ≡ []) (λ f. slice_get finding.now.faults.items 0 ≡ Some f.now) }
{
    finding.faults.first()
}

/// The first fault of the marked packages, in the order of fault lists. The findings are in the order of the packages.
pub fn first_fault<'a>(graph: &Graph, found: &'a Findings, marks: &[bool]) -> Option<&'a FileFault>
    requires { AreFindings graph.now found.now }
    ensures { MatchOption result (HaveNoFault graph.now (IsMarkedPackage graph.now marks.now)) (λ f. HaveFirstFault graph.now (IsMarkedPackage graph.now marks.now) f.now.place f.now.kind) }
{
    for number in 0..found.packages.len() {
        if is_marked(marks, number) {
            if let Some(fault) = first_of(found.packages[number].get()) {
                return Some(fault);
            }
        }
    }
    None
}

/// Refuses where a marked package has a fault, with the first one.
pub fn refuse_marked(graph: &Graph, found: &Findings, marks: &[bool]) -> Result<(), Refusal>
    requires { AreFindings graph.now found.now }
    ensures { RefusesFirstOf graph.now (IsMarkedPackage graph.now marks.now) result }
{
    match first_fault(graph, found, marks) {
        None => Ok(()),
        Some(fault) => {
            let fault = fault.clone()?;
            Err(Refusal::Faulty {
                place: fault.place,
                kind: fault.kind,
            })
        }
    }
}
