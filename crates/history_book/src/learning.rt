//! Adds what was found of a state's files to what is known of them, where several threads look for findings at once.
ghost use Rattle.std.specs.Prelude.{IfOk};
ghost use Rattle.workspace_check.specs.Found.{KnowsVerdicts};

use std::alloc::{AllocError, Global};
use workspace_check::{Known, SharedKnown};
use workspace_graph::Graph;

/// What is known of a workspace, and what was found of it beside: others may have learned of other packages meanwhile.
pub(crate) fn with_found(
    alloc: Global,
    files: &Graph,
    own: &SharedKnown,
    found: &Known,
) -> Result<SharedKnown, AllocError>
    requires own { KnowsVerdicts files.now own.now }
    requires found { KnowsVerdicts files.now found.now }
    ensures { IfOk result (KnowsVerdicts files.now) }
{
    let mut known = own.get().copy(alloc, files.len())?;
    for number in 0..files.len() {
        if known.get(number).is_some() {
            continue;
        }
        if let Some(verdict) = found.get(number) {
            let copy = verdict.clone()?;
            known.set(number, copy);
        }
    }
    SharedKnown::new(alloc, known)
}
