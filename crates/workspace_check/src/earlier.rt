//! The verdicts on the packages of a workspace before a change.
ghost use Rattle.std.specs.Prelude.{◌≡◌, IfOk, MatchOption, Some, slice_get};
ghost use Rattle.workspace_check.specs.declared.known.KnownVerdict.{KnownVerdict as Verdict};
ghost use Rattle.workspace_check.specs.Earlier.{AreVerdictsByNumber};

use crate::known::{KnownVerdict, verdict_at};
use std::alloc::{AllocError, Global};
use std::marker::Model;
use std::sync::Arc;
use workspace_graph::Graph;

/// A workspace before a change, and the known verdicts on its packages, by number.
#[derive(Drop)]
pub struct EarlierParts {
    graph: Graph,
    verdicts: Vec<Option<KnownVerdict>>,
}

/// The verdicts on the packages of a workspace before a change. A clone shares them.
pub struct Earlier {
    parts: Arc<EarlierParts, Global>,
}

/// Written out, so that crates above call it and don't prove again how each part is dropped.
impl Drop for Earlier {
    fn drop(self) {
        let Earlier { parts } = self;
        drop(parts);
    }
}

impl Model for Earlier {
    ghost use Rattle.std.specs.Arc.{arc_value};
    ghost use Rattle.workspace_check.specs.declared.earlier.EarlierParts.{EarlierParts};
    ghost use Rattle.workspace_check.specs.contracts.earlier.EarlierParts.{the_row};
    ghost use Rattle.workspace_check.specs.Earlier.{AreVerdictsByNumber};

    ghost Value = { EarlierParts };

    ghost coded = { the_row.coded };

    ghost view = { λ a. arc_value a.parts };

    ghost invariant = { λ a. AreVerdictsByNumber (arc_value a.parts).graph (arc_value a.parts).verdicts.items };
}

impl Earlier {
    /// Wraps a graph and the verdicts on its packages.
    pub(crate) fn new(
        alloc: Global,
        graph: Graph,
        verdicts: Vec<Option<KnownVerdict>>,
    ) -> Result<Earlier, AllocError>
        requires { AreVerdictsByNumber graph verdicts.items }
        ensures { IfOk result (λ earlier. earlier ≡ record { graph = graph; verdicts = verdicts }) }
    {
        let parts = Arc::new(alloc, EarlierParts { graph, verdicts })?;
        Ok(Earlier { parts })
    }

    /// The graph of the workspace before the change.
    pub(crate) fn graph(&self) -> &Graph
        ensures { result.now ≡ self.now.graph }
    {
        &self.parts.graph
    }

    /// Returns the verdict on the package of a number before the change, if it was known.
    pub(crate) fn verdict(&self, number: usize) -> Option<&KnownVerdict>
        ensures verdict { MatchOption result ((one : Verdict) → slice_get self.now.verdicts.items number ≡ Some (Some one) → ⊥) (λ one. slice_get self.now.verdicts.items number ≡ Some (Some one.now)) }
        ensures told { AreVerdictsByNumber self.now.graph self.now.verdicts.items }
    {
        verdict_at(&self.parts.verdicts, number)
    }
}

impl Clone for Earlier {
    ghost is_clone = { λ earlier copy. copy ≡ earlier };

    fn clone(&self) -> Result<Earlier, AllocError> {
        let parts = Arc::try_clone(&self.parts)?;
        Ok(Earlier { parts })
    }
}
