//! Known verdicts that the states, views and changes of a workspace share.
ghost use Rattle.std.specs.Prelude.{◌≡◌, IfOk};

use crate::known::Known;
use std::alloc::{AllocError, Global};
use std::marker::Model;
use std::sync::Arc;

/// Known verdicts on some packages of a workspace. A clone shares them.
pub struct SharedKnown {
    known: Arc<Known, Global>,
}

/// Written out, so that crates above call it and don't prove again how each part is dropped.
impl Drop for SharedKnown {
    fn drop(self) {
        let SharedKnown { known } = self;
        drop(known);
    }
}

impl Model for SharedKnown {
    ghost use Rattle.std.specs.Arc.{arc_value};
    ghost use Rattle.workspace_check.specs.declared.known.Known.{Known};
    ghost use Rattle.workspace_check.specs.contracts.known.Known.{the_row};

    ghost Value = { Known };

    ghost coded = { the_row.coded };

    ghost view = { λ a. arc_value a.known };
}

impl SharedKnown {
    /// Wraps known verdicts.
    pub fn new(alloc: Global, known: Known) -> Result<SharedKnown, AllocError>
        ensures { IfOk result (λ shared. shared ≡ known) }
    {
        let known = Arc::new(alloc, known)?;
        Ok(SharedKnown { known })
    }

    /// The known verdicts.
    pub fn get(&self) -> &Known
        ensures { result.now ≡ self.now }
    {
        &self.known
    }
}

impl Clone for SharedKnown {
    ghost is_clone = { λ known copy. copy ≡ known };

    fn clone(&self) -> Result<SharedKnown, AllocError> {
        let known = Arc::try_clone(&self.known)?;
        Ok(SharedKnown { known })
    }
}
