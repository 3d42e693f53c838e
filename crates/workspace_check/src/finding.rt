//! A finding: what checking found in a package.
ghost use Rattle.std.specs.Prelude.{◌≡◌, IfOk};

use crate::fault::FileFault;
use std::alloc::{AllocError, Global};
use std::marker::Model;
use std::sync::Arc;
use types_expr::found::{Entering, MemberUse};
use types_expr::symbol::SharedPath;
use types_info::Qualified;

/// What checking found in a package: its sorted faults, or else its uses of members, its entries of values into interfaces and its
/// qualified identifiers. `members` and `enterings` have one list for each file, by file rank. They and `qualified` count only if there are
/// no faults.
#[derive(Drop)]
pub struct Finding {
    pub path: SharedPath,
    pub faults: Vec<FileFault>,
    pub members: Vec<Vec<MemberUse>>,
    pub enterings: Vec<Vec<Entering>>,
    pub qualified: Vec<Qualified>,
}

/// A finding that clones share.
#[derive(Drop)]
pub struct SharedFinding {
    finding: Arc<Finding, Global>,
}

impl Model for SharedFinding {
    ghost use Rattle.std.specs.Arc.{arc_value};
    ghost use Rattle.workspace_check.specs.declared.finding.Finding.{Finding};
    ghost use Rattle.workspace_check.specs.contracts.finding.Finding.{the_row};

    ghost Value = { Finding };

    ghost coded = { the_row.coded };

    ghost view = { λ a. arc_value a.finding };
}

impl SharedFinding {
    /// Wraps a finding.
    pub(crate) fn new(alloc: Global, finding: Finding) -> Result<SharedFinding, AllocError>
        ensures { IfOk result (λ shared. shared ≡ finding) }
    {
        let finding = Arc::new(alloc, finding)?;
        Ok(SharedFinding { finding })
    }

    /// The finding.
    pub fn get(&self) -> &Finding
        ensures { result.now ≡ self.now }
    {
        &self.finding
    }
}

impl Clone for SharedFinding {
    ghost is_clone = { λ finding copy. copy ≡ finding };

    fn clone(&self) -> Result<SharedFinding, AllocError> {
        let finding = Arc::try_clone(&self.finding)?;
        Ok(SharedFinding { finding })
    }
}
