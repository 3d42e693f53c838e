//! Units: what packages compile to.
ghost use Rattle.std.specs.Prelude.{◌≡◌, MatchResult, Ok, Err, IfOk};
ghost use Rattle.build_unit.specs.Builds.{unit_result};

use base_chunks::Share;
use base_files::FileText;
use std::alloc::{AllocError, Global};
use std::marker::Model;
use std::sync::Arc;
use types_declared::ExportTable;
use workspace_check::FileFault;

/// What a package compiles to: its faults in order, at least one, or its export data and its object. `export_data` has the export data of
/// this package alone.
#[derive(Drop)]
pub enum Compiled {
    Faults {
        first: FileFault,
        others: Vec<FileFault>,
    },
    Done {
        export_data: ExportTable,
        object: FileText,
    },
}

/// A compiled package. A clone shares it.
pub struct Unit {
    compiled: Arc<Compiled, Global>,
}

/// Written out, so that crates above call it and need not prove again how each part is dropped.
impl Drop for Unit {
    fn drop(self) {
        let Unit { compiled } = self;
        drop(compiled);
    }
}

impl Model for Unit {
    ghost use Rattle.std.specs.Arc.{arc_value};
    ghost use Rattle.build_unit.specs.declared.unit.Compiled.{Compiled};
    ghost use Rattle.build_unit.specs.contracts.unit.Compiled.{the_row};

    ghost Value = { Compiled };

    ghost coded = { the_row.coded };

    ghost view = { λ a. arc_value a.compiled };
}

impl Unit {
    /// Shares a compiled package as a unit.
    pub(crate) fn new(alloc: Global, compiled: Compiled) -> Result<Unit, AllocError>
        ensures { IfOk result (λ unit. unit ≡ compiled) }
    {
        let compiled = Arc::new(alloc, compiled)?;
        Ok(Unit { compiled })
    }

    /// The faults of the package, or its export data and its object.
    pub fn compiled(&self) -> &Compiled
        ensures { result.now ≡ self.now }
    {
        &self.compiled
    }

    /// The object, or the first fault.
    pub fn result(&self) -> Result<&FileText, &FileFault>
        ensures { MatchResult result (λ text. unit_result self.now ≡ Ok text.now) (λ fault. unit_result self.now ≡ Err fault.now) }
    {
        match self.compiled() {
            Compiled::Faults { first, .. } => Err(first),
            Compiled::Done { object, .. } => Ok(object),
        }
    }
}

impl Clone for Unit {
    ghost is_clone = { λ unit copy. copy ≡ unit };

    fn clone(&self) -> Result<Unit, AllocError> {
        let compiled = Arc::try_clone(&self.compiled)?;
        Ok(Unit { compiled })
    }
}

impl Share for Unit {
    fn share(&self) -> Result<Unit, AllocError> {
        self.clone()
    }
}
