//! The shared export data of one package, if it is known.
ghost use Rattle.std.specs.Prelude.{◌≡◌, IfOk};
ghost use Rattle.std.specs.Option.{option_copied};
ghost use Rattle.types_expr.specs.WorldView.{shared_export_data};

use std::alloc::{AllocError, Global};
use std::marker::Model;
use std::sync::Arc;
use types_expr::exports::ExportData;

/// Returns another shared handle to the export data; none where there is none.
pub(crate) fn share_held(
    held: &Option<Arc<ExportData, Global>>,
) -> Result<Option<Arc<ExportData, Global>>, AllocError>
    ensures { IfOk result (λ h. shared_export_data h ≡ shared_export_data held.now) }
{
    match held {
        None => Ok(None),
        Some(export_data) => Ok(Some(Arc::try_clone(export_data)?)),
    }
}

/// The export data of one package, or none where it isn't known. A clone shares the data.
pub struct KnownExportData {
    pub(crate) known: Option<Arc<ExportData, Global>>,
}

/// Written out, so that crates above call it and don't prove again how each part is dropped.
impl Drop for KnownExportData {
    fn drop(self) {
        let KnownExportData { known } = self;
        drop(known);
    }
}

impl Model for KnownExportData {
    ghost use Rattle.std.specs.Prelude.{Option};
    ghost use Rattle.types_expr.specs.WorldView.{shared_export_data};
    ghost use Rattle.types_expr.specs.declared.exports.ExportData.{ExportData};
    ghost use Rattle.types_expr.specs.contracts.exports.ExportData.{the_row};
    ghost use Rattle.std.specs.Coded.{coded_option};

    ghost Value = { Option ExportData };

    ghost coded = { coded_option the_row.coded };

    ghost view = { λ a. shared_export_data a.known };
}

impl KnownExportData {
    /// The export data, if known.
    pub fn get(&self) -> Option<&ExportData>
        ensures { option_copied result ≡ self.now }
    {
        match &self.known {
            None => None,
            Some(export_data) => Some(&**export_data),
        }
    }
}

impl Clone for KnownExportData {
    ghost is_clone = { λ known copy. copy ≡ known };

    fn clone(&self) -> Result<KnownExportData, AllocError> {
        let known = share_held(&self.known)?;
        Ok(KnownExportData { known })
    }
}
