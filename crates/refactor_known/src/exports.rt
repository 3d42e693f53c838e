//! The export data of a package after a move.
ghost use Rattle.std.specs.Prelude.{◌≡◌, IfOk, option_copied};
ghost use Rattle.types_declared.specs.ExportTablesView.{export_data_of, export_of, meaning_of};
ghost use Rattle.law_changed_types.specs.Moved.{moved_meaning};
ghost use Rattle.law_changed_types.specs.MovedPackage.{moved_export};
ghost use Rattle.refactor_known.specs.MovedData.{moved_data, moved_name};
ghost use Rattle.refactor_known.specs.Swaps.{map_of};

use crate::swap::Swap;
use crate::tables::{Movable, moved_table};
use std::alloc::{AllocError, Global};
use types_declared::{Export, ExportData, ExportMeaning, PackageScope};

impl Swap {
    /// The meaning of an export after the move.
    #[tactic(auto, unfolding(types_declared::specs::ExportTablesView::meaning_of))]
    fn meaning(&self, alloc: Global, meaning: &ExportMeaning) -> Result<ExportMeaning, AllocError>
        ensures { IfOk result (λ moved. meaning_of moved ≡ moved_meaning (map_of self.now) (meaning_of meaning.now)) }
    {
        match meaning {
            ExportMeaning::Variable(own) => Ok(ExportMeaning::Variable(self.go_type(alloc, own)?)),
            ExportMeaning::TypeName(own) => Ok(ExportMeaning::TypeName(self.go_type(alloc, own)?)),
            ExportMeaning::Function(own) => Ok(ExportMeaning::Function(self.signature(
                alloc, own,
            )?)),
        }
    }
}

impl Movable for Export {
    ghost moves = { λ swap old new. export_of new ≡ moved_export (map_of swap) (export_of old) };

    fn moved(&self, alloc: Global, swap: &Swap) -> Result<Export, AllocError> {
        let meaning = swap.meaning(alloc, &self.meaning)?;
        Ok(Export { meaning })
    }
}

/// The name of the package at this path after the move. `new`: the new name of the package that moves, if it gets one.
fn name_after(
    alloc: Global,
    swap: &Swap,
    new: Option<&[u8]>,
    path: &[u8],
    name: &[u8],
) -> Result<Vec<u8>, AllocError>
    ensures { IfOk result (λ after. after.items ≡ moved_name swap.now.from (option_copied new.entry) path.now name.now) }
{
    match new {
        Some(new) if path == swap.from.path() => Vec::from_slice(alloc, new),
        _ => Vec::from_slice(alloc, name),
    }
}

impl Swap {
    /// The export data of the package at this path after the move.
    pub fn export_data(
        &self,
        alloc: Global,
        new: Option<&[u8]>,
        path: &[u8],
        own: &ExportData,
    ) -> Result<ExportData, AllocError>
        ensures { IfOk result (λ after. export_data_of (map_of self.now path.now) after ≡
            moved_data self.now.from (option_copied new.entry) (map_of self.now) path.now (export_data_of path.now own.now)) }
    {
        let name = name_after(alloc, self, new, path, &own.scope.name)?;
        let exported = moved_table(alloc, self, &own.scope.exported)?;
        let definitions = self.definitions(alloc, &own.definitions)?;
        Ok(ExportData {
            scope: PackageScope { name, exported },
            definitions,
        })
    }
}
