//! Compares the export data known of a package with that in a table.
ghost use Rattle.std.specs.Prelude.{◌≡◌, ◌↔◌, IsTrue};
ghost use Rattle.types_check.specs.Known.{known_as, known_at_path, known_values, IsKnownAlike};

use crate::equal_definitions::are_definitions_alike;
use crate::equal_scopes::are_scopes_alike;
use types_declared::{ExportData, ExportTable, KnownExportData};

/// Whether two packages' export data is equal, value by value.
fn is_export_data_alike(one: &ExportData, other: &ExportData) -> bool
    ensures { IsTrue result ↔ (known_as one.now ≡ known_as other.now) }
{
    are_scopes_alike(&one.scope, &other.scope)
        && are_definitions_alike(&one.definitions, &other.definitions)
}

/// Whether `known` equals the export data that `all` has for a path: the name, the exported names with their meanings, and the type
/// definitions, each with its underlying type, fields and methods. Where it does, the package has this name and this export data there.
pub fn are_alike(known: &KnownExportData, all: &ExportTable, path: &[u8]) -> bool
    ensures exact { IsTrue result ↔ (known_values known.now ≡ known_at_path all.now path.now) }
    ensures export_data { IsTrue result → IsKnownAlike known.now all.now path.now }
{
    match (known.get(), all.definitions().export_data(path)) {
        (None, None) => true,
        (Some(one), Some(other)) => is_export_data_alike(one, other),
        _ => false,
    }
}
