//! Compares the names and the exports of packages.
ghost use Rattle.std.specs.Prelude.{◌≡◌, ◌↔◌, IsTrue, map};
ghost use Rattle.types_declared.specs.ExportTablesView.{meaning_of, export_of};
ghost use Rattle.types_check.specs.Known.{entry_value, known_scope};

use crate::equal_definitions::{is_same_signature, is_same_type};
use crate::equality::{Alike, are_maps_alike, is_same_name};
use std::collections::BTreeMap;
use types_declared::{Export, ExportMeaning, PackageScope};

/// Whether two exports have the same meaning.
#[tactic(auto, unfolding(types_declared::specs::ExportTablesView::meaning_of))]
fn is_same_meaning(one: &ExportMeaning, other: &ExportMeaning) -> bool
    ensures { IsTrue result ↔ (meaning_of one.now ≡ meaning_of other.now) }
{
    match (one, other) {
        (ExportMeaning::Variable(one), ExportMeaning::Variable(other)) => is_same_type(one, other),
        (ExportMeaning::TypeName(one), ExportMeaning::TypeName(other)) => is_same_type(one, other),
        (ExportMeaning::Function(one), ExportMeaning::Function(other)) => {
            is_same_signature(one, other)
        }
        _ => false,
    }
}

impl Alike for Export {
    ghost alike = { λ one other. export_of one ≡ export_of other };

    fn is_like(&self, other: &Export) -> bool {
        is_same_meaning(&self.meaning, &other.meaning)
    }
}

/// Whether two maps have the same exports under the same names.
fn are_same_exports(one: &BTreeMap<Vec<u8>, Export>, other: &BTreeMap<Vec<u8>, Export>) -> bool
    ensures { IsTrue result ↔ (map (entry_value export_of) one.now.entries ≡ map (entry_value export_of) other.now.entries) }
{
    are_maps_alike(one, other)
}

/// Whether two packages have the same name and the same exports.
pub(crate) fn are_scopes_alike(one: &PackageScope, other: &PackageScope) -> bool
    ensures { IsTrue result ↔ (known_scope one.now ≡ known_scope other.now) }
{
    is_same_name(&one.name, &other.name) && are_same_exports(&one.exported, &other.exported)
}
