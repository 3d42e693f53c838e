//! Copies the meanings of exports.
ghost use Rattle.std.specs.Prelude.{◌≡◌, map, IfOk};
ghost use Rattle.types_expr.specs.World.{Means};
ghost use Rattle.types_expr.specs.View.{type_of, signature_of};
ghost use Rattle.types_expr.specs.WorldView.{bound_of};
ghost use Rattle.types_declared.specs.ExportTablesView.{meaning_of};

use std::alloc::{AllocError, Global};
use types_declared::ExportMeaning;
use types_expr::types::{GoType, Signature};
use types_expr::world::Bound;

/// Returns a copy of a list of types.
fn copy_types(alloc: Global, types: &[GoType]) -> Result<Vec<GoType>, AllocError>
    ensures { IfOk result (λ copy. map type_of copy.items ≡ map type_of types.now) }
{
    let mut copy = Vec::with_capacity(alloc, types.len())?;
    for own in types {
        let next = own.copy(alloc)?;
        copy.push(next)?;
    }
    Ok(copy)
}

/// Returns a copy of a signature.
pub fn copy_signature(alloc: Global, signature: &Signature) -> Result<Signature, AllocError>
    ensures { IfOk result (λ copy. signature_of copy ≡ signature_of signature.now) }
{
    let parameters = copy_types(alloc, &signature.parameters)?;
    let results = copy_types(alloc, &signature.results)?;
    Ok(Signature {
        parameters,
        results,
    })
}

/// The meaning, in an importing package, of a qualified identifier that denotes this export.
#[tactic(auto, unfolding(types_expr::specs::WorldView::bound_of, types_declared::specs::ExportTablesView::meaning_of))]
pub fn exported_bound(alloc: Global, meaning: &ExportMeaning) -> Result<Bound, AllocError>
    ensures { IfOk result (λ b. bound_of b ≡ Means (meaning_of meaning.now)) }
{
    match meaning {
        ExportMeaning::Variable(own) => Ok(Bound::Variable(own.copy(alloc)?)),
        ExportMeaning::TypeName(own) => Ok(Bound::TypeName(own.copy(alloc)?)),
        ExportMeaning::Function(own) => Ok(Bound::Function(copy_signature(alloc, own)?)),
    }
}
