//! The meanings of expressions.
ghost use Rattle.std.specs.Prelude.{◌≡◌, IfOk, map, option_map, is_some, false, true};
ghost use Rattle.std.specs.List.{list_all};
ghost use Rattle.types_expr.specs.Judge.{value_kind, all_whole, result_meaning};
ghost use Rattle.types_expr.specs.View.{type_of, kind_of};
ghost use Rattle.types_expr.specs.Found.{meaning_of, list_value};
ghost use Rattle.types_expr.specs.Types.{Value};

use crate::types::{Builtin, GoType, Signature, ValueKind};
use std::alloc::{AllocError, Global};

/// The meaning of an expression. `Results` is a call with none or several results. `Broken` is an expression that is or has a fault, or
/// that uses a declaration with a broken part.
#[derive(Drop)]
pub enum Meaning<'w> {
    Value { kind: ValueKind, addressable: bool },
    TypeName(&'w GoType),
    Function(&'w Signature),
    Builtin(Builtin),
    Package,
    Results(&'w [GoType]),
    Broken,
}

/// A value of a list: the token of its faults, and its kind, none where it is broken.
#[derive(Drop)]
pub struct ListValue {
    pub place: usize,
    pub kind: Option<ValueKind>,
}

impl<'w> Meaning<'w> {
    /// A value that is not addressable.
    #[tactic(auto, unfolding(crate::specs::Found::meaning_of))]
    pub fn value(kind: ValueKind) -> Meaning<'w>
        ensures { meaning_of result ≡ Value (kind_of kind) false }
    {
        Meaning::Value {
            kind,
            addressable: false,
        }
    }

    /// A value that is addressable, so that it can be assigned.
    #[tactic(auto, unfolding(crate::specs::Found::meaning_of))]
    pub(crate) fn variable(kind: ValueKind) -> Meaning<'w>
        ensures { meaning_of result ≡ Value (kind_of kind) true }
    {
        Meaning::Value {
            kind,
            addressable: true,
        }
    }

    /// Returns the kind of a value, none for any other meaning.
    #[tactic(auto, unfolding(crate::specs::Found::meaning_of, crate::specs::Judge::value_kind))]
    pub fn into_kind(self) -> Option<ValueKind>
        ensures { option_map kind_of result ≡ value_kind (meaning_of self.entry) }
    {
        match self {
            Meaning::Value { kind, .. } => Some(kind),
            _ => None,
        }
    }
}

/// Returns the meaning of a call with these results.
#[tactic(auto, unfolding(crate::specs::Found::meaning_of, crate::specs::View::kind_of))]
pub(crate) fn result_meaning<'w>(
    alloc: Global,
    results: &'w [GoType],
) -> Result<Meaning<'w>, AllocError>
    ensures { IfOk result (λ m. meaning_of m ≡ result_meaning (map type_of results.now)) }
{
    match results {
        [only] => Ok(Meaning::value(ValueKind::Typed(only.copy(alloc)?))),
        _ => Ok(Meaning::Results(results)),
    }
}

/// Whether each value has a kind.
fn each_whole(values: &[ListValue]) -> bool
    ensures { result ≡ list_all (λ v. is_some v.kind) values.now }
{
    values.iter().all(|value| value.kind.is_some())
}

/// Whether none of the values is broken.
#[tactic(auto, using(crate::proofs::Values::whole_found))]
pub fn all_whole(values: &[ListValue]) -> bool
    ensures { result ≡ all_whole (map list_value values.now) }
{
    each_whole(values)
}
