//! Compares types and type definitions: underlying types, fields and methods.
ghost use Rattle.std.specs.Prelude.{◌≡◌, ◌↔◌, IsTrue, map, option_map};
ghost use Rattle.types_expr.specs.Types.{same_underlying};
ghost use Rattle.types_expr.specs.View.{type_of, signature_of, form_of};
ghost use Rattle.types_expr.specs.WorldView.{underlying_of, field_of, plain_method_of};
ghost use Rattle.types_check.specs.Known.{entry_value, known_definition};

use crate::equality::{Alike, are_lists_alike, are_maps_alike};
use std::collections::BTreeMap;
use types_expr::symbol::Symbol;
use types_expr::types::{GoType, Signature, WrittenAs};
use types_expr::world::{Definition, Field, Method, Underlying};

/// Fields by name.
type FieldPairs = BTreeMap<Vec<u8>, Field>;

/// Methods by name.
type MethodPairs = BTreeMap<Vec<u8>, Method>;

/// Whether two symbols are equal.
fn is_same_symbol(one: &Symbol, other: &Symbol) -> bool
    ensures { IsTrue result ↔ (one.now ≡ other.now) }
{
    one.same(other)
}

/// Whether two types are identical.
pub(crate) fn is_same_type(one: &GoType, other: &GoType) -> bool
    ensures { IsTrue result ↔ (type_of one.now ≡ type_of other.now) }
{
    one.same(other)
}

impl Alike for GoType {
    ghost alike = { λ one other. type_of one ≡ type_of other };

    fn is_like(&self, other: &GoType) -> bool {
        is_same_type(self, other)
    }
}

/// Whether two lists have identical types in the same order.
fn are_same_types(one: &[GoType], other: &[GoType]) -> bool
    ensures { IsTrue result ↔ (map type_of one.now ≡ map type_of other.now) }
{
    are_lists_alike(one, other)
}

/// Whether two signatures have identical parameter and result types.
pub(crate) fn is_same_signature(one: &Signature, other: &Signature) -> bool
    ensures { IsTrue result ↔ (signature_of one.now ≡ signature_of other.now) }
{
    are_same_types(&one.parameters, &other.parameters)
        && are_same_types(&one.results, &other.results)
}

/// Whether two underlying types are identical.
#[tactic(auto, unfolding(types_expr::specs::WorldView::underlying_of, types_expr::specs::Types::same_underlying))]
fn has_same_shape(one: &Underlying, other: &Underlying) -> bool
    ensures { result ≡ same_underlying (underlying_of one.now) (underlying_of other.now) }
{
    match (one, other) {
        (Underlying::Plain(one), Underlying::Plain(other)) => one.same(*other),
        (Underlying::PointerTo(one), Underlying::PointerTo(other)) => one.same(other),
        (Underlying::SliceOf(one), Underlying::SliceOf(other)) => one.same(other),
        (Underlying::Struct(one), Underlying::Struct(other)) => one.same(other),
        (Underlying::Interface(one), Underlying::Interface(other)) => one.same(other),
        _ => false,
    }
}

/// Whether two underlying types are identical.
fn is_same_underlying(one: &Underlying, other: &Underlying) -> bool
    ensures { IsTrue result ↔ (underlying_of one.now ≡ underlying_of other.now) }
{
    has_same_shape(one, other)
}

/// Whether two optional signatures are identical, or both none.
fn is_same_result(one: &Option<Signature>, other: &Option<Signature>) -> bool
    ensures { IsTrue result ↔ (option_map signature_of one.now ≡ option_map signature_of other.now) }
{
    match (one, other) {
        (None, None) => true,
        (Some(one), Some(other)) => is_same_signature(one, other),
        _ => false,
    }
}

/// Whether two written members are identical: fields of one type, or methods of one signature.
#[tactic(auto, unfolding(types_expr::specs::View::form_of))]
fn is_same_form(one: &WrittenAs, other: &WrittenAs) -> bool
    ensures { IsTrue result ↔ (form_of one.now ≡ form_of other.now) }
{
    match (one, other) {
        (WrittenAs::Field(one), WrittenAs::Field(other)) => is_same_type(one, other),
        (WrittenAs::Method(one), WrittenAs::Method(other)) => is_same_signature(one, other),
        _ => false,
    }
}

impl Alike for Field {
    ghost alike = { λ one other. field_of one ≡ field_of other };

    fn is_like(&self, other: &Field) -> bool {
        self.exported == other.exported
            && is_same_symbol(&self.symbol, &other.symbol)
            && is_same_form(&self.form, &other.form)
    }
}

impl Alike for Method {
    ghost alike = { λ one other. plain_method_of one ≡ plain_method_of other };

    fn is_like(&self, other: &Method) -> bool {
        self.exported == other.exported
            && self.on_pointer == other.on_pointer
            && is_same_symbol(&self.symbol, &other.symbol)
            && is_same_result(&self.signature, &other.signature)
    }
}

/// Whether two maps have identical fields under the same names.
fn are_same_fields(one: &FieldPairs, other: &FieldPairs) -> bool
    ensures { IsTrue result ↔ (map (entry_value field_of) one.now.entries ≡ map (entry_value field_of) other.now.entries) }
{
    are_maps_alike(one, other)
}

/// Whether two maps have identical methods under the same names.
fn are_same_methods(one: &MethodPairs, other: &MethodPairs) -> bool
    ensures { IsTrue result ↔ (map (entry_value plain_method_of) one.now.entries ≡ map (entry_value plain_method_of) other.now.entries) }
{
    are_maps_alike(one, other)
}

impl Alike for Definition {
    ghost alike = { λ one other. known_definition one ≡ known_definition other };

    fn is_like(&self, other: &Definition) -> bool {
        is_same_underlying(&self.underlying, &other.underlying)
            && are_same_fields(&self.fields, &other.fields)
            && are_same_methods(&self.methods, &other.methods)
    }
}

/// Whether two lists of type definitions are equal, value by value.
pub(crate) fn are_definitions_alike(one: &[Definition], other: &[Definition]) -> bool
    ensures { IsTrue result ↔ (map known_definition one.now ≡ map known_definition other.now) }
{
    are_lists_alike(one, other)
}
