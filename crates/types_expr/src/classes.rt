//! Classes of values and families of operators: those that share rules.
use crate::types::Basic;

/// The class of the values of one underlying type or kind, as operators tell them apart.
#[derive(Clone, Copy, PartialEq, Eq, Debug)]
pub enum ValueClass {
    Of(Basic),
    Pointer,
    Slice,
    Struct,
    Interface,
    Nil,
}

/// A family of binary operators that share a rule.
#[derive(Clone, Copy, PartialEq, Eq, Debug)]
pub enum Family {
    Arithmetic,
    Addition,
    Equality,
    Order,
    Logic,
}
