//! Types, kinds and signatures.
ghost use Rattle.std.specs.Prelude.{◌≡◌, IfOk, map};
ghost use Rattle.types_expr.specs.Types.{Defined, Pointer, Slice, same_type, same_basic, identical_types, identical_signatures, is_named, is_pointer};
ghost use Rattle.types_expr.specs.View.{type_of, kind_of, signature_of};

use crate::symbol::Symbol;
use std::alloc::{AllocError, Global};

/// The predeclared types.
#[derive(Clone, Copy, PartialEq, Eq, Debug)]
pub enum Basic {
    Bool,
    Int,
    String,
}

/// A type. Two types are identical where they are built alike from equal parts.
#[derive(Drop)]
pub enum GoType {
    Basic(Basic),
    Defined(Symbol),
    Pointer(Box<GoType>),
    Slice(Box<GoType>),
}

/// The kind of a value: its type, the basic type of an untyped constant, or nil.
#[derive(Drop)]
pub enum ValueKind {
    Typed(GoType),
    Untyped(Basic),
    Nil,
}

/// The parameters and results of a function or method.
#[derive(Drop)]
pub struct Signature {
    pub parameters: Vec<GoType>,
    pub results: Vec<GoType>,
}

/// What a written member is: a field of this type, or a method of this signature that an interface asks for.
#[derive(Drop)]
pub enum WrittenAs {
    Field(GoType),
    Method(Signature),
}

/// The predeclared functions.
#[derive(Clone, Copy, PartialEq, Eq, Debug)]
pub enum Builtin {
    Append,
    Len,
    Panic,
    Print,
    Println,
}

/// Returns the type of a definition.
#[tactic(auto, unfolding(crate::specs::View::type_of))]
fn defined(symbol: &Symbol) -> Result<GoType, AllocError>
    ensures { IfOk result (λ t. type_of t ≡ Defined symbol.now) }
{
    let symbol = symbol.copy()?;
    Ok(GoType::Defined(symbol))
}

/// Returns the type of pointers to values of `target`.
#[tactic(auto, unfolding(crate::specs::View::type_of))]
pub(crate) fn pointer_to(alloc: Global, target: GoType) -> Result<GoType, AllocError>
    ensures { IfOk result (λ t. type_of t ≡ Pointer (type_of target)) }
{
    let target = Box::new(alloc, target)?;
    Ok(GoType::Pointer(target))
}

/// Returns the type of slices with elements of `element`.
#[tactic(auto, unfolding(crate::specs::View::type_of))]
pub(crate) fn slice_of(alloc: Global, element: GoType) -> Result<GoType, AllocError>
    ensures { IfOk result (λ t. type_of t ≡ Slice (type_of element)) }
{
    let element = Box::new(alloc, element)?;
    Ok(GoType::Slice(element))
}

impl GoType {
    /// Copies the type.
    #[tactic(auto, unfolding(crate::specs::View::type_of))]
    pub fn copy(&self, alloc: Global) -> Result<GoType, AllocError>
        ensures { IfOk result (λ t. type_of t ≡ type_of self.now) }
    {
        match self {
            GoType::Basic(basic) => Ok(GoType::Basic(*basic)),
            GoType::Defined(symbol) => defined(symbol),
            GoType::Pointer(target) => pointer_to(alloc, target.copy(alloc)?),
            GoType::Slice(element) => slice_of(alloc, element.copy(alloc)?),
        }
    }

    /// Whether the two types are identical.
    #[tactic(auto, unfolding(crate::specs::View::type_of, crate::specs::Types::same_type))]
    pub fn same(&self, other: &GoType) -> bool
        ensures { result ≡ same_type (type_of self.now) (type_of other.now) }
    {
        match (self, other) {
            (GoType::Basic(a), GoType::Basic(b)) => a.same(*b),
            (GoType::Defined(a), GoType::Defined(b)) => a.same(b),
            (GoType::Pointer(a), GoType::Pointer(b)) => a.same(b),
            (GoType::Slice(a), GoType::Slice(b)) => a.same(b),
            _ => false,
        }
    }

    /// Whether it is written as a pointer type.
    #[tactic(auto, unfolding(crate::specs::View::type_of))]
    pub fn is_pointer(&self) -> bool
        ensures { result ≡ is_pointer (type_of self.now) }
    {
        matches!(self, GoType::Pointer(_))
    }

    /// Whether the type is named: all but pointers and slices are.
    #[tactic(auto, unfolding(crate::specs::View::type_of, crate::specs::Types::is_named))]
    pub(crate) fn is_named(&self) -> bool
        ensures { result ≡ is_named (type_of self.now) }
    {
        matches!(self, GoType::Basic(_) | GoType::Defined(_))
    }
}

impl ValueKind {
    /// Copies the kind.
    #[tactic(auto, unfolding(crate::specs::View::kind_of))]
    pub fn copy(&self, alloc: Global) -> Result<ValueKind, AllocError>
        ensures { IfOk result (λ k. kind_of k ≡ kind_of self.now) }
    {
        match self {
            ValueKind::Typed(own) => Ok(ValueKind::Typed(own.copy(alloc)?)),
            ValueKind::Untyped(basic) => Ok(ValueKind::Untyped(*basic)),
            ValueKind::Nil => Ok(ValueKind::Nil),
        }
    }
}

/// Whether two lists have identical types in the same order.
fn are_identical(one: &[GoType], other: &[GoType]) -> bool
    ensures { result ≡ identical_types (map type_of one.now) (map type_of other.now) }
{
    if one.len() != other.len() {
        return false;
    }
    for i in 0..one.len() {
        if !one[i].same(&other[i]) {
            return false;
        }
    }
    true
}

impl Signature {
    /// Whether the two signatures have identical parameters and results.
    #[tactic(auto, unfolding(crate::specs::Types::identical_signatures))]
    pub(crate) fn is_identical(&self, other: &Signature) -> bool
        ensures { result ≡ identical_signatures (signature_of self.now) (signature_of other.now) }
    {
        are_identical(&self.parameters, &other.parameters)
            && are_identical(&self.results, &other.results)
    }
}

impl Basic {
    /// Whether the two types are equal.
    pub fn same(self, other: Basic) -> bool
        ensures { result ≡ same_basic self other }
    {
        self == other
    }
}
