//! The rules of operations on types and kinds: assignability, conversion and binary operators.
ghost use Rattle.std.specs.Prelude.{◌≡◌, option_map};
ghost use Rattle.types_expr.specs.Types.{BasicType, same_underlying, is_interface, is_named, has_nil, either_unnamed, points, takes_no_methods};
ghost use Rattle.types_expr.specs.World.{giving, may_enter, underlying};
ghost use Rattle.types_expr.specs.Operations.{is_value_of, enters, fits, converts, joined, operate, class_of, class_of_underlying, family_of, result_of, is_nil, is_int, is_bool, is_ordered, has_length, is_printed, compares, element_of_kind};
ghost use Rattle.types_expr.specs.View.{type_of, kind_of};
ghost use Rattle.types_expr.specs.WorldView.{world_of, shape_of};

use crate::classes::{Family, ValueClass};
use crate::types::{Basic, GoType, ValueKind};
use crate::world::{Shape, World};
use go_ast::syntax::BinaryOp;

/// Whether two underlying types are identical.
#[tactic(auto, unfolding(crate::specs::WorldView::shape_of, crate::specs::Types::same_underlying))]
fn same_shape(a: Shape<'_>, b: Shape<'_>) -> bool
    ensures { result ≡ same_underlying (shape_of a.entry) (shape_of b.entry) }
{
    match (a, b) {
        (Shape::Plain(a), Shape::Plain(b)) => a.same(b),
        (Shape::PointerTo(a), Shape::PointerTo(b)) => a.same(b),
        (Shape::SliceOf(a), Shape::SliceOf(b)) => a.same(b),
        (Shape::Struct(a), Shape::Struct(b)) => a.same(b),
        (Shape::Interface(a), Shape::Interface(b)) => a.same(b),
        _ => false,
    }
}

impl Shape<'_> {
    /// Whether nil is a value of such a type.
    #[tactic(auto, unfolding(crate::specs::WorldView::shape_of, crate::specs::Types::has_nil))]
    fn has_nil(self) -> bool
        ensures { result ≡ has_nil (shape_of self.entry) }
    {
        matches!(
            self,
            Shape::PointerTo(_) | Shape::SliceOf(_) | Shape::Interface(_)
        )
    }

    /// Whether it is an interface.
    #[tactic(auto, unfolding(crate::specs::WorldView::shape_of))]
    pub(crate) fn is_interface(self) -> bool
        ensures { result ≡ is_interface (shape_of self.entry) }
    {
        matches!(self, Shape::Interface(_))
    }

    /// Whether it is the underlying type of pointers.
    #[tactic(auto, unfolding(crate::specs::WorldView::shape_of))]
    pub fn is_pointer(self) -> bool
        ensures { result ≡ points (shape_of self.entry) }
    {
        matches!(self, Shape::PointerTo(_))
    }

    /// Whether the types with this underlying type have no methods of receivers: pointers and interfaces.
    #[tactic(auto, unfolding(crate::specs::WorldView::shape_of))]
    pub fn takes_no_methods(self) -> bool
        ensures { result ≡ takes_no_methods (shape_of self.entry) }
    {
        matches!(self, Shape::PointerTo(_) | Shape::Interface(_))
    }

    /// Returns the class of its values.
    #[tactic(auto, unfolding(crate::specs::WorldView::shape_of))]
    fn class(self) -> ValueClass
        ensures { result ≡ class_of_underlying (shape_of self.entry) }
    {
        match self {
            Shape::Plain(basic) => ValueClass::Of(basic),
            Shape::PointerTo(_) => ValueClass::Pointer,
            Shape::SliceOf(_) => ValueClass::Slice,
            Shape::Struct(_) => ValueClass::Struct,
            Shape::Interface(_) => ValueClass::Interface,
        }
    }
}

impl ValueClass {
    pub fn is_int(self) -> bool
        ensures { result ≡ is_int self }
    {
        matches!(self, ValueClass::Of(Basic::Int))
    }

    pub fn is_bool(self) -> bool
        ensures { result ≡ is_bool self }
    {
        matches!(self, ValueClass::Of(Basic::Bool))
    }

    /// Whether `<`, `<=`, `>`, `>=` and `+` take such a value.
    fn is_ordered(self) -> bool
        ensures { result ≡ is_ordered self }
    {
        matches!(self, ValueClass::Of(Basic::Int | Basic::String))
    }

    /// Whether `len` takes such a value.
    pub(crate) fn has_length(self) -> bool
        ensures { result ≡ has_length self }
    {
        matches!(self, ValueClass::Of(Basic::String) | ValueClass::Slice)
    }

    /// Whether `print` and `println` take such a value.
    pub(crate) fn is_printed(self) -> bool
        ensures { result ≡ is_printed self }
    {
        matches!(self, ValueClass::Of(_))
    }

    /// Whether `==` and `!=` take such a value; `with_nil`: one of the two operands is nil.
    fn compares(self, with_nil: bool) -> bool
        ensures { result ≡ compares with_nil self }
    {
        match self {
            ValueClass::Of(_) | ValueClass::Pointer => true,
            ValueClass::Slice | ValueClass::Interface => with_nil,
            ValueClass::Struct | ValueClass::Nil => false,
        }
    }
}

/// Returns the family of a binary operator.
#[tactic(auto, unfolding(crate::specs::Operations::family_of))]
fn family_of(op: BinaryOp) -> Family
    ensures { result ≡ family_of op }
{
    match op {
        BinaryOp::Multiply | BinaryOp::Divide | BinaryOp::Remainder | BinaryOp::Subtract => {
            Family::Arithmetic
        }
        BinaryOp::Add => Family::Addition,
        BinaryOp::Equal | BinaryOp::NotEqual => Family::Equality,
        BinaryOp::Less | BinaryOp::LessEqual | BinaryOp::Greater | BinaryOp::GreaterEqual => {
            Family::Order
        }
        BinaryOp::And | BinaryOp::Or => Family::Logic,
    }
}

/// Returns the kind of an operation on operands of one class, none where the class has no such operation.
#[tactic(auto, unfolding(crate::specs::View::kind_of, crate::specs::Operations::result_of))]
fn result_of(
    family: Family,
    with_nil: bool,
    class: ValueClass,
    kind: ValueKind,
) -> Option<ValueKind>
    ensures { option_map kind_of result ≡ result_of family with_nil class (kind_of kind) }
{
    let fine = match family {
        Family::Arithmetic => class.is_int(),
        Family::Addition | Family::Order => class.is_ordered(),
        Family::Equality => class.compares(with_nil),
        Family::Logic => class.is_bool(),
    };
    if !fine {
        return None;
    }
    match family {
        Family::Equality | Family::Order => Some(ValueKind::Untyped(Basic::Bool)),
        _ => Some(kind),
    }
}

/// Whether at least one of the two types is a pointer or slice type.
#[tactic(auto, unfolding(crate::specs::Types::is_named))]
fn either_unnamed(a: &GoType, b: &GoType) -> bool
    ensures { result ≡ either_unnamed (is_named (type_of a.now)) (is_named (type_of b.now)) }
{
    !(a.is_named() && b.is_named())
}

impl ValueKind {
    #[tactic(auto, unfolding(crate::specs::View::kind_of, crate::specs::Operations::is_nil))]
    fn is_nil(&self) -> bool
        ensures { result ≡ is_nil (kind_of self.now) }
    {
        matches!(self, ValueKind::Nil)
    }
}

/// Whether values may enter an interface: one of several results of a call (`own` is false) may only from an interface.
fn may_enter(own: bool, from_interface: bool) -> bool
    ensures { result ≡ may_enter own from_interface }
{
    own || from_interface
}

impl World<'_> {
    /// Whether a value of one type is one of another: the types are identical, or one is not named and the underlying types are identical.
    fn is_value_of(&self, own: &GoType, wanted: &GoType) -> bool
        ensures { result ≡ is_value_of (world_of self.now) (type_of own.now) (type_of wanted.now) }
    {
        own.same(wanted)
            || (either_unnamed(own, wanted)
                && same_shape(self.underlying(own), self.underlying(wanted)))
    }

    /// Whether values of a type enter the types with this underlying type: it is an interface that the type implements. `own` is false for
    /// one of several results of a call.
    #[tactic(auto, unfolding(crate::specs::WorldView::shape_of))]
    pub(crate) fn enters(&self, own: bool, of: &GoType, wanted: Shape<'_>) -> bool
        ensures { result ≡ enters (giving own (world_of self.now)) (type_of of.now) (shape_of wanted.entry) }
    {
        match wanted {
            Shape::Interface(interface) => {
                may_enter(own, self.underlying(of).is_interface()) && self.implements(of, interface)
            }
            _ => false,
        }
    }

    /// Whether a value of that kind fits the type (Go specification, "Assignability"); `own` is false for one of several results of a call.
    #[tactic(auto, unfolding(crate::specs::View::kind_of, crate::specs::View::type_of, crate::specs::WorldView::shape_of, crate::specs::Operations::fits))]
    pub(crate) fn fits_given(&self, own: bool, kind: &ValueKind, wanted: &GoType) -> bool
        ensures { result ≡ fits (giving own (world_of self.now)) (kind_of kind.now) (type_of wanted.now) }
    {
        let shape = self.underlying(wanted);
        match kind {
            ValueKind::Typed(typed) => {
                self.is_value_of(typed, wanted) || self.enters(own, typed, shape)
            }
            ValueKind::Untyped(basic) => {
                same_shape(Shape::Plain(*basic), shape)
                    || self.enters(own, &GoType::Basic(*basic), shape)
            }
            ValueKind::Nil => shape.has_nil(),
        }
    }

    /// Whether a value of that kind fits the type (Go specification, "Assignability").
    pub fn fits(&self, kind: &ValueKind, wanted: &GoType) -> bool
        ensures { result ≡ fits (world_of self.now) (kind_of kind.now) (type_of wanted.now) }
    {
        self.fits_given(true, kind, wanted)
    }

    /// Whether a value of that kind converts to the type (Go specification, "Conversions").
    #[tactic(auto, unfolding(crate::specs::View::kind_of))]
    pub(crate) fn converts(&self, kind: &ValueKind, wanted: &GoType) -> bool
        ensures { result ≡ converts (world_of self.now) (kind_of kind.now) (type_of wanted.now) }
    {
        match kind {
            ValueKind::Typed(own) => {
                self.fits(kind, wanted) || same_shape(self.underlying(own), self.underlying(wanted))
            }
            _ => self.fits(kind, wanted),
        }
    }

    /// Returns the class of the values of that kind.
    #[tactic(auto, unfolding(crate::specs::View::kind_of, crate::specs::Operations::class_of))]
    pub fn class_of(&self, kind: &ValueKind) -> ValueClass
        ensures { result ≡ class_of (world_of self.now) (kind_of kind.now) }
    {
        match kind {
            ValueKind::Typed(own) => self.underlying(own).class(),
            ValueKind::Untyped(basic) => ValueClass::Of(*basic),
            ValueKind::Nil => ValueClass::Nil,
        }
    }

    /// Returns the common kind of two operands, none where they do not go together.
    #[tactic(auto, unfolding(crate::specs::View::kind_of, crate::specs::Operations::joined))]
    fn joined(&self, left: ValueKind, right: ValueKind) -> Option<ValueKind>
        ensures { option_map kind_of result ≡ joined (world_of self.now) (kind_of left) (kind_of right) }
    {
        let together = match (&left, &right) {
            (ValueKind::Typed(a), ValueKind::Typed(b)) => a.same(b),
            (ValueKind::Typed(a), _) => self.fits(&right, a),
            (_, ValueKind::Typed(b)) => self.fits(&left, b),
            (ValueKind::Untyped(a), ValueKind::Untyped(b)) => a.same(*b),
            (ValueKind::Nil, ValueKind::Nil) => true,
            _ => false,
        };
        if !together {
            return None;
        }
        match left {
            ValueKind::Typed(_) => Some(left),
            _ => Some(right),
        }
    }

    /// Returns the kind of a binary operation, none where it breaks a rule.
    #[tactic(auto, unfolding(crate::specs::Operations::operate))]
    pub fn operate(&self, op: BinaryOp, left: ValueKind, right: ValueKind) -> Option<ValueKind>
        ensures { option_map kind_of result ≡ operate (world_of self.now) op (kind_of left) (kind_of right) }
    {
        let with_nil = left.is_nil() || right.is_nil();
        let kind = self.joined(left, right)?;
        let class = self.class_of(&kind);
        result_of(family_of(op), with_nil, class, kind)
    }

    /// Returns the element type of a slice value, none for any other value.
    #[tactic(auto, unfolding(crate::specs::View::kind_of, crate::specs::WorldView::shape_of))]
    pub(crate) fn element_of<'a>(&'a self, kind: &'a ValueKind) -> Option<&'a GoType>
        ensures { option_map (λ t. type_of t.now) result ≡ element_of_kind (world_of self.now) (kind_of kind.now) }
    {
        let ValueKind::Typed(own) = kind else {
            return None;
        };
        match self.underlying(own) {
            Shape::SliceOf(element) => Some(element),
            _ => None,
        }
    }
}
