//! Binary and prefix operators, indexes, and addresses.
ghost use Rattle.std.specs.Prelude.{◌≡◌, IfOk, option_map};
ghost use Rattle.types_expr.specs.Operations.{prefixed, pointee_of_kind, element_of_kind};
ghost use Rattle.types_expr.specs.Judge.{operation, prefix_of, index_of, address_of, element_meaning, means};
ghost use Rattle.types_expr.specs.View.{type_of, kind_of};
ghost use Rattle.types_expr.specs.WorldView.{world_of};
ghost use Rattle.types_expr.specs.Found.{meaning_of, AddsJudged};

use crate::found::FoundInFile;
use crate::meaning::Meaning;
use crate::places::FaultPlaces;
use crate::types::{GoType, ValueKind, pointer_to};
use crate::world::{Shape, World};
use go_ast::syntax::{BinaryOp, PrefixOp};
use std::alloc::{AllocError, Global};

impl World<'_> {
    /// Returns the meaning of a prefix operator on a value, none where it breaks a rule.
    #[tactic(auto, unfolding(crate::specs::Found::meaning_of, crate::specs::View::kind_of, crate::specs::WorldView::shape_of, crate::specs::Operations::prefixed))]
    fn prefixed<'w>(
        &self,
        alloc: Global,
        op: PrefixOp,
        kind: ValueKind,
    ) -> Result<Option<Meaning<'w>>, AllocError>
        ensures { IfOk result (λ m. option_map meaning_of m ≡ prefixed (world_of self.now) op (kind_of kind)) }
    {
        let class = self.class_of(&kind);
        match op {
            PrefixOp::Plus | PrefixOp::Minus => {
                if class.is_int() {
                    Ok(Some(Meaning::value(kind)))
                } else {
                    Ok(None)
                }
            }
            PrefixOp::Not => {
                if class.is_bool() {
                    Ok(Some(Meaning::value(kind)))
                } else {
                    Ok(None)
                }
            }
            PrefixOp::Deref => self.pointee_variable(alloc, kind),
        }
    }

    /// Returns the variable that a pointer points to. Of a type that is written as a pointer it takes the target type without copying it.
    #[tactic(auto, unfolding(crate::specs::View::kind_of, crate::specs::View::type_of))]
    fn pointee_variable<'w>(
        &self,
        alloc: Global,
        kind: ValueKind,
    ) -> Result<Option<Meaning<'w>>, AllocError>
        ensures { IfOk result (λ m. option_map meaning_of m ≡ pointee_of_kind (world_of self.now) (kind_of kind)) }
    {
        match kind {
            ValueKind::Typed(GoType::Pointer(target)) => {
                let target = ValueKind::Typed(Box::into_inner(target));
                Ok(Some(Meaning::variable(target)))
            }
            kind => self.copied_pointee(alloc, &kind),
        }
    }

    /// Returns the variable that a pointer points to, with a copy of its type.
    #[tactic(auto, unfolding(crate::specs::View::kind_of, crate::specs::WorldView::shape_of))]
    fn copied_pointee<'w>(
        &self,
        alloc: Global,
        kind: &ValueKind,
    ) -> Result<Option<Meaning<'w>>, AllocError>
        ensures { IfOk result (λ m. option_map meaning_of m ≡ pointee_of_kind (world_of self.now) (kind_of kind.now)) }
    {
        let ValueKind::Typed(own) = kind else {
            return Ok(None);
        };
        match self.underlying(own) {
            Shape::PointerTo(target) => {
                let target = ValueKind::Typed(target.copy(alloc)?);
                Ok(Some(Meaning::variable(target)))
            }
            _ => Ok(None),
        }
    }
}

impl FoundInFile {
    /// Returns the meaning of a binary operation in an expression that begins at token `start`.
    #[tactic(auto, unfolding(crate::specs::Found::meaning_of, crate::specs::Judge::operation))]
    pub fn operation<'w>(
        &mut self,
        world: &World<'w>,
        op: BinaryOp,
        start: usize,
        left: Meaning<'w>,
        right: Meaning<'w>,
    ) -> Result<Meaning<'w>, AllocError>
        ensures { IfOk result (λ m. AddsJudged (operation (world_of world.now) op start (meaning_of left.entry) (meaning_of right.entry)) self.old self.new (meaning_of m)) }
    {
        let Some(left) = left.into_kind() else {
            return Ok(Meaning::Broken);
        };
        let Some(right) = right.into_kind() else {
            return Ok(Meaning::Broken);
        };
        match world.operate(op, left, right) {
            Some(kind) => Ok(Meaning::value(kind)),
            None => self.wrong(start),
        }
    }

    /// Returns the meaning of a prefix operator at token `place`, before an operand of the given meaning.
    #[tactic(auto, unfolding(crate::specs::Found::meaning_of, crate::specs::Judge::prefix_of))]
    pub(crate) fn prefix<'w>(
        &mut self,
        alloc: Global,
        world: &World<'w>,
        op: PrefixOp,
        place: usize,
        meaning: Meaning<'w>,
    ) -> Result<Meaning<'w>, AllocError>
        ensures { IfOk result (λ m. AddsJudged (prefix_of (world_of world.now) op place (meaning_of meaning.entry)) self.old self.new (meaning_of m)) }
    {
        match meaning {
            Meaning::Value { kind, .. } => match world.prefixed(alloc, op, kind)? {
                Some(meaning) => Ok(meaning),
                None => self.wrong(place),
            },
            _ => Ok(Meaning::Broken),
        }
    }

    /// Returns the meaning of an element of a slice. Of a type that is written as a slice it takes the element type without copying it.
    #[tactic(auto, unfolding(crate::specs::View::kind_of, crate::specs::View::type_of))]
    fn element<'w>(
        &mut self,
        alloc: Global,
        world: &World<'w>,
        start: usize,
        slice: ValueKind,
    ) -> Result<Meaning<'w>, AllocError>
        ensures { IfOk result (λ m. AddsJudged (element_meaning (element_of_kind (world_of world.now) (kind_of slice)) start) self.old self.new (meaning_of m)) }
    {
        match slice {
            ValueKind::Typed(GoType::Slice(element)) => {
                Ok(Meaning::variable(ValueKind::Typed(Box::into_inner(element))))
            }
            slice => self.copied_element(alloc, world, start, &slice),
        }
    }

    /// Returns the meaning of an element of a slice, with a copy of its type.
    #[tactic(auto, unfolding(crate::specs::Found::meaning_of, crate::specs::View::kind_of))]
    fn copied_element<'w>(
        &mut self,
        alloc: Global,
        world: &World<'w>,
        start: usize,
        slice: &ValueKind,
    ) -> Result<Meaning<'w>, AllocError>
        ensures { IfOk result (λ m. AddsJudged (element_meaning (element_of_kind (world_of world.now) (kind_of slice.now)) start) self.old self.new (meaning_of m)) }
    {
        match world.element_of(slice) {
            Some(element) => {
                let element = ValueKind::Typed(element.copy(alloc)?);
                Ok(Meaning::variable(element))
            }
            None => self.wrong(start),
        }
    }

    /// Returns the meaning of an index expression. An index that is no int is a fault at `at.place`.
    #[tactic(auto, unfolding(crate::specs::Found::meaning_of, crate::specs::Judge::index_of, crate::specs::Judge::indexed, crate::specs::Judge::bad_index))]
    pub fn index<'w>(
        &mut self,
        alloc: Global,
        world: &World<'w>,
        at: FaultPlaces,
        operand: Meaning<'w>,
        index: Meaning<'w>,
    ) -> Result<Meaning<'w>, AllocError>
        ensures { IfOk result (λ m. AddsJudged (index_of (world_of world.now) at.start at.place (meaning_of operand.entry) (meaning_of index.entry)) self.old self.new (meaning_of m)) }
    {
        let Some(index) = index.into_kind() else {
            return Ok(Meaning::Broken);
        };
        if !world.class_of(&index).is_int() {
            return self.wrong(at.place);
        }
        match operand {
            Meaning::Value { kind, .. } => self.element(alloc, world, at.start, kind),
            _ => Ok(Meaning::Broken),
        }
    }
}

impl<'w> Meaning<'w> {
    /// Returns the meaning of `&` before a literal of this meaning.
    #[tactic(auto, unfolding(crate::specs::Found::meaning_of, crate::specs::View::kind_of, crate::specs::View::type_of, crate::specs::Judge::address_of))]
    pub(crate) fn into_address(self, alloc: Global) -> Result<Meaning<'w>, AllocError>
        ensures { IfOk result (λ m. means (meaning_of m) ≡ address_of (meaning_of self.entry)) }
    {
        match self {
            Meaning::Value { kind, .. } => match kind {
                ValueKind::Typed(own) => {
                    let pointer = pointer_to(alloc, own)?;
                    Ok(Meaning::value(ValueKind::Typed(pointer)))
                }
                _ => Ok(Meaning::Broken),
            },
            _ => Ok(Meaning::Broken),
        }
    }
}
