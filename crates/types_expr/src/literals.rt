//! The meanings of composite literals.
ghost use Rattle.std.specs.Prelude.{◌≡◌, ◌&&◌, ◌||◌, IfOk, option_map};
ghost use Rattle.types_expr.specs.Judge.{literal_meaning, misfit_if, entering_if, is_whole};
ghost use Rattle.types_expr.specs.View.{type_of, kind_of};
ghost use Rattle.types_expr.specs.WorldView.{world_of};
ghost use Rattle.types_expr.specs.Found.{meaning_of, AddsJudged, AddsMisfits};

use crate::found::FoundInFile;
use crate::keys::ElementKey;
use crate::meaning::{ListValue, Meaning};
use crate::types::{GoType, ValueKind};
use crate::world::{Shape, World};
use std::alloc::{AllocError, Global};

/// A literal's elements so far: whether none has a fault or is broken, and whether one has no key.
#[derive(Clone, Copy)]
pub struct Elements {
    pub whole: bool,
    pub unkeyed: bool,
}

impl Elements {
    /// Returns these elements with one more, of that key and value. `fits`: whether the value fits or is broken.
    #[tactic(auto, unfolding(crate::specs::View::kind_of))]
    pub fn with(self, key: ElementKey<'_>, value: &ListValue, fits: bool) -> Elements
        ensures whole { result.whole ≡ (self.whole && (key.entry.whole && (is_whole (option_map kind_of value.now.kind) && fits))) }
        ensures unkeyed { result.unkeyed ≡ (self.unkeyed || key.entry.unkeyed) }
    {
        Elements {
            whole: self.whole && key.whole && value.kind.is_some() && fits,
            unkeyed: self.unkeyed || key.unkeyed,
        }
    }
}

impl FoundInFile {
    /// Notes a fault where the value does not fit `wanted`, if that is known. Returns whether the value fits or is broken.
    pub(crate) fn misfit_if(
        &mut self,
        alloc: Global,
        world: &World<'_>,
        value: &ListValue,
        wanted: Option<&GoType>,
    ) -> Result<bool, AllocError>
        ensures { IfOk result (λ fits. AddsMisfits (misfit_if (world_of world.now) value.now.place (option_map kind_of value.now.kind) (option_map (λ t. type_of t.now) wanted.entry))
            (entering_if (world_of world.now) value.now.place (option_map kind_of value.now.kind) (option_map (λ t. type_of t.now) wanted.entry)) self.old self.new fits) }
    {
        match wanted {
            Some(wanted) => self.misfit(alloc, world, value, wanted),
            None => Ok(true),
        }
    }

    /// Returns the meaning of a literal of the type `own`, which is none where it is broken, with these elements.
    #[tactic(auto, unfolding(crate::specs::Found::meaning_of, crate::specs::View::kind_of, crate::specs::WorldView::shape_of))]
    pub(crate) fn literal_meaning<'w>(
        &mut self,
        world: &World<'w>,
        start: usize,
        own: Option<GoType>,
        elements: Elements,
    ) -> Result<Meaning<'w>, AllocError>
        ensures { IfOk result (λ m. AddsJudged (literal_meaning (world_of world.now) start (option_map type_of own) elements.whole elements.unkeyed) self.old self.new (meaning_of m)) }
    {
        let Some(own) = own else {
            return Ok(Meaning::Broken);
        };
        if !elements.whole {
            return Ok(Meaning::Broken);
        }
        let fine = match world.underlying(&own) {
            Shape::Struct(_) => !elements.unkeyed,
            Shape::SliceOf(_) => true,
            Shape::Plain(_) | Shape::PointerTo(_) | Shape::Interface(_) => false,
        };
        if fine {
            Ok(Meaning::value(ValueKind::Typed(own)))
        } else {
            self.wrong(start)
        }
    }
}
