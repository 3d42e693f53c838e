//! Calls of functions and builtins, and conversions.
ghost use Rattle.std.specs.Prelude.{◌≡◌, ◌++◌, IfOk, OnOk, map, option_map};
ghost use Rattle.std.specs.List.{list_all};
ghost use Rattle.types_expr.specs.Operations.{element_of_kind};
ghost use Rattle.types_expr.specs.Judge.{call_of, call_function, call_builtin, call_when, enters_at, entering, enterings, all_enterings, convert, append, append_to, misfit, misfits, all_misfits, all_whole, all_printed, is_printed_value, len_fits, wrong_if_whole};
ghost use Rattle.types_expr.specs.View.{type_of, kind_of, signature_of};
ghost use Rattle.types_expr.specs.World.{giving};
ghost use Rattle.types_expr.specs.WorldView.{world_of};
ghost use Rattle.types_expr.specs.Found.{meaning_of, noted_of, list_value, AddsJudged, AddsMisfits};

use crate::found::{Entering, FoundInFile, Noted};
use crate::meaning::{ListValue, Meaning, all_whole, result_meaning};
use crate::places::FaultPlaces;
use crate::types::{Basic, Builtin, GoType, Signature, ValueKind};
use crate::world::World;
use std::alloc::{AllocError, Global};

impl World<'_> {
    /// Whether `print` and `println` take the value; a broken one passes.
    fn prints_value(&self, kind: &Option<ValueKind>) -> bool
        ensures { result ≡ is_printed_value (world_of self.now) (option_map kind_of kind.now) }
    {
        match kind {
            Some(kind) => self.class_of(kind).is_printed(),
            None => true,
        }
    }

    /// Whether each value passes `prints_value`.
    fn prints_each(&self, values: &[ListValue]) -> bool
        ensures { result ≡ list_all (λ v. is_printed_value (world_of self.now) (option_map kind_of v.kind)) values.now }
    {
        values.iter().all(|value| self.prints_value(&value.kind))
    }

    /// Whether `print` and `println` take all the values.
    #[tactic(auto, using(crate::proofs::Values::printed_found))]
    fn prints_all(&self, values: &[ListValue]) -> bool
        ensures { result ≡ all_printed (world_of self.now) (map list_value values.now) }
    {
        self.prints_each(values)
    }

    /// Whether the values are the arguments of `len`: one value, which has a length or is broken.
    fn takes_len(&self, values: &[ListValue]) -> bool
        ensures { result ≡ len_fits (world_of self.now) (map list_value values.now) }
    {
        match values {
            [value] => match &value.kind {
                Some(kind) => self.class_of(kind).has_length(),
                None => true,
            },
            _ => false,
        }
    }
}

impl FoundInFile {
    /// Notes a fault at `start`, but only where none of the values is broken.
    #[tactic(auto, unfolding(crate::specs::Found::meaning_of))]
    fn wrong_if_whole<'w>(
        &mut self,
        start: usize,
        values: &[ListValue],
    ) -> Result<Meaning<'w>, AllocError>
        ensures { IfOk result (λ m. AddsJudged (wrong_if_whole (all_whole (map list_value values.now)) start) self.old self.new (meaning_of m)) }
    {
        if all_whole(values) {
            self.wrong(start)
        } else {
            Ok(Meaning::Broken)
        }
    }

    /// Notes the entry of a value of the type `of` into `wanted`, if that is an interface which `of` implements, and `of` is none.
    #[tactic(auto, unfolding(crate::specs::Found::noted_of))]
    fn note_entering(
        &mut self,
        alloc: Global,
        world: &World<'_>,
        own: bool,
        place: usize,
        of: &GoType,
        wanted: &GoType,
    ) -> Result<(), AllocError>
        ensures faults { OnOk result (self.new.faults.items ≡ self.old.faults.items) }
        ensures enterings { OnOk result (map noted_of self.new.uses.items ≡ map noted_of self.old.uses.items ++ enters_at (giving own (world_of world.now)) place (type_of of.now) (type_of wanted.now)) }
    {
        if world.underlying(of).is_interface() {
            return Ok(());
        }
        let shape = world.underlying(wanted);
        if world.enters(own, of, shape) {
            let own = of.copy(alloc)?;
            self.uses.push(Noted::Entering(Entering { place, own }))?;
        }
        Ok(())
    }

    /// Notes the entry, if there is one, of a value that has to fit `wanted`.
    #[tactic(auto, unfolding(crate::specs::View::kind_of, crate::specs::View::type_of, crate::specs::Judge::entering))]
    fn enter(
        &mut self,
        alloc: Global,
        world: &World<'_>,
        own: bool,
        value: &ListValue,
        wanted: &GoType,
    ) -> Result<(), AllocError>
        ensures faults { OnOk result (self.new.faults.items ≡ self.old.faults.items) }
        ensures enterings { OnOk result (map noted_of self.new.uses.items ≡ map noted_of self.old.uses.items ++ entering (giving own (world_of world.now)) value.now.place (option_map kind_of value.now.kind) (type_of wanted.now)) }
    {
        let place = value.place;
        match &value.kind {
            Some(ValueKind::Typed(of)) => self.note_entering(alloc, world, own, place, of, wanted),
            Some(ValueKind::Untyped(basic)) => {
                self.note_entering(alloc, world, own, place, &GoType::Basic(*basic), wanted)
            }
            Some(ValueKind::Nil) | None => Ok(()),
        }
    }

    /// Notes a fault where the value does not fit `wanted`, or the entry where it enters it. Returns whether the value fits or is broken.
    /// `own` is false for one of several results of a call.
    #[tactic(auto, unfolding(crate::specs::View::kind_of, crate::specs::Judge::misfit))]
    pub fn misfit_given(
        &mut self,
        alloc: Global,
        world: &World<'_>,
        own: bool,
        value: &ListValue,
        wanted: &GoType,
    ) -> Result<bool, AllocError>
        ensures { IfOk result (λ none. AddsMisfits (misfit (giving own (world_of world.now)) value.now.place (option_map kind_of value.now.kind) (type_of wanted.now))
            (entering (giving own (world_of world.now)) value.now.place (option_map kind_of value.now.kind) (type_of wanted.now)) self.old self.new none) }
    {
        self.enter(alloc, world, own, value, wanted)?;
        let Some(kind) = &value.kind else {
            return Ok(true);
        };
        if world.fits_given(own, kind, wanted) {
            return Ok(true);
        }
        self.faults.push(value.place)?;
        Ok(false)
    }

    /// Notes a fault where the value does not fit `wanted`. Returns whether the value fits or is broken.
    pub fn misfit(
        &mut self,
        alloc: Global,
        world: &World<'_>,
        value: &ListValue,
        wanted: &GoType,
    ) -> Result<bool, AllocError>
        ensures { IfOk result (λ none. AddsMisfits (misfit (world_of world.now) value.now.place (option_map kind_of value.now.kind) (type_of wanted.now))
            (entering (world_of world.now) value.now.place (option_map kind_of value.now.kind) (type_of wanted.now)) self.old self.new none) }
    {
        self.misfit_given(alloc, world, true, value, wanted)
    }

    /// Notes each value that does not fit the type at its position. Returns whether there is none.
    fn misfits(
        &mut self,
        alloc: Global,
        world: &World<'_>,
        values: &[ListValue],
        types: &[GoType],
    ) -> Result<bool, AllocError>
        ensures { IfOk result (λ none. AddsMisfits (misfits (world_of world.now) (map list_value values.now) (map type_of types.now))
            (enterings (world_of world.now) (map list_value values.now) (map type_of types.now)) self.old self.new none) }
    {
        let mut none = true;
        let mut i = 0;
        'each: while i < values.len() && i < types.len() {
            let fits = self.misfit(alloc, world, &values[i], &types[i])?;
            none = none && fits;
            i += 1;
        }
        Ok(none)
    }

    /// Notes each value that does not fit `wanted`. Returns whether there is none.
    fn all_misfits(
        &mut self,
        alloc: Global,
        world: &World<'_>,
        values: &[ListValue],
        wanted: &GoType,
    ) -> Result<bool, AllocError>
        ensures { IfOk result (λ none. AddsMisfits (all_misfits (world_of world.now) (map list_value values.now) (type_of wanted.now))
            (all_enterings (world_of world.now) (map list_value values.now) (type_of wanted.now)) self.old self.new none) }
    {
        let mut none = true;
        for value in values {
            let fits = self.misfit(alloc, world, value, wanted)?;
            none = none && fits;
        }
        Ok(none)
    }

    /// Returns the meaning of a call of a function.
    #[tactic(auto, unfolding(crate::specs::Found::meaning_of, crate::specs::Judge::call_function, crate::specs::Judge::unless_faults))]
    fn call_function<'w>(
        &mut self,
        alloc: Global,
        world: &World<'w>,
        start: usize,
        signature: &'w Signature,
        values: &[ListValue],
    ) -> Result<Meaning<'w>, AllocError>
        ensures { IfOk result (λ m. AddsJudged (call_function (world_of world.now) start (signature_of signature.now) (map list_value values.now)) self.old self.new (meaning_of m)) }
    {
        if values.len() != signature.parameters.len() {
            return self.wrong_if_whole(start, values);
        }
        let fits = self.misfits(alloc, world, values, &signature.parameters)?;
        if !fits || !all_whole(values) {
            return Ok(Meaning::Broken);
        }
        result_meaning(alloc, &signature.results)
    }

    /// Returns the meaning of a conversion `T(x)`.
    #[tactic(auto, unfolding(crate::specs::Found::meaning_of, crate::specs::View::kind_of, crate::specs::Judge::convert))]
    fn convert<'w>(
        &mut self,
        alloc: Global,
        world: &World<'w>,
        start: usize,
        wanted: &GoType,
        values: &[ListValue],
    ) -> Result<Meaning<'w>, AllocError>
        ensures { IfOk result (λ m. AddsJudged (convert (world_of world.now) start (type_of wanted.now) (map list_value values.now)) self.old self.new (meaning_of m)) }
    {
        let [value] = values else {
            return self.wrong_if_whole(start, values);
        };
        self.enter(alloc, world, true, value, wanted)?;
        match &value.kind {
            None => Ok(Meaning::Broken),
            Some(kind) if world.converts(kind, wanted) => {
                Ok(Meaning::value(ValueKind::Typed(wanted.copy(alloc)?)))
            }
            Some(_) => self.wrong(start),
        }
    }

    /// Returns the meaning of `append` of `values` to a value of kind `slice`.
    #[tactic(auto, unfolding(crate::specs::Found::meaning_of, crate::specs::View::kind_of, crate::specs::Judge::unless_faults))]
    fn append_to<'w>(
        &mut self,
        alloc: Global,
        world: &World<'w>,
        start: usize,
        slice: &ValueKind,
        values: &[ListValue],
    ) -> Result<Meaning<'w>, AllocError>
        ensures { IfOk result (λ m. AddsJudged (append_to (world_of world.now) start (kind_of slice.now) (element_of_kind (world_of world.now) (kind_of slice.now)) (map list_value values.now)) self.old self.new (meaning_of m)) }
    {
        let Some(element) = world.element_of(slice) else {
            return self.wrong_if_whole(start, values);
        };
        let fits = self.all_misfits(alloc, world, values, element)?;
        if !fits || !all_whole(values) {
            return Ok(Meaning::Broken);
        }
        Ok(Meaning::value(slice.copy(alloc)?))
    }

    /// Returns the meaning of a call of `append`.
    #[tactic(auto, unfolding(crate::specs::Found::meaning_of, crate::specs::Judge::append))]
    fn append<'w>(
        &mut self,
        alloc: Global,
        world: &World<'w>,
        start: usize,
        values: &[ListValue],
    ) -> Result<Meaning<'w>, AllocError>
        ensures { IfOk result (λ m. AddsJudged (append (world_of world.now) start (map list_value values.now)) self.old self.new (meaning_of m)) }
    {
        let [slice, rest @ ..] = values else {
            return self.wrong(start);
        };
        match &slice.kind {
            None => Ok(Meaning::Broken),
            Some(kind) => self.append_to(alloc, world, start, kind, rest),
        }
    }

    /// Returns `meaning` where the arguments of a builtin are `fine`, else notes a fault at `start`.
    #[tactic(auto, unfolding(crate::specs::Found::meaning_of))]
    fn call_when<'w>(
        &mut self,
        fine: bool,
        values: &[ListValue],
        start: usize,
        meaning: Meaning<'w>,
    ) -> Result<Meaning<'w>, AllocError>
        ensures { IfOk result (λ m. AddsJudged (call_when fine (map list_value values.now) start (meaning_of meaning.entry)) self.old self.new (meaning_of m)) }
    {
        if !all_whole(values) {
            return Ok(Meaning::Broken);
        }
        if fine { Ok(meaning) } else { self.wrong(start) }
    }

    /// Returns the meaning of a call of a predeclared function.
    #[tactic(auto, unfolding(crate::specs::Found::meaning_of, crate::specs::View::kind_of, crate::specs::View::type_of, crate::specs::Judge::call_builtin))]
    fn call_builtin<'w>(
        &mut self,
        alloc: Global,
        world: &World<'w>,
        start: usize,
        builtin: Builtin,
        values: &[ListValue],
    ) -> Result<Meaning<'w>, AllocError>
        ensures { IfOk result (λ m. AddsJudged (call_builtin (world_of world.now) start builtin (map list_value values.now)) self.old self.new (meaning_of m)) }
    {
        match builtin {
            Builtin::Append => self.append(alloc, world, start, values),
            Builtin::Len => self.call_when(
                world.takes_len(values),
                values,
                start,
                Meaning::value(ValueKind::Typed(GoType::Basic(Basic::Int))),
            ),
            Builtin::Panic => {
                self.call_when(values.len() == 1, values, start, Meaning::Results(&[]))
            }
            Builtin::Print => {
                self.call_when(
                    world.prints_all(values),
                    values,
                    start,
                    Meaning::Results(&[]),
                )
            }
            Builtin::Println => {
                self.call_when(
                    world.prints_all(values),
                    values,
                    start,
                    Meaning::Results(&[]),
                )
            }
        }
    }

    /// Returns the meaning of a call of an operand of the given meaning.
    #[tactic(auto, unfolding(crate::specs::Found::meaning_of, crate::specs::View::kind_of, crate::specs::Judge::call_of))]
    pub fn call<'w>(
        &mut self,
        alloc: Global,
        world: &World<'w>,
        at: FaultPlaces,
        values: &[ListValue],
        meaning: Meaning<'w>,
    ) -> Result<Meaning<'w>, AllocError>
        ensures { IfOk result (λ m. AddsJudged (call_of (world_of world.now) at.start at.place (map list_value values.now) (meaning_of meaning.entry)) self.old self.new (meaning_of m)) }
    {
        let start = at.start;
        match meaning {
            Meaning::Function(signature) => {
                self.call_function(alloc, world, start, signature, values)
            }
            Meaning::TypeName(wanted) => self.convert(alloc, world, start, wanted, values),
            Meaning::Builtin(builtin) => self.call_builtin(alloc, world, start, builtin, values),
            Meaning::Value { .. } => self.wrong_if_whole(start, values),
            Meaning::Broken => Ok(Meaning::Broken),
            Meaning::Package | Meaning::Results(_) => self.wrong(at.place),
        }
    }
}
