//! Keys of composite literals.
ghost use Rattle.std.specs.Prelude.{◌≡◌, if◌then◌else◌, IfOk, OnOk, option_map, map, ◌++◌, ◌∷◌, []};
ghost use Rattle.go_ast.specs.View.{key_view};
ghost use Rattle.types_expr.specs.Judge.{OfMember, WrongKey, FieldKey, none_seen, seen_with, key_at, element_key, seen_after, key_faults, is_whole_key, wanted_after_key, symbol_of_key};
ghost use Rattle.types_expr.specs.World.{underlying};
ghost use Rattle.types_expr.specs.Types.{element_of};
ghost use Rattle.types_expr.specs.View.{type_of};
ghost use Rattle.types_expr.specs.WorldView.{world_of};
ghost use Rattle.types_expr.specs.Found.{seen_of, key_of, noted_of, AddsKey};

use crate::found::{FoundInFile, symbol_of};
use crate::symbol::Symbol;
use crate::types::{GoType, WrittenAs};
use crate::world::{Member, Shape, World};
use go_ast::tree;
use std::alloc::{AllocError, Global};
use std::collections::BTreeSet;

/// The ranks of the fields that the keys of a literal named so far.
#[derive(Drop)]
pub struct SeenFields {
    ranks: BTreeSet<usize>,
}

/// What a key is: a field that no earlier key named, a method whose signature is broken, or a fault.
#[derive(Clone, Copy)]
pub enum LiteralKey<'w> {
    Field { rank: usize, field_type: &'w GoType },
    Broken,
    Wrong,
}

/// What precedes the value of an element: whether the key is no fault and not broken, whether there is no key, and the type that the value
/// has to fit.
#[derive(Clone, Copy)]
pub struct ElementKey<'w> {
    pub whole: bool,
    pub unkeyed: bool,
    pub wanted: Option<&'w GoType>,
}

impl SeenFields {
    /// No fields.
    #[tactic(auto, using(crate::proofs::SeenRanks::none_there))]
    pub fn new(alloc: Global) -> SeenFields
        ensures { seen_of result ≡ none_seen }
    {
        SeenFields {
            ranks: BTreeSet::new(alloc),
        }
    }

    /// Whether an earlier key named the field of this rank.
    #[tactic(auto, unfolding(crate::specs::Found::seen_of))]
    fn contains(&self, rank: usize) -> bool
        ensures { result ≡ seen_of self.now rank }
    {
        self.ranks.contains(&rank)
    }

    /// Returns the key that names the field of this rank: a fault, where an earlier key named it.
    #[tactic(auto, unfolding(crate::specs::Found::key_of))]
    fn key<'w>(&self, rank: usize, field_type: &'w GoType) -> LiteralKey<'w>
        ensures { key_of result ≡ (if seen_of self.now rank then WrongKey else FieldKey rank (type_of field_type.now)) }
    {
        if self.contains(rank) {
            LiteralKey::Wrong
        } else {
            LiteralKey::Field { rank, field_type }
        }
    }

    /// Adds the field that a key names, if it names one.
    #[tactic(auto, unfolding(crate::specs::Found::key_of))]
    fn add(&mut self, key: LiteralKey<'_>) -> Result<(), AllocError>
        ensures { OnOk result (seen_of self.new ≡ seen_with (key_of key.entry) (seen_of self.old)) }
    {
        if let LiteralKey::Field { rank, .. } = key {
            self.ranks.insert(rank)?;
        }
        Ok(())
    }
}

impl LiteralKey<'_> {
    /// Whether the key names a field that no earlier key named.
    #[tactic(auto, unfolding(crate::specs::Found::key_of))]
    fn is_whole(&self) -> bool
        ensures { result ≡ is_whole_key (key_of self.now) }
    {
        matches!(self, LiteralKey::Field { .. })
    }
}

impl<'w> World<'w> {
    /// Returns what the key at a token is, in a literal of the type `literal_type`.
    #[tactic(auto, unfolding(crate::specs::Found::key_of, crate::specs::View::form_of, crate::specs::WorldView::shape_of, crate::specs::WorldView::member_of))]
    fn key(&self, literal_type: &GoType, seen: &SeenFields, place: usize) -> LiteralKey<'w>
        ensures { key_of result ≡ key_at (world_of self.now) (seen_of seen.now) (type_of literal_type.now) place }
    {
        let Shape::Struct(_) = self.underlying(literal_type) else {
            return LiteralKey::Wrong;
        };
        match self.member(place, literal_type) {
            None => LiteralKey::Wrong,
            Some(Member::Field(field)) => match &field.form {
                WrittenAs::Field(field_type) => seen.key(field.symbol.rank, field_type),
                WrittenAs::Method(_) => LiteralKey::Wrong,
            },
            Some(Member::Method(method)) => match &method.signature {
                Some(_) => LiteralKey::Wrong,
                None => LiteralKey::Broken,
            },
        }
    }

    /// Returns the element type of a slice type, none for any other.
    #[tactic(auto, unfolding(crate::specs::WorldView::shape_of))]
    pub(crate) fn element_type<'a>(&'a self, of: &'a GoType) -> Option<&'a GoType>
        ensures { option_map (λ t. type_of t.now) result ≡ element_of (underlying (world_of self.now) (type_of of.now)) }
    {
        match self.underlying(of) {
            Shape::SliceOf(element) => Some(element),
            _ => None,
        }
    }

    /// Returns the symbol of the member that the key at a token denotes, none where the literal is no struct.
    #[tactic(auto, unfolding(crate::specs::WorldView::shape_of))]
    fn key_symbol(&self, literal_type: &GoType, place: usize) -> Result<Option<Symbol>, AllocError>
        ensures { IfOk result (λ s. s ≡ symbol_of_key (underlying (world_of self.now) (type_of literal_type.now)) ((world_of self.now).member place (type_of literal_type.now))) }
    {
        match self.underlying(literal_type) {
            Shape::Struct(_) => symbol_of(self.member(place, literal_type)),
            _ => Ok(None),
        }
    }

    /// Returns the type that the value after a key has to fit.
    #[tactic(auto, unfolding(crate::specs::Found::key_of))]
    fn wanted_after_key<'a>(
        &'a self,
        key: LiteralKey<'a>,
        literal_type: &'a GoType,
    ) -> Option<&'a GoType>
        ensures { option_map (λ t. type_of t.now) result ≡ wanted_after_key (key_of key.entry) (underlying (world_of self.now) (type_of literal_type.now)) }
    {
        match key {
            LiteralKey::Field { field_type, .. } => Some(field_type),
            _ => self.element_type(literal_type),
        }
    }
}

impl FoundInFile {
    /// Notes the use of a key's name, and a fault if the key is one.
    #[tactic(auto, unfolding(crate::specs::Found::key_of))]
    fn note_key(
        &mut self,
        alloc: Global,
        world: &World<'_>,
        literal_type: &GoType,
        place: usize,
        key: LiteralKey<'_>,
    ) -> Result<(), AllocError>
        ensures faults { OnOk result (self.new.faults.items ≡ self.old.faults.items ++ key_faults (key_of key.entry) place) }
        ensures uses { OnOk result (map noted_of self.new.uses.items ≡ map noted_of self.old.uses.items ++
            (OfMember (record { place = place; before = type_of literal_type.now; member = symbol_of_key (underlying (world_of world.now) (type_of literal_type.now)) ((world_of world.now).member place (type_of literal_type.now)) }) ∷ [])) }
    {
        let member = world.key_symbol(literal_type, place)?;
        let before = literal_type.copy(alloc)?;
        self.note_use(place, before, member)?;
        if let LiteralKey::Wrong = key {
            self.faults.push(place)?;
        }
        Ok(())
    }

    /// Judges the key, if any, of an element of a literal; `literal_type` is none where that type is broken.
    pub(crate) fn element_key<'a>(
        &mut self,
        alloc: Global,
        world: &'a World<'_>,
        literal_type: &'a Option<GoType>,
        seen: &mut SeenFields,
        key: &Option<tree::Key>,
    ) -> Result<ElementKey<'a>, AllocError>
        ensures key { IfOk result (AddsKey (element_key (world_of world.now) (option_map type_of literal_type.now) (seen_of seen.old) (key_view key.now)) self.old self.new) }
        ensures seen { OnOk result (seen_of seen.new ≡ seen_after (world_of world.now) (option_map type_of literal_type.now) (seen_of seen.old) (key_view key.now)) }
    {
        let Some(literal_type) = literal_type else {
            return Ok(ElementKey {
                whole: true,
                unkeyed: false,
                wanted: None,
            });
        };
        let Some(key) = key else {
            return Ok(ElementKey {
                whole: true,
                unkeyed: true,
                wanted: world.element_type(literal_type),
            });
        };
        let found = world.key(literal_type, seen, key.name as usize);
        seen.add(found)?;
        self.note_key(alloc, world, literal_type, key.name as usize, found)?;
        Ok(ElementKey {
            whole: found.is_whole(),
            unkeyed: false,
            wanted: world.wanted_after_key(found, literal_type),
        })
    }
}
