//! What the judgement of expressions finds: faults, and uses of members' names.
ghost use Rattle.std.specs.Prelude.{◌≡◌, IfOk, OnOk, option_map, Some, map, ◌++◌, ◌∷◌, []};
ghost use Rattle.types_expr.specs.Judge.{OfMember, as_value, means_or_wrong, member_meaning, select, select_member, wrong};
ghost use Rattle.types_expr.specs.Types.{Typed, Value};
ghost use Rattle.types_expr.specs.World.{World as PlainWorld, a_method, member_symbol, name_meaning, variable};
ghost use Rattle.types_expr.specs.View.{signature_of, type_of};
ghost use Rattle.types_expr.specs.WorldView.{member_of, world_of};
ghost use Rattle.types_expr.specs.Found.{locals_of, meaning_of, noted_of, AddsJudged};

use crate::locals::Locals;
use crate::meaning::Meaning;
use crate::symbol::Symbol;
use crate::types::{Basic, GoType, ValueKind, WrittenAs};
use crate::world::{Bound, Member, Method, World};
use std::alloc::{AllocError, Global};

/// A use of a member's name: the name after the dot of a selection, or a key of a composite literal. `place` is its token, `before` the
/// type of the operand or literal, `member` the field or method, if any.
#[derive(Drop)]
pub struct MemberUse {
    pub place: usize,
    pub before: GoType,
    pub member: Option<Symbol>,
}

/// A value that enters an interface, by the token at which it reports its faults. `own` is its type, which is no interface.
#[derive(Drop)]
pub struct Entering {
    pub place: usize,
    pub own: GoType,
}

/// What the judgement of a file notes, in order.
#[derive(Drop)]
pub enum Noted {
    Member(MemberUse),
    Entering(Entering),
}

/// What was found in a file so far: the tokens of its faults, and its uses of members' names and its entries.
#[derive(Drop)]
pub struct FoundInFile {
    pub faults: Vec<usize>,
    pub uses: Vec<Noted>,
}

/// What an expression is judged by: the world of its file, and the locals that are declared before it.
#[derive(Clone, Copy)]
pub struct LocalScope<'w> {
    pub world: &'w World<'w>,
    pub locals: &'w Locals,
}

/// Returns the symbol of a member.
pub(crate) fn symbol_of(member: Option<Member<'_>>) -> Result<Option<Symbol>, AllocError>
    ensures { IfOk result (λ s. s ≡ option_map member_symbol (option_map member_of member.entry)) }
{
    match member {
        Some(member) => Ok(Some(member.symbol().copy()?)),
        None => Ok(None),
    }
}

/// Returns the meaning of a field of this type.
#[tactic(auto, unfolding(crate::specs::Found::meaning_of, crate::specs::View::kind_of))]
fn field_meaning<'w>(
    alloc: Global,
    own: &GoType,
    addressable: bool,
) -> Result<Meaning<'w>, AllocError>
    ensures { IfOk result (λ m. meaning_of m ≡ Value (Typed (type_of own.now)) addressable) }
{
    let kind = ValueKind::Typed(own.copy(alloc)?);
    Ok(Meaning::Value { kind, addressable })
}

/// Returns the meaning of a method of a value. There is none where the method is on `*T` and the value is no pointer and not addressable.
#[tactic(auto, unfolding(crate::specs::Found::meaning_of))]
fn method_meaning<'w>(method: &'w Method, of: &GoType, addressable: bool) -> Option<Meaning<'w>>
    ensures { (w : PlainWorld) → option_map meaning_of result ≡
        member_meaning w (type_of of.now) addressable (Some (a_method method.now.symbol method.now.on_pointer (option_map signature_of method.now.signature))) }
{
    match &method.signature {
        None => Some(Meaning::Broken),
        Some(_) if method.on_pointer && !of.is_pointer() && !addressable => None,
        Some(signature) => Some(Meaning::Function(signature)),
    }
}

impl World<'_> {
    /// Returns the meaning of a member of a value of the type `of`. There is none where there is no member, or where `method_meaning` has
    /// none.
    #[tactic(auto, unfolding(crate::specs::Found::meaning_of, crate::specs::View::form_of, crate::specs::WorldView::member_of))]
    fn member_meaning<'m>(
        &self,
        alloc: Global,
        of: &GoType,
        addressable: bool,
        member: Option<Member<'m>>,
    ) -> Result<Option<Meaning<'m>>, AllocError>
        ensures { IfOk result (λ m. option_map meaning_of m ≡ member_meaning (world_of self.now) (type_of of.now) addressable (option_map member_of member.entry)) }
    {
        match member {
            None => Ok(None),
            Some(Member::Field(field)) => match &field.form {
                WrittenAs::Field(own) => {
                    let through = self.underlying(of).is_pointer();
                    let meaning = field_meaning(alloc, own, through || addressable)?;
                    Ok(Some(meaning))
                }
                WrittenAs::Method(signature) => Ok(Some(Meaning::Function(signature))),
            },
            Some(Member::Method(method)) => Ok(method_meaning(method, of, addressable)),
        }
    }
}

impl FoundInFile {
    /// Notes a fault at a token.
    #[tactic(auto, unfolding(crate::specs::Found::meaning_of))]
    pub fn wrong<'w>(&mut self, place: usize) -> Result<Meaning<'w>, AllocError>
        ensures { IfOk result (λ m. AddsJudged (wrong place) self.old self.new (meaning_of m)) }
    {
        self.faults.push(place)?;
        Ok(Meaning::Broken)
    }

    /// Returns `meaning` where it is a value or broken. Anything else is a fault where a value is required.
    #[tactic(auto, unfolding(crate::specs::Found::meaning_of, crate::specs::Judge::as_value))]
    pub fn as_value<'w>(
        &mut self,
        place: usize,
        meaning: Meaning<'w>,
    ) -> Result<Meaning<'w>, AllocError>
        ensures { IfOk result (λ m. AddsJudged (as_value place (meaning_of meaning.entry)) self.old self.new (meaning_of m)) }
    {
        match meaning {
            Meaning::Value { .. } | Meaning::Broken => Ok(meaning),
            _ => self.wrong(place),
        }
    }

    /// Notes the use of a member's name at a token, after a value or in a literal of the type `before`. `member` is none where the name
    /// denotes no member.
    #[tactic(auto, unfolding(crate::specs::Found::noted_of))]
    pub(crate) fn note_use(
        &mut self,
        place: usize,
        before: GoType,
        member: Option<Symbol>,
    ) -> Result<(), AllocError>
        ensures faults { OnOk result (self.new.faults.items ≡ self.old.faults.items) }
        ensures uses { OnOk result (map noted_of self.new.uses.items ≡ map noted_of self.old.uses.items ++ (OfMember (record { place = place; before = type_of before; member = member }) ∷ [])) }
    {
        self.uses.push(Noted::Member(MemberUse {
            place,
            before,
            member,
        }))?;
        Ok(())
    }

    /// Returns `meaning`, or notes a fault at `place` where there is none.
    #[tactic(auto, unfolding(crate::specs::Found::meaning_of))]
    fn means_or_wrong<'w>(
        &mut self,
        place: usize,
        meaning: Option<Meaning<'w>>,
    ) -> Result<Meaning<'w>, AllocError>
        ensures { IfOk result (λ m. AddsJudged (means_or_wrong (option_map meaning_of meaning.entry) place) self.old self.new (meaning_of m)) }
    {
        match meaning {
            Some(meaning) => Ok(meaning),
            None => self.wrong(place),
        }
    }

    /// Returns the meaning of the member whose name is at token `name`, of a value of the type `before`.
    fn member<'w>(
        &mut self,
        alloc: Global,
        world: &'w World<'w>,
        name: usize,
        before: GoType,
        addressable: bool,
    ) -> Result<Meaning<'w>, AllocError>
        ensures { IfOk result (λ m. AddsJudged (select_member (world_of world.now) name (type_of before) addressable) self.old self.new (meaning_of m)) }
    {
        let member = world.member(name, &before);
        let meaning = world.member_meaning(alloc, &before, addressable, member)?;
        let symbol = symbol_of(member)?;
        self.note_use(name, before, symbol)?;
        self.means_or_wrong(name, meaning)
    }

    /// Returns the meaning of a selector, after an operand of the given meaning that reports its faults at `place`.
    #[tactic(auto, unfolding(crate::specs::Found::meaning_of, crate::specs::View::kind_of, crate::specs::Judge::select))]
    pub(crate) fn select<'w>(
        &mut self,
        alloc: Global,
        scope: LocalScope<'w>,
        place: usize,
        name: usize,
        meaning: Meaning<'w>,
    ) -> Result<Meaning<'w>, AllocError>
        ensures { IfOk result (λ m. AddsJudged (select (world_of scope.entry.world.now) (locals_of scope.entry.locals.now) place name (meaning_of meaning.entry)) self.old self.new (meaning_of m)) }
    {
        match meaning {
            Meaning::Value { kind, addressable } => match kind {
                ValueKind::Typed(before) => self.member(
                    alloc,
                    scope.world,
                    name,
                    before,
                    addressable,
                ),
                _ => self.wrong(name),
            },
            Meaning::Package => scope.name_meaning(alloc, name),
            Meaning::Broken => Ok(Meaning::Broken),
            _ => self.wrong(place),
        }
    }
}

impl<'w> LocalScope<'w> {
    /// Returns the meaning of the local that a token declares; it is broken where the local has no type.
    #[tactic(auto, unfolding(crate::specs::Found::meaning_of, crate::specs::View::kind_of))]
    fn local_meaning(&self, alloc: Global, place: usize) -> Result<Meaning<'w>, AllocError>
        ensures { IfOk result (λ m. meaning_of m ≡ variable (locals_of self.now.locals.now place)) }
    {
        match self.locals.get(place) {
            Some(own) => Ok(Meaning::Value {
                kind: ValueKind::Typed(own.copy(alloc)?),
                addressable: true,
            }),
            None => Ok(Meaning::Broken),
        }
    }

    /// Returns the meaning of the name at a token.
    #[tactic(auto, unfolding(crate::specs::Found::meaning_of, crate::specs::View::kind_of, crate::specs::WorldView::bound_of))]
    pub(crate) fn name_meaning(
        &self,
        alloc: Global,
        place: usize,
    ) -> Result<Meaning<'w>, AllocError>
        ensures { IfOk result (λ m. meaning_of m ≡ name_meaning (world_of self.now.world.now) (locals_of self.now.locals.now) place) }
    {
        match self.world.bound(place) {
            None => Ok(Meaning::Broken),
            Some(Bound::Local(declared)) => self.local_meaning(alloc, *declared),
            Some(Bound::Variable(own)) => Ok(Meaning::Value {
                kind: ValueKind::Typed(own.copy(alloc)?),
                addressable: true,
            }),
            Some(Bound::Truth) => Ok(Meaning::value(ValueKind::Untyped(Basic::Bool))),
            Some(Bound::Nil) => Ok(Meaning::value(ValueKind::Nil)),
            Some(Bound::TypeName(own)) => Ok(Meaning::TypeName(own)),
            Some(Bound::Function(signature)) => Ok(Meaning::Function(signature)),
            Some(Bound::Builtin(builtin)) => Ok(Meaning::Builtin(*builtin)),
            Some(Bound::Package) => Ok(Meaning::Package),
            Some(Bound::BrokenVariable | Bound::BrokenFunction | Bound::BrokenType) => {
                Ok(Meaning::Broken)
            }
        }
    }
}
