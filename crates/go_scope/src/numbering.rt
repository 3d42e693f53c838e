//! Numbers the names of identifiers, so that later searches compare numbers and not bytes.
ghost use Rattle.std.specs.Prelude.{◌≡◌, ◌<◌, ◌≤◌, ◌+◌, length, IfOk, OnOk};
ghost use Rattle.go_scope.specs.Numbering.{is_lexical, number_at, AreBelow, AreFirsts, HasName, IsLexical, Distinguish};
ghost use Rattle.go_scope.specs.Table.{layout_of, names_of, IsFirstOf};

use crate::capacity::name_room;
use crate::model::{Identifier, Role};
use crate::resolve::{name_at, role_at};
use base_files::list_as_long;
use indexmap::IndexMap;
use std::alloc::{AllocError, Global};

/// The bytes of a name.
#[derive(Clone, Copy, PartialEq, Eq, Hash)]
pub struct NameBytes<'a> {
    pub bytes: &'a [u8],
}

impl Role {
    /// Whether the name of an identifier of this role is looked up: the identifier is a use, or it may declare.
    fn is_lexical(self) -> bool
        ensures { result ≡ is_lexical self }
    {
        match self {
            Role::Use | Role::Declaring(_, _) | Role::LeftName(_, _) | Role::Implied(_, _) => true,
            Role::NotLexical(_) => false,
        }
    }
}

/// The number of the name of u, the next identifier: the number of the first identifier of that name.
fn first_of<'a>(
    firsts: &mut IndexMap<NameBytes<'a>, usize>,
    identifiers: &[Identifier<'a>],
    u: usize,
) -> Result<usize, AllocError>
    requires in_range { u < length identifiers.now }
    requires lexical { IsLexical (layout_of identifiers.now) u }
    requires firsts { AreFirsts (layout_of identifiers.now) (names_of identifiers.now) u firsts.old }
    ensures firsts { OnOk result (AreFirsts (layout_of identifiers.now) (names_of identifiers.now) (u + 1) firsts.new) }
    ensures number { IfOk result (λ n. IsFirstOf (HasName (layout_of identifiers.now) (names_of identifiers.now) (names_of identifiers.now u)) (u + 1) n) }
{
    let bytes = name_at(identifiers, u);
    let name = NameBytes { bytes };
    match firsts.get(&name).copied() {
        Some(first) => Ok(first),
        None => {
            firsts.insert(name, u)?;
            Ok(u)
        }
    }
}

/// The number of the name of u, the next identifier. It is 0 where the name is not looked up.
fn next_number<'a>(
    firsts: &mut IndexMap<NameBytes<'a>, usize>,
    identifiers: &[Identifier<'a>],
    u: usize,
) -> Result<usize, AllocError>
    requires in_range { u < length identifiers.now }
    requires firsts { AreFirsts (layout_of identifiers.now) (names_of identifiers.now) u firsts.old }
    ensures firsts { OnOk result (AreFirsts (layout_of identifiers.now) (names_of identifiers.now) (u + 1) firsts.new) }
    ensures number { IfOk result (λ n. IsLexical (layout_of identifiers.now) u →
        IsFirstOf (HasName (layout_of identifiers.now) (names_of identifiers.now) (names_of identifiers.now u)) (u + 1) n) }
    ensures below { IfOk result (λ n. n ≤ u) }
{
    if role_at(identifiers, u).is_lexical() {
        first_of(firsts, identifiers, u)
    } else {
        Ok(0)
    }
}

/// A number for the name of each identifier. Two names that are looked up have the same number exactly if they are equal.
pub(crate) fn numbers_of(
    alloc: Global,
    identifiers: &[Identifier],
) -> Result<Vec<usize>, AllocError>
    ensures apart { IfOk result (λ numbers. Distinguish (layout_of identifiers.now) (names_of identifiers.now) (length identifiers.now) numbers.items) }
    ensures below { IfOk result (λ numbers. AreBelow (length identifiers.now) numbers.items) }
{
    let mut firsts = IndexMap::with_capacity(alloc, name_room(identifiers))?;
    let mut numbers = list_as_long(alloc, identifiers)?;
    for u in 0..identifiers.len() {
        numbers.push(next_number(&mut firsts, identifiers, u)?)?;
    }
    Ok(numbers)
}

/// The number of an identifier's name.
pub(crate) fn number_at(numbers: &[usize], d: usize) -> usize
    ensures { result ≡ number_at numbers.now d }
{
    match numbers.get(d) {
        None => 0,
        Some(number) => *number,
    }
}
