//! The table of finished packages of a workspace, with their units.
ghost use Rattle.std.specs.Prelude.{◌≡◌, ◌<◌, ◌≤◌, ◌↔◌, [], IfOk, IsTrue, MatchOption, Some, length, slice_get, slice_set};
ghost use Rattle.build_unit.specs.declared.unit.Unit.{Unit as PackageUnit};
ghost use Rattle.build_carry.specs.Finished.{AreFinishedBelow, HasNoUnit};

use base_chunks::SharedList;
use build_unit::Unit;
use std::alloc::{AllocError, Global};
use std::marker::Model;
use std::sync::Arc;

/// The finished packages of a workspace: for each package, by its number, its unit if it is finished. It keeps a number below which each
/// package is finished (`front`), and whether no package is. A clone shares the table. A table that gains one unit shares all but a chunk
/// of it.
pub struct Finished {
    units: Arc<SharedList<Option<Unit>>, Global>,
    front: usize,
    is_empty: bool,
}

/// Written out, so that crates above call it and need not prove again how each part is dropped.
impl Drop for Finished {
    fn drop(self) {
        let Finished {
            units,
            front: _,
            is_empty: _,
        } = self;
        drop(units);
    }
}

impl Model for Finished {
    ghost use Rattle.std.specs.Prelude.{List, Option};
    ghost use Rattle.std.specs.Arc.{arc_value};
    ghost use Rattle.std.specs.Coded.{codes};
    ghost use Rattle.build_unit.specs.Codes.{unit_code};
    ghost use Rattle.build_unit.specs.declared.unit.Unit.{Unit as PackageUnit};
    ghost use Rattle.std.specs.Prelude.{◌↔◌, IsTrue};
    ghost use Rattle.build_carry.specs.Finished.{AreFinishedBelow, HasNoUnit};

    ghost Value = { List (Option PackageUnit) };

    ghost coded = { Prim.hlevel (codes, unit_code) };

    ghost view = { λ a. arc_value a.units };

    ghost invariant = { λ a. AreFinishedBelow (arc_value a.units) a.front × (IsTrue a.is_empty ↔ HasNoUnit (arc_value a.units)) };
}

/// The unit of a package, if it is finished.
fn unit_at(units: &SharedList<Option<Unit>>, number: usize) -> Option<&Unit>
    ensures { MatchOption result ((unit : PackageUnit) → slice_get units.now number ≡ Some (Some unit) → ⊥) (λ unit. slice_get units.now number ≡ Some (Some unit.now)) }
{
    match units.get(number) {
        Some(unit) => unit.as_ref(),
        None => None,
    }
}

/// The first unfinished number from `least` on, or the number of packages. Each package below `least` must be finished.
fn front_from(units: &SharedList<Option<Unit>>, least: usize) -> usize
    requires { AreFinishedBelow units.now least }
    ensures { AreFinishedBelow units.now result }
{
    for number in least..units.len() {
        let Some(_) = unit_at(units, number) else {
            return number;
        };
    }
    units.len().max(least)
}

/// Whether the package `number` is finished.
fn has_unit(units: &SharedList<Option<Unit>>, number: usize) -> bool
    ensures { IsTrue result ↔ ((unit : PackageUnit) × (slice_get units.now number ≡ Some (Some unit))) }
{
    match unit_at(units, number) {
        Some(_) => true,
        None => false,
    }
}

/// Whether no package is finished.
fn has_none(units: &SharedList<Option<Unit>>) -> bool
    ensures { IsTrue result ↔ HasNoUnit units.now }
{
    for number in 0..units.len() {
        if has_unit(units, number) {
            return false;
        }
    }
    true
}

/// A copy of a list without units, which shares its places, or an empty list where it has more than `count` places.
fn unit_places(
    alloc: Global,
    units: &SharedList<Option<Unit>>,
    count: usize,
) -> Result<SharedList<Option<Unit>>, AllocError>
    requires { HasNoUnit units.now }
    ensures size { IfOk result (λ first. length first ≤ count) }
    ensures none { IfOk result HasNoUnit }
{
    if units.len() > count {
        return Ok(SharedList::new(alloc));
    }
    units.copy()
}

/// Makes a list of `count` places without a unit. It shares the places of `units` where these are no more than `count`.
fn unfinished_units(
    alloc: Global,
    units: &SharedList<Option<Unit>>,
    count: usize,
) -> Result<SharedList<Option<Unit>>, AllocError>
    requires { HasNoUnit units.now }
    ensures size { IfOk result (λ all. length all ≡ count) }
    ensures none { IfOk result HasNoUnit }
{
    let mut all = unit_places(alloc, units, count)?;
    for _number in all.len()..count {
        all.push(None)?;
    }
    Ok(all)
}

impl Finished {
    /// The table of a workspace without packages.
    pub fn new(alloc: Global) -> Result<Finished, AllocError>
        ensures { IfOk result (λ table. table ≡ []) }
    {
        Finished::of(alloc, SharedList::new(alloc))
    }

    /// The table of these units, by the numbers of their packages.
    pub fn of(alloc: Global, units: SharedList<Option<Unit>>) -> Result<Finished, AllocError>
        ensures { IfOk result (λ table. table ≡ units) }
    {
        let front = front_from(&units, 0);
        let is_empty = has_none(&units);
        Finished::shared(alloc, units, front, is_empty)
    }

    /// Shares a table whose `front` and emptiness are known.
    fn shared(
        alloc: Global,
        units: SharedList<Option<Unit>>,
        front: usize,
        is_empty: bool,
    ) -> Result<Finished, AllocError>
        requires front { AreFinishedBelow units front }
        requires empty { IsTrue is_empty ↔ HasNoUnit units }
        ensures { IfOk result (λ table. table ≡ units) }
    {
        let units = Arc::new(alloc, units)?;
        Ok(Finished {
            units,
            front,
            is_empty,
        })
    }

    /// The unit of the package `number`, if it is finished.
    pub fn get(&self, number: usize) -> Option<&Unit>
        ensures { MatchOption result ((unit : PackageUnit) → slice_get self.now number ≡ Some (Some unit) → ⊥) (λ unit. slice_get self.now number ≡ Some (Some unit.now)) }
    {
        unit_at(&self.units, number)
    }

    /// A number below which each package is finished. A search for an unfinished package may begin there.
    pub fn front(&self) -> usize
        ensures { AreFinishedBelow self.now result }
    {
        self.front
    }

    /// Whether no package is finished.
    pub fn is_empty(&self) -> bool
        ensures { IsTrue result ↔ HasNoUnit self.now }
    {
        self.is_empty
    }

    /// Makes a table of `count` packages, none of which is finished. This table has no unit either. It is shared where it has `count`
    /// places, and extended where it has fewer.
    pub fn unfinished(&self, alloc: Global, count: usize) -> Result<Finished, AllocError>
        requires { HasNoUnit self.now }
        ensures size { IfOk result (λ table. length table ≡ count) }
        ensures none { IfOk result HasNoUnit }
    {
        if self.units.len() == count {
            let shared = self.clone()?;
            return Ok(shared);
        }
        let units = unfinished_units(alloc, &self.units, count)?;
        Finished::shared(alloc, units, 0, true)
    }

    /// Makes the table in which the package `number` has become finished, with this unit.
    pub fn with_unit(
        &self,
        alloc: Global,
        number: usize,
        unit: Unit,
    ) -> Result<Finished, AllocError>
        requires { number < length self.now }
        ensures { IfOk result (λ table. table ≡ slice_set self.now number (Some unit)) }
    {
        let mut units = self.units.copy()?;
        units.set(number, Some(unit))?;
        let front = front_from(&units, self.front);
        Finished::shared(alloc, units, front, false)
    }
}

impl Clone for Finished {
    ghost is_clone = { λ table copy. copy ≡ table };

    fn clone(&self) -> Result<Finished, AllocError> {
        let units = Arc::try_clone(&self.units)?;
        Ok(Finished {
            units,
            front: self.front,
            is_empty: self.is_empty,
        })
    }
}
