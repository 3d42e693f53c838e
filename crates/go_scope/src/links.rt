//! Links between the declarations of a name, made while the identifiers of a package are visited in order.
ghost use Rattle.std.specs.Prelude.{ℕ, List, ◌≡◌, ◌<◌, ◌+◌, ◌↔◌, ◌∷◌, [], length, IsTrue, IfOk, OnOk};
ghost use Rattle.go_scope.specs.Leading.{IsLead, IsLeadInside};
ghost use Rattle.go_scope.specs.Numbering.{numerals, AreBelow};
ghost use Rattle.go_scope.specs.OpenBlocks.{AreLasts, AreNameLinks, IsLastOpen, IsVisibleInside};
ghost use Rattle.go_scope.specs.OuterBlocks.{AreOuter};
ghost use Rattle.go_scope.specs.Table.{IsNearest, layout_of};
ghost use Rattle.go_scope.specs.WellFormed.{IsLaidOut};

use crate::capacity::name_room;
use crate::inner_blocks::{last_open, nearest_inside};
use crate::model::Identifier;
use crate::numbering::number_at;
use crate::outer_blocks::OuterName;
use crate::resolve::role_at;
use base_files::list_as_long;
use indexmap::IndexMap;
use std::alloc::{AllocError, Global};

/// The links of the identifiers visited so far. `outer` maps a name and a block that is no inner one to the first declaration there.
///
/// `last` gives, for each name's number, its last declaration in an inner block that has not ended.
///
/// `around` gives, for a declaration that is the first of its name in its inner block, the one before it in an inner block. For another
/// identifier it gives the nearest declaration of its name in an inner block with the identifier in its scope.
#[derive(Drop)]
pub struct Links {
    pub outer: IndexMap<OuterName, usize>,
    pub last: Vec<Option<usize>>,
    pub around: Vec<Option<usize>>,
}

impl Links {
    /// The links before any identifier is visited.
    pub(crate) fn new(alloc: Global, identifiers: &[Identifier]) -> Result<Links, AllocError>
        ensures { IfOk result (λ links. (numbers : List ℕ) → AreNameLinks identifiers.now numbers 0 links) }
    {
        let outer = IndexMap::with_capacity(alloc, name_room(identifiers))?;
        let last = vec![in alloc; None; identifiers.len()]?;
        let around = list_as_long(alloc, identifiers)?;
        Ok(Links {
            outer,
            last,
            around,
        })
    }

    /// Removes, for the name of u, the declarations whose blocks have ended, back to the last one whose block has not.
    pub(crate) fn close(&mut self, identifiers: &[Identifier], names: &[usize], u: usize)
        requires in_range { u < length identifiers.now }
        requires laid_out { IsLaidOut (layout_of identifiers.now) (length identifiers.now) }
        requires numbered { AreBelow (length identifiers.now) names.now }
        requires linked { AreNameLinks identifiers.now names.now u self.old }
        ensures { AreNameLinks identifiers.now names.now u self.new }
    {
        let last = last_open(identifiers, names, self, u);
        self.last[number_at(names, u)] = last;
    }

    /// Enters d as the first declaration of its name in its block. Returns the declaration before it in an inner block.
    fn lead(
        &mut self,
        identifiers: &[Identifier],
        names: &[usize],
        d: usize,
    ) -> Result<Option<usize>, AllocError>
        requires in_range { d < length identifiers.now }
        requires numbered { AreBelow (length identifiers.now) names.now }
        requires leads { IsLead (layout_of identifiers.now) (numerals names.now) d }
        requires linked { AreNameLinks identifiers.now names.now d self.old }
        ensures outer { OnOk result (AreOuter (layout_of identifiers.now) (numerals names.now) (d + 1) self.new.outer) }
        ensures lasts { OnOk result (AreLasts (layout_of identifiers.now) (length identifiers.now) (numerals names.now) (d + 1) self.new.last.items) }
        ensures before { let l = layout_of identifiers.now in
            IfOk result (λ before. IsLeadInside l (numerals names.now) (numerals names.now d) d →
            IsLastOpen l (length identifiers.now) (numerals names.now) (numerals names.now d) d before) }
        ensures around { self.new.around ≡ self.old.around }
    {
        let name = number_at(names, d);
        match role_at(identifiers, d).block().outer() {
            None => {
                let before = self.last[name];
                self.last[name] = Some(d);
                Ok(before)
            }
            Some(block) => {
                self.outer.insert(OuterName { name, block }, d)?;
                Ok(None)
            }
        }
    }

    /// Enters d if it is the first declaration of its name in its block (`leads`). Returns the declaration to which d links.
    fn place(
        &mut self,
        identifiers: &[Identifier],
        names: &[usize],
        d: usize,
        leads: bool,
    ) -> Result<Option<usize>, AllocError>
        requires in_range { d < length identifiers.now }
        requires laid_out { IsLaidOut (layout_of identifiers.now) (length identifiers.now) }
        requires numbered { AreBelow (length identifiers.now) names.now }
        requires leading { IsTrue leads ↔ IsLead (layout_of identifiers.now) (numerals names.now) d }
        requires linked { AreNameLinks identifiers.now names.now d self.old }
        ensures outer { OnOk result (AreOuter (layout_of identifiers.now) (numerals names.now) (d + 1) self.new.outer) }
        ensures lasts { OnOk result (AreLasts (layout_of identifiers.now) (length identifiers.now) (numerals names.now) (d + 1) self.new.last.items) }
        ensures before { let l = layout_of identifiers.now in
            IfOk result (λ before. IsLeadInside l (numerals names.now) (numerals names.now d) d →
            IsLastOpen l (length identifiers.now) (numerals names.now) (numerals names.now d) d before) }
        ensures near { let l = layout_of identifiers.now in
            IfOk result (λ near. (IsLead l (numerals names.now) d → ⊥) → IsNearest l (IsVisibleInside l (numerals names.now) (numerals names.now d) d) near) }
        ensures around { self.new.around ≡ self.old.around }
    {
        if leads {
            self.lead(identifiers, names, d)
        } else {
            Ok(nearest_inside(identifiers, names, self, d))
        }
    }

    /// Visits identifier d, the next one, and links it.
    pub(crate) fn link(
        &mut self,
        identifiers: &[Identifier],
        names: &[usize],
        d: usize,
        leads: bool,
    ) -> Result<(), AllocError>
        requires in_range { d < length identifiers.now }
        requires laid_out { IsLaidOut (layout_of identifiers.now) (length identifiers.now) }
        requires numbered { AreBelow (length identifiers.now) names.now }
        requires leading { IsTrue leads ↔ IsLead (layout_of identifiers.now) (numerals names.now) d }
        requires linked { AreNameLinks identifiers.now names.now d self.old }
        ensures { OnOk result (AreNameLinks identifiers.now names.now (d + 1) self.new) }
    {
        let next = self.place(identifiers, names, d, leads)?;
        self.around.push(next)?;
        Ok(())
    }
}
