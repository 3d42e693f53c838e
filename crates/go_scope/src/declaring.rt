//! Finds which identifiers of a package declare, in one pass in their order.
ghost use Rattle.std.specs.Prelude.{ℕ, List, ◌≡◌, ◌<◌, ◌+◌, ◌↔◌, length, IsTrue, IfOk, OnOk};
ghost use Rattle.std.specs.Option.{ForSome};
ghost use Rattle.go_scope.specs.Bindings.{Declares, MayDeclare};
ghost use Rattle.go_scope.specs.Contents.{AreDeclared, AreDeclaredUpTo};
ghost use Rattle.go_scope.specs.Leading.{IsInScopeOf, IsPrior, IsLead};
ghost use Rattle.go_scope.specs.Numbering.{numerals, AreBelow};
ghost use Rattle.go_scope.specs.OpenBlocks.{AreNameLinks};
ghost use Rattle.go_scope.specs.Table.{layout_of};
ghost use Rattle.go_scope.specs.WellFormed.{IsLaidOut, WellFormed};

use crate::inner_blocks::first_inside;
use crate::links::Links;
use crate::model::Identifier;
use crate::numbering::number_at;
use crate::outer_blocks::first_outside;
use crate::resolve::{in_scope, role_at};
use base_files::list_as_long;
use std::alloc::{AllocError, Global};

/// For each identifier: its links, whether it declares, and whether it is the first declaration of its name in its block.
#[derive(Drop)]
pub struct DeclaredIn {
    pub links: Links,
    pub declaring: Vec<bool>,
    pub leading: Vec<bool>,
}

/// Whether an identifier declares, and whether it is the first declaration of its name in its block.
#[derive(Clone, Copy)]
struct DeclareFlags {
    declares: bool,
    leads: bool,
}

/// The first declaration of d's name in d's block, among the identifiers before d.
fn leader(identifiers: &[Identifier], names: &[usize], links: &Links, d: usize) -> Option<usize>
    requires in_range { d < length identifiers.now }
    requires laid_out { IsLaidOut (layout_of identifiers.now) (length identifiers.now) }
    requires numbered { AreBelow (length identifiers.now) names.now }
    requires may_declare { MayDeclare (layout_of identifiers.now) d }
    requires linked { AreNameLinks identifiers.now names.now d links.now }
    ensures { IsPrior (layout_of identifiers.now) (numerals names.now) d result }
{
    match role_at(identifiers, d).block().outer() {
        None => first_inside(identifiers, names, links, d),
        Some(block) => first_outside(&links.outer, number_at(names, d), block),
    }
}

/// Whether the position of u is in the scope of d, if there is such a declaration.
fn holds(identifiers: &[Identifier], d: Option<usize>, u: usize) -> bool
    requires first { ForSome d (λ e. e < length identifiers.now) }
    requires second { u < length identifiers.now }
    ensures { IsTrue result ↔ IsInScopeOf (layout_of identifiers.now) d u }
{
    match d {
        None => false,
        Some(e) => in_scope(identifiers, e, u),
    }
}

/// Whether d, which may declare, does so, given the first declaration of its name in its block before it.
fn declares(identifiers: &[Identifier], names: &[usize], leader: Option<usize>, d: usize) -> bool
    requires in_range { d < length identifiers.now }
    requires well_formed { WellFormed (layout_of identifiers.now) }
    requires may_declare { MayDeclare (layout_of identifiers.now) d }
    requires leader { IsPrior (layout_of identifiers.now) (numerals names.now) d leader }
    ensures { IsTrue result ↔ Declares (layout_of identifiers.now) (numerals names.now) d }
{
    !role_at(identifiers, d).is_left_name() || !holds(identifiers, leader, d)
}

/// Whether d, which may declare, does so and is first, given the first declaration of its name in its block before it.
fn flags_after(
    identifiers: &[Identifier],
    names: &[usize],
    leader: Option<usize>,
    d: usize,
) -> DeclareFlags
    requires in_range { d < length identifiers.now }
    requires well_formed { WellFormed (layout_of identifiers.now) }
    requires may_declare { MayDeclare (layout_of identifiers.now) d }
    requires leader { IsPrior (layout_of identifiers.now) (numerals names.now) d leader }
    ensures declares { IsTrue result.declares ↔ Declares (layout_of identifiers.now) (numerals names.now) d }
    ensures leads { IsTrue result.leads ↔ IsLead (layout_of identifiers.now) (numerals names.now) d }
{
    let declares = declares(identifiers, names, leader, d);
    match leader {
        None => DeclareFlags {
            declares,
            leads: declares,
        },
        Some(_) => DeclareFlags {
            declares,
            leads: false,
        },
    }
}

/// Whether d declares, and whether it is first, given the links of the identifiers before it.
fn flags_of(identifiers: &[Identifier], names: &[usize], links: &Links, d: usize) -> DeclareFlags
    requires in_range { d < length identifiers.now }
    requires laid_out { IsLaidOut (layout_of identifiers.now) (length identifiers.now) }
    requires numbered { AreBelow (length identifiers.now) names.now }
    requires linked { AreNameLinks identifiers.now names.now d links.now }
    ensures declares { IsTrue result.declares ↔ Declares (layout_of identifiers.now) (numerals names.now) d }
    ensures leads { IsTrue result.leads ↔ IsLead (layout_of identifiers.now) (numerals names.now) d }
{
    if role_at(identifiers, d).may_declare() {
        let leader = leader(identifiers, names, links, d);
        flags_after(identifiers, names, leader, d)
    } else {
        DeclareFlags {
            declares: false,
            leads: false,
        }
    }
}

impl DeclaredIn {
    /// No identifiers yet, with room for all of them.
    fn new(alloc: Global, identifiers: &[Identifier]) -> Result<DeclaredIn, AllocError>
        ensures { IfOk result (λ declared. (numbers : List ℕ) → AreDeclaredUpTo identifiers.now numbers 0 declared) }
    {
        let links = Links::new(alloc, identifiers)?;
        let declaring = list_as_long(alloc, identifiers)?;
        let leading = list_as_long(alloc, identifiers)?;
        Ok(DeclaredIn {
            links,
            declaring,
            leading,
        })
    }

    /// Adds identifier d, the next one.
    fn add(
        &mut self,
        identifiers: &[Identifier],
        names: &[usize],
        d: usize,
    ) -> Result<(), AllocError>
        requires in_range { d < length identifiers.now }
        requires laid_out { IsLaidOut (layout_of identifiers.now) (length identifiers.now) }
        requires numbered { AreBelow (length identifiers.now) names.now }
        requires first { AreDeclaredUpTo identifiers.now names.now d self.old }
        ensures { OnOk result (AreDeclaredUpTo identifiers.now names.now (d + 1) self.new) }
    {
        self.links.close(identifiers, names, d);
        let standing = flags_of(identifiers, names, &self.links, d);
        self.links.link(identifiers, names, d, standing.leads)?;
        self.declaring.push(standing.declares)?;
        self.leading.push(standing.leads)?;
        Ok(())
    }
}

/// Which of the identifiers declare. `names` gives the number of each identifier's name.
pub(crate) fn declared_of(
    alloc: Global,
    identifiers: &[Identifier],
    names: &[usize],
) -> Result<DeclaredIn, AllocError>
    requires laid_out { IsLaidOut (layout_of identifiers.now) (length identifiers.now) }
    requires numbered { AreBelow (length identifiers.now) names.now }
    ensures { IfOk result (λ declared. AreDeclared identifiers.now names.now declared) }
{
    let mut declared = DeclaredIn::new(alloc, identifiers)?;
    for d in 0..identifiers.len() {
        declared.add(identifiers, names, d)?;
    }
    Ok(declared)
}
