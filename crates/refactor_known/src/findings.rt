//! Findings of packages after a move.
ghost use Rattle.std.specs.Prelude.{◌≡◌, IfOk, IfSome, map, option_map};
ghost use Rattle.types_expr.specs.Found.{plain_entering, use_of};
ghost use Rattle.types_info.specs.MemberUses.{enterings_in, uses_in};
ghost use Rattle.law_changed_types.specs.Moved.{moved_entering, moved_symbol, moved_use};
ghost use Rattle.refactor_known.specs.MovedKnown.{IsMovedFinding, listed, moved_listed};
ghost use Rattle.refactor_known.specs.Swaps.{map_of};

use crate::swap::Swap;
use std::alloc::{AllocError, Global};
use types_expr::found::{Entering, MemberUse};
use types_expr::symbol::Symbol;
use types_info::Qualified;
use workspace_check::Finding;

impl Swap {
    /// The symbol after the move, if there is one.
    fn symbol_if(
        &self,
        alloc: Global,
        symbol: &Option<Symbol>,
    ) -> Result<Option<Symbol>, AllocError>
        ensures { IfOk result (λ moved. moved ≡ option_map (moved_symbol (map_of self.now)) symbol.now) }
    {
        match symbol {
            None => Ok(None),
            Some(symbol) => Ok(Some(self.symbol(alloc, symbol)?)),
        }
    }

    /// A use of a member after the move.
    fn member_use(&self, alloc: Global, one: &MemberUse) -> Result<MemberUse, AllocError>
        ensures { IfOk result (λ moved. use_of moved ≡ moved_use (map_of self.now) (use_of one.now)) }
    {
        let before = self.go_type(alloc, &one.before)?;
        let member = self.symbol_if(alloc, &one.member)?;
        Ok(MemberUse {
            place: one.place,
            before,
            member,
        })
    }

    /// The uses of members in a file after the move.
    fn uses(&self, alloc: Global, uses: &[MemberUse]) -> Result<Vec<MemberUse>, AllocError>
        ensures { IfOk result (λ moved. map use_of moved.items ≡ map (moved_use (map_of self.now)) (map use_of uses.now)) }
    {
        let mut moved = Vec::with_capacity(alloc, uses.len())?;
        for one in uses {
            moved.push(self.member_use(alloc, one)?)?;
        }
        Ok(moved)
    }

    /// The uses of members in all files of a package after the move.
    fn members(
        &self,
        alloc: Global,
        members: &[Vec<MemberUse>],
    ) -> Result<Vec<Vec<MemberUse>>, AllocError>
        ensures { IfOk result (λ moved. map uses_in moved.items ≡ map (map (moved_use (map_of self.now))) (map uses_in members.now)) }
    {
        let mut moved = Vec::with_capacity(alloc, members.len())?;
        for uses in members {
            moved.push(self.uses(alloc, uses)?)?;
        }
        Ok(moved)
    }

    /// An entry of a value into an interface after the move.
    fn entering(&self, alloc: Global, one: &Entering) -> Result<Entering, AllocError>
        ensures { IfOk result (λ moved. plain_entering moved ≡ moved_entering (map_of self.now) (plain_entering one.now)) }
    {
        Ok(Entering {
            place: one.place,
            own: self.go_type(alloc, &one.own)?,
        })
    }

    /// The entries of a file after the move.
    fn file_enterings(
        &self,
        alloc: Global,
        enterings: &[Entering],
    ) -> Result<Vec<Entering>, AllocError>
        ensures { IfOk result (λ moved. map plain_entering moved.items ≡ map (moved_entering (map_of self.now)) (map plain_entering enterings.now)) }
    {
        let mut moved = Vec::with_capacity(alloc, enterings.len())?;
        for one in enterings {
            moved.push(self.entering(alloc, one)?)?;
        }
        Ok(moved)
    }

    /// The entries of all files of a package after the move.
    fn enterings(
        &self,
        alloc: Global,
        lists: &[Vec<Entering>],
    ) -> Result<Vec<Vec<Entering>>, AllocError>
        ensures { IfOk result (λ moved. map enterings_in moved.items ≡ map (map (moved_entering (map_of self.now))) (map enterings_in lists.now)) }
    {
        let mut moved = Vec::with_capacity(alloc, lists.len())?;
        for list in lists {
            moved.push(self.file_enterings(alloc, list)?)?;
        }
        Ok(moved)
    }

    /// The qualified identifiers under an import after the move.
    fn qualified_by(&self, alloc: Global, list: &Qualified) -> Result<Qualified, AllocError>
        ensures { IfOk result (λ moved. listed moved ≡ moved_listed (map_of self.now) (listed list.now)) }
    {
        let path = self.bytes(alloc, &list.path)?;
        let places = Vec::from_slice(alloc, &list.places)?;
        Ok(Qualified { path, places })
    }

    /// The qualified identifiers of a package after the move.
    fn qualified(&self, alloc: Global, lists: &[Qualified]) -> Result<Vec<Qualified>, AllocError>
        ensures { IfOk result (λ moved. map listed moved.items ≡ map (moved_listed (map_of self.now)) (map listed lists.now)) }
    {
        let mut moved = Vec::with_capacity(alloc, lists.len())?;
        for list in lists {
            moved.push(self.qualified_by(alloc, list)?)?;
        }
        Ok(moved)
    }

    /// The finding of a package after the move, or `None` if it has a fault.
    pub fn finding(&self, alloc: Global, finding: &Finding) -> Result<Option<Finding>, AllocError>
        ensures { IfOk result (λ found. IfSome found (λ moved. IsMovedFinding (map_of self.now) finding.now moved)) }
    {
        if !finding.faults.is_empty() {
            return Ok(None);
        }
        let path = self.path(alloc, &finding.path)?;
        let members = self.members(alloc, &finding.members)?;
        let enterings = self.enterings(alloc, &finding.enterings)?;
        let qualified = self.qualified(alloc, &finding.qualified)?;
        Ok(Some(Finding {
            path,
            faults: Vec::new(alloc),
            members,
            enterings,
            qualified,
        }))
    }
}
