//! Separates what the judgement of a file notes: its uses of members, and its entries of values into interfaces.
ghost use Rattle.std.specs.Prelude.{◌≡◌, ◌∷◌, ◌++◌, [], IfOk, OnOk, map};
ghost use Rattle.types_expr.specs.Found.{noted_of, plain_entering, use_of};
ghost use Rattle.types_expr.specs.Judge.{enterings_of, members_of};

use std::alloc::{AllocError, Global};
use types_expr::found::{Entering, MemberUse, Noted};

/// What was noted, by kind.
#[derive(Drop)]
pub(crate) struct Notes {
    pub(crate) members: Vec<MemberUse>,
    pub(crate) enterings: Vec<Entering>,
}

impl Notes {
    /// Adds one note.
    #[tactic(auto, unfolding(types_expr::specs::Found::noted_of))]
    fn add(&mut self, note: Noted) -> Result<(), AllocError>
        ensures members { OnOk result (map use_of self.new.members.items ≡ map use_of self.old.members.items ++ members_of (noted_of note ∷ [])) }
        ensures enterings { OnOk result (map plain_entering self.new.enterings.items ≡ map plain_entering self.old.enterings.items ++ enterings_of (noted_of note ∷ [])) }
    {
        match note {
            Noted::Member(one) => self.members.push(one)?,
            Noted::Entering(one) => self.enterings.push(one)?,
        }
        Ok(())
    }

    /// Separates these notes by kind.
    pub(crate) fn of(alloc: Global, noted: Vec<Noted>) -> Result<Notes, AllocError>
        ensures members { IfOk result (λ notes. map use_of notes.members.items ≡ members_of (map noted_of noted.items)) }
        ensures enterings { IfOk result (λ notes. map plain_entering notes.enterings.items ≡ enterings_of (map noted_of noted.items)) }
    {
        let mut notes = Notes {
            members: Vec::new(alloc),
            enterings: Vec::new(alloc),
        };
        for note in noted {
            notes.add(note)?;
        }
        Ok(notes)
    }
}
