//! The cursor over inverses.
ghost use Rattle.std.specs.Prelude.{◌≡◌, ◌-◌, ◌≤◌, ◌++◌, ◌∷◌, [], length, IfErr, MatchOption, OnErr, OnOk};
ghost use Rattle.base_files.specs.declared.refusal.Refusal.TheVariants.{NothingToRedo, NothingToUndo};
ghost use Rattle.history_inverses.specs.Inverses.{HasSpare, IsLast, RefusesMove, StandsAt, StepsBack, StepsForth, latest};
ghost use Rattle.history_inverses.specs.Moves.{MovesBack, MovesForth};

use crate::rows::{retire_all, retire_farthest};
use base_edits::Inverse;
use base_files::{Files, Refusal};
use std::alloc::{AllocError, Global};
use std::marker::Model;

/// The inverses that lead from the current files to those of the states before and after, the nearest last, at most `depth` of them. Both
/// lists have room for all of them and for `spare` more, so that the cursor moves without memory. `close` ends it.
#[must_use]
pub struct History {
    behind: Vec<Inverse>,
    ahead: Vec<Inverse>,
    depth: usize,
    spare: usize,
}

impl Model for History {
    ghost use Rattle.std.specs.Prelude.{◌+◌, ◌≤◌, length, vec_capacity};
    ghost use Rattle.history_inverses.specs.Inverses.{Inverses};

    ghost Value = { Inverses };

    ghost view = { λ a. record { behind = a.behind.items; ahead = a.ahead.items; depth = a.depth; spare = a.spare } };

    ghost invariant = { λ a.
        (length a.behind.items + length a.ahead.items ≤ a.depth)
        × (length a.behind.items + length a.ahead.items + a.spare ≤ vec_capacity a.behind)
        × (length a.behind.items + length a.ahead.items + a.spare ≤ vec_capacity a.ahead) };
}

impl History {
    /// A history of one state, which keeps at most `depth` inverses.
    pub fn new(alloc: Global, depth: usize) -> History
        ensures { result ≡ record { behind = []; ahead = []; depth = depth; spare = 0 } }
    {
        History {
            behind: Vec::new(alloc),
            ahead: Vec::new(alloc),
            depth,
            spare: 0,
        }
    }

    /// Makes room for one inverse more, so that the next `push` takes no memory. For want of memory nothing changes.
    pub fn reserve(&mut self) -> Result<(), AllocError>
        ensures ok { OnOk result (HasSpare self.old self.new) }
        ensures err { OnErr result (self.new ≡ self.old) }
    {
        if self.spare > 0 {
            return Ok(());
        }
        let behind = self.behind.len();
        self.behind.reserve_exact(self.ahead.len() + 1)?;
        self.ahead.reserve_exact(behind + 1)?;
        self.spare = 1;
        Ok(())
    }

    /// Adds the inverse that leads back from the new files. The inverses ahead are retired, and the farthest where it lies beyond the depth.
    /// It takes no memory.
    pub fn push(&mut self, inverse: Inverse)
        requires { 1 ≤ self.old.spare }
        ensures { self.new ≡ record { behind = latest self.old.depth (self.old.behind ++ inverse ∷ []); ahead = []; depth = self.old.depth; spare = self.old.spare - 1 } }
    {
        retire_all(&mut self.ahead);
        self.behind.push_reserved(inverse);
        self.spare -= 1;
        retire_farthest(&mut self.behind, self.depth);
    }

    /// The inverse that leads to the files of the state before, if there is one.
    pub fn nearest_behind(&self) -> Option<&Inverse>
        ensures { MatchOption result (self.now.behind ≡ []) (λ way. IsLast self.now.behind way.now) }
    {
        self.behind.last()
    }

    /// The inverse that leads to the files of the state after, if there is one.
    pub fn nearest_ahead(&self) -> Option<&Inverse>
        ensures { MatchOption result (self.now.ahead ≡ []) (λ way. IsLast self.now.ahead way.now) }
    {
        self.ahead.last()
    }

    /// Moves the cursor over the nearest inverse behind, which is retired. `redo` leads forth again. It takes no memory.
    pub fn went_back(&mut self, redo: Inverse)
        requires { ¬ (self.old.behind ≡ []) }
        ensures { StepsBack self.old redo self.new }
    {
        let way = self.behind.pop().unwrap();
        way.retire();
        self.ahead.push_reserved(redo);
    }

    /// Moves the cursor over the nearest inverse ahead, which is retired. `undo` leads back again. It takes no memory.
    pub fn went_forth(&mut self, undo: Inverse)
        requires { ¬ (self.old.ahead ≡ []) }
        ensures { StepsForth self.old undo self.new }
    {
        let way = self.ahead.pop().unwrap();
        way.retire();
        self.behind.push_reserved(undo);
    }

    /// Restores the files of the state before, and moves the cursor there. Refused, it changes nothing, and the same undo can come again.
    pub fn undo(&mut self, files: &mut Files) -> Result<(), Refusal>
        requires { StandsAt self.old files.old }
        ensures done { OnOk result (MovesBack self.old files.old self.new files.new) }
        ensures refused { IfErr result (RefusesMove NothingToUndo self.old.behind) }
        ensures err { OnErr result (self.new ≡ self.old) }
        ensures files { OnErr result (files.new ≡ files.old) }
        ensures stands { StandsAt self.new files.new }
    {
        let Some(way) = self.nearest_behind() else {
            return Err(Refusal::NothingToUndo);
        };
        let prepared = way.prepare(files)?;
        let redo = prepared.commit(files);
        self.went_back(redo);
        Ok(())
    }

    /// Restores the files that the last undo left, and moves the cursor there. Refused, it changes nothing.
    pub fn redo(&mut self, files: &mut Files) -> Result<(), Refusal>
        requires { StandsAt self.old files.old }
        ensures done { OnOk result (MovesForth self.old files.old self.new files.new) }
        ensures refused { IfErr result (RefusesMove NothingToRedo self.old.ahead) }
        ensures err { OnErr result (self.new ≡ self.old) }
        ensures files { OnErr result (files.new ≡ files.old) }
        ensures stands { StandsAt self.new files.new }
    {
        let Some(way) = self.nearest_ahead() else {
            return Err(Refusal::NothingToRedo);
        };
        let prepared = way.prepare(files)?;
        let undo = prepared.commit(files);
        self.went_forth(undo);
        Ok(())
    }

    /// How many steps undo and redo can make.
    pub fn depth(&self) -> (usize, usize)
        ensures undo { result.0 ≡ length self.now.behind }
        ensures redo { result.1 ≡ length self.now.ahead }
    {
        (self.behind.len(), self.ahead.len())
    }

    /// Retires all inverses.
    pub fn close(self) {
        let History {
            behind,
            ahead,
            depth: _,
            spare: _,
        } = self;
        let mut behind = behind;
        let mut ahead = ahead;
        retire_all(&mut behind);
        retire_all(&mut ahead);
        behind.destroy_empty();
        ahead.destroy_empty();
    }
}
