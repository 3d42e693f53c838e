//! Plans over the files of a folder whose packages were checked.
ghost use Rattle.std.specs.Prelude.{◌≡◌, IfOk};
ghost use Rattle.refactor_affected.specs.Moves.{PlansAffectedMove};
ghost use Rattle.refactor_affected.specs.Renames.{PlansAffectedRename};
ghost use Rattle.refactor_preserve.specs.Planned.{change_in};
ghost use Rattle.refs_binding.specs.Uses.{AnswersUses};
ghost use Rattle.workspace_check.specs.FaultLists.{ListsFaults};

use base_files::{Files, Refusal};
use refactor_affected::{plan_move, plan_rename};
use refactor_preserve::Planned;
use refs_uses::{Places, uses};
use std::alloc::{AllocError, Global};
use std::marker::Model;
use std::thread::Threads;
use tool_threads::verdicts_together;
use workspace_check::{FileFault, Found, faults};
use workspace_snapshot::Snapshot;

/// The files of a folder, with what was found in all packages. Contracts see the snapshot of the files alone.
#[derive(Drop)]
pub struct CheckedFolder {
    snapshot: Snapshot,
    found: Found,
}

impl Model for CheckedFolder {
    ghost use Rattle.workspace_snapshot.specs.contracts.snapshot.Snapshot.{the_row};
    ghost use Rattle.workspace_snapshot.specs.declared.snapshot.Snapshot.{Snapshot};
    ghost use Rattle.workspace_check.specs.Found.{IsFound};

    ghost Value = { Snapshot };

    ghost coded = { the_row.coded };

    ghost view = { λ a. a.snapshot };

    ghost invariant = { λ a. IsFound a.snapshot.files a.found };
}

impl CheckedFolder {
    /// Checks the packages of all files, in several threads.
    pub fn of<R: Threads>(
        rt: &R,
        alloc: Global,
        snapshot: Snapshot,
    ) -> Result<CheckedFolder, AllocError>
        ensures { IfOk result (λ checked. checked ≡ snapshot) }
    {
        let found = verdicts_together(rt, alloc, &snapshot.files)?;
        Ok(CheckedFolder { snapshot, found })
    }

    /// The files.
    pub fn files(&self) -> &Files
        ensures { result.now ≡ self.now.files }
    {
        self.snapshot.files.files()
    }

    /// Plans a rename. Faults are asked of the packages that it affects.
    pub fn rename(
        &self,
        alloc: Global,
        path: &str,
        offset: usize,
        name: &str,
    ) -> Result<Planned, Refusal>
        ensures { PlansAffectedRename self.now path.now offset name.now (change_in result) }
    {
        plan_rename(alloc, &self.snapshot, &self.found, path, offset, name)
    }

    /// Plans a move. Faults are asked of the packages that it affects.
    pub fn move_package(&self, alloc: Global, from: &str, to: &str) -> Result<Planned, Refusal>
        ensures { PlansAffectedMove self.now from.now to.now (change_in result) }
    {
        plan_move(alloc, &self.snapshot, &self.found, from, to)
    }

    /// The uses of the declaration that the identifier at a byte is bound to.
    pub fn uses(&self, alloc: Global, path: &str, offset: usize) -> Result<Places, Refusal>
        ensures { AnswersUses self.now.files path.now offset result }
    {
        uses(
            alloc,
            &self.snapshot.files,
            &self.found.findings,
            path,
            offset,
        )
    }

    /// The faults of all packages.
    pub fn faults(&self, alloc: Global) -> Result<Vec<FileFault>, AllocError>
        ensures { IfOk result (λ list. ListsFaults self.now.files list.items) }
    {
        faults(alloc, &self.found.findings)
    }
}
