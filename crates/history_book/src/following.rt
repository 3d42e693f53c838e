//! Makes the state after a change.
ghost use Rattle.std.specs.Prelude.{◌≡◌, IfOk, IsTrue};
ghost use Rattle.base_edits.specs.Inverse.{IsInverse};
ghost use Rattle.workspace_check.specs.Found.{KnowsVerdicts};
ghost use Rattle.build_carry.specs.Changes.{MarkChanges};
ghost use Rattle.build_carry.specs.Finished.{HasNoUnit};
ghost use Rattle.build_carry.specs.Carried.{IsCarried};
ghost use Rattle.history_book.specs.Following.{IsStateAfter};

use base_edits::WayBack;
use build_carry::{Finished, Marks, carried_units, kept, marks_of, nothing_carried};
use history_machine::{EntryEdits, State};
use std::alloc::{AllocError, Global};
use workspace_check::SharedKnown;
use workspace_graph::Graph;
use workspace_snapshot::MadeChange;

/// The finished units of a state, and what it knows of its packages, as far as a change to `files` carries them over. Units and findings of
/// marked packages are left out.
fn carried_by(
    alloc: Global,
    current: &State,
    files: &Graph,
    marks: &Marks,
) -> Result<(Finished, SharedKnown), AllocError>
    requires before { MarkChanges current.now.files files.now marks.now.before.items }
    requires after { MarkChanges files.now current.now.files marks.now.after.items }
    ensures units { IfOk result (λ carried. IsCarried current.now.files current.now.finished files.now carried.0) }
    ensures known { IfOk result (λ carried. KnowsVerdicts files.now carried.1) }
{
    let finished = carried_units(alloc, &current.files, &current.finished, files, marks)?;
    let known = kept(alloc, &current.files, &current.known, files, marks)?;
    Ok((finished, known))
}

/// Whether no package of a state is finished, and nothing is known of any.
fn has_nothing(current: &State) -> bool
    ensures { IsTrue result → HasNoUnit current.now.finished }
{
    if !current.finished.is_empty() {
        return false;
    }
    current.known.get().is_empty()
}

/// A table without finished units for `files`, where the state has none, and what stays known of the packages.
fn carried_bare(
    alloc: Global,
    current: &State,
    files: &Graph,
) -> Result<(Finished, SharedKnown), AllocError>
    requires { HasNoUnit current.now.finished }
    ensures units { IfOk result (λ carried. IsCarried current.now.files current.now.finished files.now carried.0) }
    ensures known { IfOk result (λ carried. KnowsVerdicts files.now carried.1) }
{
    nothing_carried(alloc, &current.finished, current.known.get(), files)
}

/// The finished units of a state, and what it knows of its packages, as far as a change carries them over. The folders that the edit set
/// names determine which packages are marked. Where nothing is finished and nothing known, none is marked.
fn carried_over(
    alloc: Global,
    current: &State,
    change: &MadeChange,
) -> Result<(Finished, SharedKnown), AllocError>
    requires { change.now.base ≡ current.now.files }
    ensures units { IfOk result (λ carried. IsCarried current.now.files current.now.finished change.now.files carried.0) }
    ensures known { IfOk result (λ carried. KnowsVerdicts change.now.files carried.1) }
{
    let files = &change.get().files;
    if has_nothing(current) {
        return carried_bare(alloc, current, files);
    }
    let marks = marks_of(alloc, &current.files, change)?;
    carried_by(alloc, current, files, &marks)
}

/// The state after a change, with this number, the change's edits, and what leads back to the state before.
pub(crate) fn state_after(
    alloc: Global,
    current: &State,
    number: u64,
    change: MadeChange,
) -> Result<(State, EntryEdits, WayBack), AllocError>
    requires { change.base ≡ current.now.files }
    ensures state { IfOk result (λ made. IsStateAfter current.now number change made.0) }
    ensures edits { IfOk result (λ made. made.1 ≡ change.edits) }
    ensures back { IfOk result (λ made. IsInverse made.2 made.0.files current.now.files) }
{
    let (finished, known) = carried_over(alloc, current, &change)?;
    let (change, back) = change.into_parts();
    let files = change.files;
    let edits = EntryEdits::new(alloc, change.edits)?;
    let state = State {
        number,
        files,
        finished,
        known,
    };
    Ok((state, edits, back))
}
