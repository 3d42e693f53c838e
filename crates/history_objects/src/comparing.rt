//! Compares the objects of packages with those of another state of the history: which are equal, which differ, and which are missing.
ghost use Rattle.std.specs.Prelude.{◌≡◌, ◌<◌, ◌↔◌, IfOk, IsTrue, MatchOption, length, option_copied};
ghost use Rattle.base_files.specs.Packages.{package_paths};
ghost use Rattle.workspace_graph.specs.Graphs.{OfPackage};
ghost use Rattle.history_machine.specs.declared.seen_state.SeenState.{SeenState};
ghost use Rattle.history_objects.specs.ComparedObjects.{
  ComparesObjects,
  ComparesWith,
  FindsObjectAt,
  FindsObjectIn,
  HasChange,
  IsComparedObject,
  IsStateNumbered,
};

use base_files::{FileText, Refusal};
use build_carry::Finished;
use build_unit::SharedPath;
use history_machine::{SeenState, View};
use std::alloc::{AllocError, Global};
use std::marker::Model;

/// How the object of a package compares with that in another state.
#[derive(Clone, Copy, Debug, PartialEq, Eq)]
pub enum ObjectChange {
    /// Both states have an object of the package, with the same text.
    Equal,
    /// The package has an object, and the other state has none of it, or another.
    Differs,
    /// The package has no object: it is not finished, or it has faults.
    Missing,
}

/// A package, and how its object compares with that in another state.
#[derive(Drop)]
pub struct ComparedObject {
    pub package: SharedPath,
    pub change: ObjectChange,
}

/// Packages, each with how its object compares with that in another state.
#[derive(Drop)]
pub struct ComparedObjects {
    items: Vec<ComparedObject>,
}

impl Model for ComparedObjects {
    ghost use Rattle.std.specs.Prelude.{List};
    ghost use Rattle.history_objects.specs.declared.comparing.ComparedObject.{ComparedObject};

    ghost Value = { List ComparedObject };

    ghost view = { λ a. a.items.items };
}

impl ComparedObjects {
    /// The packages, in the order of their paths.
    pub fn as_slice(&self) -> &[ComparedObject]
        ensures { result.now ≡ self.now }
    {
        self.items.as_slice()
    }
}

/// The object of the package of a number, if it is finished and has no faults.
fn object_at(finished: &Finished, number: usize) -> Option<&FileText>
    ensures { FindsObjectAt finished.now number (option_copied result) }
{
    let Some(unit) = finished.get(number) else {
        return None;
    };
    match unit.result() {
        Ok(text) => Some(text),
        Err(_) => None,
    }
}

/// The object of the package at a path in a state, if there is one, and it is finished and has no faults.
fn object_of<'a>(state: &'a SeenState, path: &[u8]) -> Option<&'a FileText>
    ensures { FindsObjectIn state.now.packages state.now.finished path.now (option_copied result) }
{
    match state.packages.number_of(path) {
        None => None,
        Some(number) => object_at(&state.finished, number),
    }
}

/// Whether both texts have the same bytes.
fn is_same_text(one: &FileText, other: &FileText) -> bool
    ensures { IsTrue result ↔ (one.now ≡ other.now) }
{
    *one == *other
}

/// How the object of the package of a number compares with that in the state `before`.
fn change_at(before: &SeenState, view: &View, number: usize) -> ObjectChange
    requires { number < length (package_paths view.now.snapshot.files) }
    ensures { OfPackage view.now.snapshot.files number (λ p. HasChange before.now view.now p result) }
{
    let Some(text) = object_at(&view.finished, number) else {
        return ObjectChange::Missing;
    };
    match object_of(before, &view.snapshot.files().package(number).path) {
        None => ObjectChange::Differs,
        Some(old) => {
            if is_same_text(old, text) {
                ObjectChange::Equal
            } else {
                ObjectChange::Differs
            }
        }
    }
}

/// The package of a number, and how its object compares with that in the state `before`.
fn compared_at(
    alloc: Global,
    before: &SeenState,
    view: &View,
    number: usize,
) -> Result<ComparedObject, AllocError>
    requires { number < length (package_paths view.now.snapshot.files) }
    ensures { IfOk result (λ one. OfPackage view.now.snapshot.files number (λ p. IsComparedObject before.now view.now p one)) }
{
    let package = SharedPath::new(alloc, &view.snapshot.files().package(number).path)?;
    let change = change_at(before, view, number);
    Ok(ComparedObject { package, change })
}

/// All packages of a view, each with how its object compares with that in the state `before`.
fn compared(alloc: Global, before: &SeenState, view: &View) -> Result<ComparedObjects, AllocError>
    ensures { IfOk result (λ list. ComparesObjects before.now view.now list) }
{
    let mut items = Vec::new(alloc);
    for number in 0..view.snapshot.files().len() {
        items.push(compared_at(alloc, before, view, number)?)?;
    }
    Ok(ComparedObjects { items })
}

/// Whether the state has this number.
fn has_number(state: &SeenState, number: u64) -> bool
    ensures { IsTrue result ↔ (state.now.number ≡ number) }
{
    state.number == number
}

/// The state of a number among some states.
fn state_numbered(states: &[SeenState], number: u64) -> Option<&SeenState>
    ensures { MatchOption result ((s : SeenState) → IsStateNumbered states.now number s → ⊥) (λ s. IsStateNumbered states.now number s.now) }
{
    for state in states {
        if has_number(state, number) {
            return Some(state);
        }
    }
    None
}

/// The objects of all packages of a view, compared with those of the state of a number among these states. Refuses with `Moved` where none
/// has it.
pub fn compare_objects(
    alloc: Global,
    states: &[SeenState],
    view: &View,
    basis: u64,
) -> Result<ComparedObjects, Refusal>
    ensures { ComparesWith states.now view.now basis result }
{
    let Some(before) = state_numbered(states, basis) else {
        return Err(Refusal::Moved {
            current: view.snapshot.number(),
        });
    };
    match compared(alloc, before, view) {
        Ok(objects) => Ok(objects),
        Err(_) => Err(Refusal::Memory),
    }
}
