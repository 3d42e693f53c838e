//! Which types a rename can turn for an interface: it turns none where it moves what both of them have under the old name, or neither.
ghost use Rattle.std.specs.Prelude.{◌≡◌, ◌∷◌, ◌++◌, [], false, true, filter, is_some, IfOk, OnOk};
ghost use Rattle.types_expr.specs.WorldView.{definition_of};
ghost use Rattle.refactor_coupled.specs.Called.{AreCalled};
ghost use Rattle.refactor_coupled.specs.RenamedTypes.{moves_written};
ghost use Rattle.refactor_coupled.specs.RenamedTypesView.{any_turns, definitions_in, rename_of};
ghost use Rattle.refactor_coupled.specs.Turning.{HasParts, can_turn, follows, follows_if_received, follows_if_written, keeps_exported, moves};

use crate::called::{types_called, writes};
use crate::renamed_types::{RenamedTypes, has_received, has_written};
use refs_binding::FaultlessWorkspace;
use std::alloc::{AllocError, Global};
use types_declared::is_exported;
use types_expr::symbol::Symbol;
use types_expr::world::{Definition, Underlying};

/// The types with a method of the old or the new name, and two parts of them.
#[derive(Drop)]
pub(crate) struct CalledTypes {
    /// All of them.
    pub all: Vec<Symbol>,
    /// Those that the rename can turn for an interface whose method it does not move.
    pub moving: Vec<Symbol>,
    /// Those that the rename can turn for an interface whose method it moves.
    pub staying: Vec<Symbol>,
}

/// Whether a member of the old name, which is exported or not, is so under the new name too.
fn keeps_exported(types: &RenamedTypes<'_>, exported: bool) -> bool
    ensures { result ≡ keeps_exported (rename_of types.now.rename) exported }
{
    if exported {
        is_exported(types.rename.new)
    } else {
        !is_exported(types.rename.new)
    }
}

/// Whether the rename moves what a definition writes under the old name, and it stays exported or stays not exported.
fn follows_written(types: &RenamedTypes<'_>, definition: &Definition) -> bool
    ensures { result ≡ follows_if_written (rename_of types.now.rename) ((definition_of definition.now).field types.now.rename.old.now) }
{
    match definition.fields.get(types.rename.old) {
        None => false,
        Some(field) => {
            has_written(types.rename.set, &field.symbol) && keeps_exported(types, field.exported)
        }
    }
}

/// Whether the rename moves the method of a receiver that a definition has under the old name, and it stays exported or stays not exported.
fn follows_received(types: &RenamedTypes<'_>, definition: &Definition) -> bool
    ensures { result ≡ follows_if_received (rename_of types.now.rename) ((definition_of definition.now).method types.now.rename.old.now) }
{
    match definition.methods.get(types.rename.old) {
        None => false,
        Some(method) => {
            has_received(types.rename.set, &method.symbol) && keeps_exported(types, method.exported)
        }
    }
}

/// The same as `follows_written` for the definition of a symbol.
fn follows_asked(types: &RenamedTypes<'_>, written: &Symbol) -> bool
    ensures { result ≡ follows_if_written (rename_of types.now.rename) ((definitions_in types.now.types.now written.now).field types.now.rename.old.now) }
{
    match types.types.get(written) {
        None => false,
        Some(definition) => follows_written(types, definition),
    }
}

/// Whether the rename moves what the definition of a symbol writes under the old name.
fn moves_asked(types: &RenamedTypes<'_>, written: &Symbol) -> bool
    ensures { result ≡ moves_written (rename_of types.now.rename) (definitions_in types.now.types.now written.now) }
{
    match types.types.get(written) {
        None => false,
        Some(definition) => types.moves_written(definition),
    }
}

/// Whether the definition of a symbol writes something under the new name.
fn asks_new(types: &RenamedTypes<'_>, written: &Symbol) -> bool
    ensures { result ≡ is_some ((definitions_in types.now.types.now written.now).field types.now.rename.new.now) }
{
    match types.types.get(written) {
        None => false,
        Some(definition) => writes(definition, types.rename.new),
    }
}

/// Whether the rename moves the method of the old name of a type, or of pointers to it.
#[tactic(auto, unfolding(types_expr::specs::WorldView::underlying_of))]
fn moves(types: &RenamedTypes<'_>, symbol: &Symbol) -> bool
    ensures { result ≡ moves (definitions_in types.now.types.now) (rename_of types.now.rename) (definitions_in types.now.types.now symbol.now) }
{
    let Some(definition) = types.types.get(symbol) else {
        return false;
    };
    match &definition.underlying {
        Underlying::Interface(written) => moves_asked(types, written),
        Underlying::Plain(_)
        | Underlying::PointerTo(_)
        | Underlying::SliceOf(_)
        | Underlying::Struct(_) => types.moves_received(definition),
    }
}

/// Whether the rename does so and the method stays exported, or stays not exported.
#[tactic(auto, unfolding(types_expr::specs::WorldView::underlying_of))]
fn follows(types: &RenamedTypes<'_>, symbol: &Symbol) -> bool
    ensures { result ≡ follows (definitions_in types.now.types.now) (rename_of types.now.rename) (definitions_in types.now.types.now symbol.now) }
{
    let Some(definition) = types.types.get(symbol) else {
        return false;
    };
    match &definition.underlying {
        Underlying::Interface(written) => follows_asked(types, written),
        Underlying::Plain(_)
        | Underlying::PointerTo(_)
        | Underlying::SliceOf(_)
        | Underlying::Struct(_) => follows_received(types, definition),
    }
}

/// Whether the rename can turn a type for an interface whose method it moves (`moved`) or does not move.
fn can_turn(types: &RenamedTypes<'_>, moved: bool, symbol: &Symbol) -> bool
    ensures { result ≡ can_turn (definitions_in types.now.types.now) (rename_of types.now.rename) moved symbol.now }
{
    if moved {
        !follows(types, symbol)
    } else {
        moves(types, symbol)
    }
}

/// Adds a type, if the rename can turn it.
fn add_if_turning(
    found: &mut Vec<Symbol>,
    types: &RenamedTypes<'_>,
    moved: bool,
    symbol: &Symbol,
) -> Result<(), AllocError>
    ensures { OnOk result (found.new.items ≡ found.old.items ++ filter (can_turn (definitions_in types.now.types.now) (rename_of types.now.rename) moved) (symbol.now ∷ [])) }
{
    if !can_turn(types, moved, symbol) {
        return Ok(());
    }
    let copy = symbol.copy()?;
    found.push(copy)?;
    Ok(())
}

/// The types of a list that the rename can turn.
fn those_turning(
    alloc: Global,
    types: &RenamedTypes<'_>,
    moved: bool,
    called: &[Symbol],
) -> Result<Vec<Symbol>, AllocError>
    ensures { IfOk result (λ found. found.items ≡ filter (can_turn (definitions_in types.now.types.now) (rename_of types.now.rename) moved) called.now) }
{
    let mut found = Vec::new(alloc);
    for symbol in called {
        add_if_turning(&mut found, types, moved, symbol)?;
    }
    Ok(found)
}

/// The types with a method of one of the names of a rename.
pub(crate) fn called_types(
    alloc: Global,
    workspace: &FaultlessWorkspace<'_>,
    types: &RenamedTypes<'_>,
) -> Result<CalledTypes, AllocError>
    ensures all { IfOk result (λ found. AreCalled workspace.now types.now.rename.old.now types.now.rename.new.now false found.all.items) }
    ensures parts { IfOk result (HasParts types.now) }
{
    let all = types_called(alloc, workspace, types.rename)?;
    let moving = those_turning(alloc, types, false, all.as_slice())?;
    let staying = those_turning(alloc, types, true, all.as_slice())?;
    Ok(CalledTypes {
        all,
        moving,
        staying,
    })
}

/// Whether a list has a type T for which T or `*T` implements the interface only before the rename, or only after it.
fn turns_any(types: &RenamedTypes<'_>, called: &[Symbol], interface: &Symbol) -> bool
    ensures { result ≡ any_turns types.now.types.now (rename_of types.now.rename) called.now interface.now }
{
    called
        .iter()
        .any(|symbol| types.either_turns(symbol, interface))
}

/// Whether there is such a type, where only those are asked that the rename can turn.
pub(crate) fn turns_called(
    types: &RenamedTypes<'_>,
    called: &CalledTypes,
    interface: &Symbol,
) -> bool
    requires { HasParts types.now called.now }
    ensures { result ≡ any_turns types.now.types.now (rename_of types.now.rename) called.now.all.items interface.now }
{
    if !moves_asked(types, interface) {
        return turns_any(types, called.moving.as_slice(), interface);
    }
    if asks_new(types, interface) {
        return turns_any(types, called.all.as_slice(), interface);
    }
    turns_any(types, called.staying.as_slice(), interface)
}
