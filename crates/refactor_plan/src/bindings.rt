//! A package that is read once for all steps of a rename, and what its bindings tell of the rename of one of its declarations.
ghost use Rattle.std.specs.Prelude.{◌≡◌, IfOk, option_map};
ghost use Rattle.types_declared.specs.PackageView.{package_of, IsIndexOf};
ghost use Rattle.refs_binding.specs.Indexed.{IsPackageNumber, IsPackageNumbered};
ghost use Rattle.law_renamed_workspaces.specs.NamesAfterwards.{IsMember};
ghost use Rattle.refactor_coupled.specs.Reached.{IsCalledName};
ghost use Rattle.refactor_coupled.specs.RenamedTypesView.{types_of};
ghost use Rattle.refactor_coupled.specs.declared.obstacle.Obstacle.TheVariants as obstacle;
ghost use Rattle.refactor_plan.specs.Bindings.{IsRead, IsOfRead, IsSetIn, HasScopeNumber, workspace_read, verdicts_read};
ghost use Rattle.refactor_plan.specs.Decided.{IsLegalFor, DecidesRenames, TellsImplementing, TellsMembers, TellsUnder, coupled_if, obstacles_of};

use crate::decision::Decision;
use base_files::Place;
use refactor_conflict::Conflict;
use refactor_coupled::{Obstacle, RenamedSet, called_name, first_change};
use refactor_decide::{ScopeDecision, scope_decision};
use refactor_members::member_conflict;
use refactor_rename::Renaming;
use refs_binding::indexed::{Indexed, Numbered, known_of};
use refs_binding::{Declaration, FaultlessWorkspace};
use std::alloc::{AllocError, Global};
use types_declared::{Index, Package};

/// A package that was read: its number in a workspace without faults, and its scopes, index, type definitions and uses of members.
#[derive(Clone, Copy)]
pub struct PackageBindings<'a> {
    pub at: Numbered<'a>,
    pub of: Indexed<'a>,
}

/// The package of a number, with its index, as it was read.
pub fn bindings_of<'a, 'w: 'a, 'i: 'a>(
    at: Numbered<'w>,
    unit: Package<'a>,
    index: &'a Index<'i>,
) -> PackageBindings<'a>
    requires numbered { IsPackageNumber at }
    requires unit { IsPackageNumbered at (package_of unit) }
    requires index { IsIndexOf (package_of unit) index.now }
    ensures read { IsRead result }
    ensures at { result.at ≡ at.entry }
{
    let of = known_of(at, unit, index);
    PackageBindings { at, of }
}

/// The obstacle that an interface is, if there is one whose implementing types change.
fn coupled_if(place: Option<Place>) -> Option<Obstacle>
    ensures { result ≡ coupled_if place }
{
    match place {
        None => None,
        Some(place) => Some(Obstacle::Coupled(place)),
    }
}

/// The first interface whose implementing types the rename of members changes. They are called `old`.
fn change_under(
    alloc: Global,
    workspace: &FaultlessWorkspace<'_>,
    renaming: &Renaming<'_>,
    old: &[u8],
) -> Result<Option<Obstacle>, AllocError>
    ensures { IfOk result (TellsUnder workspace.now renaming.now old.now) }
{
    let rename = RenamedSet {
        set: renaming.set,
        old,
        new: renaming.name,
    };
    let place = first_change(alloc, workspace, rename)?;
    Ok(coupled_if(place))
}

/// What stands against the rename of fields and methods that loses and captures nothing: the first interface whose implementing types it
/// changes. The present name of the members is given. It is found for each that is used.
fn change_called(
    alloc: Global,
    workspace: &FaultlessWorkspace<'_>,
    renaming: &Renaming<'_>,
    called: Option<&[u8]>,
) -> Result<Option<Obstacle>, AllocError>
    requires { IsCalledName (types_of workspace.now) renaming.now.declaration.now called }
    ensures { IfOk result (TellsImplementing workspace.now renaming.now) }
{
    workspace.has_no_faults();
    match called {
        None => Ok(None),
        Some(old) => change_under(alloc, workspace, renaming, old),
    }
}

/// What stands against the rename of fields and methods: the first identifier that it loses or captures, or else the first interface whose
/// implementing types it changes.
fn member_obstacle(
    alloc: Global,
    workspace: &FaultlessWorkspace<'_>,
    renaming: &Renaming<'_>,
) -> Result<Option<Obstacle>, AllocError>
    ensures { IfOk result (TellsMembers workspace.now renaming.now) }
{
    let conflict = member_conflict(alloc, workspace, renaming)?;
    match conflict {
        Some(conflict) => Ok(Some(Obstacle::Conflict(conflict))),
        None => {
            let called = called_name(workspace, renaming.declaration);
            change_called(alloc, workspace, renaming, called)
        }
    }
}

/// Decides the rename of a field or method of the package that was read.
fn member_decision(
    alloc: Global,
    read: &PackageBindings<'_>,
    renaming: &Renaming<'_>,
) -> Result<Decision, AllocError>
    requires read { IsRead read.now }
    requires legal { IsLegalFor (workspace_read read.now) (verdicts_read read.now) renaming.now.declaration.now renaming.now.name.now }
    requires set { IsSetIn read.now renaming.now }
    requires home { IsOfRead read.now renaming.now.declaration.now }
    requires member { IsMember renaming.now.declaration.now }
    ensures { IfOk result (DecidesRenames (workspace_read read.now) (verdicts_read read.now) renaming.now.declaration.now renaming.now.set.now renaming.now.name.now) }
{
    let workspace = read.at.workspace;
    workspace.has_no_faults();
    Ok(Decision {
        obstacle: member_obstacle(alloc, workspace, renaming)?,
        is_hidden: false,
    })
}

/// The obstacle that a conflict is, if there is one.
fn conflict_if(conflict: Option<Conflict>) -> Option<Obstacle>
    ensures { result ≡ option_map obstacle.Conflict conflict }
{
    match conflict {
        None => None,
        Some(conflict) => Some(Obstacle::Conflict(conflict)),
    }
}

/// A decision by scopes, as one of obstacles.
fn obstacles_of(decision: ScopeDecision) -> Decision
    ensures { result ≡ obstacles_of decision }
{
    let ScopeDecision {
        conflict,
        is_hidden,
    } = decision;
    Decision {
        obstacle: conflict_if(conflict),
        is_hidden,
    }
}

/// Decides the rename of the declaration of a number in the scopes of the package that was read.
fn scoped_decision(
    alloc: Global,
    read: &PackageBindings<'_>,
    renaming: &Renaming<'_>,
    n: usize,
) -> Result<Decision, AllocError>
    requires read { IsRead read.now }
    requires legal { IsLegalFor (workspace_read read.now) (verdicts_read read.now) renaming.now.declaration.now renaming.now.name.now }
    requires set { IsSetIn read.now renaming.now }
    requires scoped { HasScopeNumber read.now renaming.now.declaration.now n }
    ensures { IfOk result (DecidesRenames (workspace_read read.now) (verdicts_read read.now) renaming.now.declaration.now renaming.now.set.now renaming.now.name.now) }
{
    read.at.workspace.has_no_faults();
    let decision = scope_decision(alloc, read.at, &read.of, n, renaming.name)?;
    Ok(obstacles_of(decision))
}

/// Decides a rename in the package that was read, by what is bound before it: its first obstacle, or none. No edits are made.
pub(crate) fn decision_of(
    alloc: Global,
    read: &PackageBindings<'_>,
    renaming: &Renaming<'_>,
) -> Result<Decision, AllocError>
    requires read { IsRead read.now }
    requires legal { IsLegalFor (workspace_read read.now) (verdicts_read read.now) renaming.now.declaration.now renaming.now.name.now }
    requires set { IsSetIn read.now renaming.now }
    requires home { IsOfRead read.now renaming.now.declaration.now }
    ensures { IfOk result (DecidesRenames (workspace_read read.now) (verdicts_read read.now) renaming.now.declaration.now renaming.now.set.now renaming.now.name.now) }
{
    match renaming.declaration {
        Declaration::Declared(_, n) => scoped_decision(alloc, read, renaming, *n),
        Declaration::Field(_) => member_decision(alloc, read, renaming),
        Declaration::Method(_) => member_decision(alloc, read, renaming),
        Declaration::Predeclared(_) => unreachable!(),
    }
}
