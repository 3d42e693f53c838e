//! The law of a workspace in which one package got other numbers.
ghost use Rattle.law_renumbered.specs.RenumberedWorkspace.{RenumberedWorkspacesAreSteps, RenumberedWorkspacesKeepBindings};

/// Each identifier stays bound to what its declaration has become, and is bound to nothing more. So the revision can be a first step.
pub fn renumbered_workspaces_keep_bindings()
    ensures bindings { RenumberedWorkspacesKeepBindings }
    ensures steps { RenumberedWorkspacesAreSteps }
{}
