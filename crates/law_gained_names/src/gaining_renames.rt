//! The law of renames of imports without a name, in two steps.
ghost use Rattle.law_gained_names.specs.UnnamedRenames.{UnnamedRenamesHaveSteps};

/// First the import gets the name that it declares already; then it is renamed as one with a name. Both steps together preserve bindings
/// exactly where the second one does.
pub fn unnamed_renames_have_steps()
    ensures { UnnamedRenamesHaveSteps }
{}
