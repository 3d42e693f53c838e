//! The laws of verdicts and fault lists.
ghost use Rattle.workspace_check.specs.Laws.{
  HaveOneVerdict,
  AreCheckedAsOne,
  PackagesHaveOneList,
  WorkspacesHaveOneList,
  AreLocalVerdicts,
  AreLocalLists,
  AreLocallyChecked,
  AreLocallyKnown,
  VerdictsFollowExportData,
};

/// A package has at most one verdict.
pub fn verdicts_are_unique()
    ensures { HaveOneVerdict }
{}

/// A package is checked as at most one `Package`.
pub fn checked_packages_are_unique()
    ensures { AreCheckedAsOne }
{}

/// A package has at most one fault list, and so has a workspace.
pub fn fault_lists_are_unique()
    ensures of_package { PackagesHaveOneList }
    ensures of_workspace { WorkspacesHaveOneList }
{}

/// Verdict, fault list and checked form of a package depend on the texts of its closure alone. If these are equal in two workspaces, a
/// verdict known in one is right in the other.
pub fn verdicts_are_local()
    ensures verdicts { AreLocalVerdicts }
    ensures lists { AreLocalLists }
    ensures checked { AreLocallyChecked }
    ensures known { AreLocallyKnown }
{}

/// Takes two workspaces with equal packages and equal imports, and a package with equal files in both. If the package sees equal export
/// data in both, its verdicts in both are equal.
pub fn verdicts_follow_export_data()
    ensures { VerdictsFollowExportData }
{}
