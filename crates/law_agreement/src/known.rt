//! Laws of what is known of packages after a plain rename that loses and captures no identifier.
ghost use Rattle.law_agreement.specs.KnownStay.{RenamesKeepFindings, RenamesKeepUnseen, HiddenRenamesKeepAll, RenamesKeepOthers};
ghost use Rattle.law_agreement.specs.KnownStay.{RenamedExportsAreKnown, RenamedFieldsAreKnown, RenamedMethodsAreKnown};

/// The finding of each package stays right, and so does a known verdict where others see no change of the package.
pub fn renames_keep_known()
    ensures findings { RenamesKeepFindings }
    ensures unseen { RenamesKeepUnseen }
{}

/// All known verdicts stay right where others don't see the declaration; else all but that on the declaring package.
pub fn renames_keep_verdicts()
    ensures hidden { HiddenRenamesKeepAll }
    ensures others { RenamesKeepOthers }
{}

/// All known verdicts are right where that on the declaring package has the new name in its export data.
pub fn renamed_verdicts_are_known()
    ensures exports { RenamedExportsAreKnown }
    ensures fields { RenamedFieldsAreKnown }
    ensures methods { RenamedMethodsAreKnown }
{}
