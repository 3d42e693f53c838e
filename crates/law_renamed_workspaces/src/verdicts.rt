//! Laws of verdicts after a harmless rename in which no import gains a name.
ghost use Rattle.law_renamed_workspaces.specs.VerdictsStay.{FoundStays, NoFaultComes, VerdictsStayAbove, VerdictsStay, PlainWorkspaceStaysSound};

/// What is found of each file stays.
pub fn found_stays()
    ensures { FoundStays }
{}

/// No fault of scopes, members or types comes.
pub fn no_fault_comes()
    ensures { NoFaultComes }
{}

/// The verdict on a package stays, but for names, if those on the packages that it builds on do.
pub fn verdicts_stay_above()
    ensures { VerdictsStayAbove }
{}

/// The verdict on each package stays, but for names.
pub fn verdicts_stay()
    ensures { VerdictsStay }
{}

/// The workspace stays without faults.
pub fn plain_workspace_stays_sound()
    ensures { PlainWorkspaceStaysSound }
{}
