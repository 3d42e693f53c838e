//! The laws of the findings of a package in which tokens and identifiers get other numbers.
ghost use Rattle.law_renumbered.specs.Findings.{ExportsRenumber, NoMemberFaultComes, NoTypeFaultComes};

/// The export data stay.
pub fn exports_renumber()
    ensures { ExportsRenumber }
{}

/// No fault of members comes.
pub fn no_member_fault_comes()
    ensures { NoMemberFaultComes }
{}

/// No fault of types comes.
pub fn no_type_fault_comes()
    ensures { NoTypeFaultComes }
{}
