//! The laws of a package that is parsed again after one of its imports got the name that it declared already.
ghost use Rattle.law_gained_names.specs.GainedName.{GainedNamesAreJudged, GainedNamesBringNoFault, GainedNamesRenumber, NoMarkFaultComes};
ghost use Rattle.law_gained_names.specs.GainedName.{NoClauseFaultComes, GainedNamesAddNoFault, NoImportFaultComes, NoScopeFaultComes, NoUnknownNameComes};
ghost use Rattle.law_gained_names.specs.NamedWorkspace.{GainedNamesKeepVerdicts, GainedNamesListNoFault};

/// The package after the edit is the old one with other numbers of tokens and identifiers, and keeps its names.
pub fn gained_names_renumber()
    ensures { GainedNamesRenumber }
{}

/// No use of a member stands at the literal of the import, so each file is judged as before.
pub fn gained_names_are_judged()
    ensures { GainedNamesAreJudged }
{}

/// No fault of members or of types comes, and the export data stay.
pub fn gained_names_bring_no_fault()
    ensures { GainedNamesBringNoFault }
{}

/// No fault of scopes comes: no undeclared name, no redeclaration, no unused import.
pub fn no_scope_fault_comes()
    ensures { NoScopeFaultComes }
{}

/// Nor does a qualified identifier come whose name the imported package does not declare, or does not export.
pub fn no_unknown_name_comes()
    ensures { NoUnknownNameComes }
{}

/// No fault of statements comes: each `:=` that declared a variable declares one, and none is outside a `for` that was in one.
pub fn no_mark_fault_comes()
    ensures { NoMarkFaultComes }
{}

/// No package clause comes to differ from that of the first file.
pub fn no_clause_fault_comes()
    ensures { NoClauseFaultComes }
{}

/// No import comes whose path is missing, on a cycle or of a package with faults.
pub fn no_import_fault_comes()
    ensures { NoImportFaultComes }
{}

/// So no fault at all comes to a package without faults.
pub fn gained_names_add_no_fault()
    ensures { GainedNamesAddNoFault }
{}

/// In a workspace without faults all verdicts stay.
pub fn gained_names_keep_verdicts()
    ensures { GainedNamesKeepVerdicts }
{}

/// And the workspace after the edit has no fault.
pub fn gained_names_list_no_fault()
    ensures { GainedNamesListNoFault }
{}
