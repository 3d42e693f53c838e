//! Finds the faults of package clauses: names that differ from that of the package's first file.
ghost use Rattle.std.specs.Prelude.{◌≡◌, ◌↔◌, IsTrue, OnOk, map};
ghost use Rattle.types_declared.specs.Listing.{AddsFaults};
ghost use Rattle.go_ast.specs.SourceFile.{source_of};
ghost use Rattle.types_declared.specs.Files.{clause_name};
ghost use Rattle.types_resolve.specs.Clauses.{IsFaultOfClause, IsClauseFault};

use base_files::FaultKind;
use go_ast::FileTree;
use std::alloc::AllocError;
use types_declared::{Fault, clause_name, clause_token, push};

/// Whether a file's package clause has this name.
fn is_named(file: &FileTree, name: &[u8]) -> bool
    ensures { IsTrue result ↔ (clause_name (source_of file.now) ≡ name.now) }
{
    clause_name(file) == name
}

/// Adds the fault of a file's package clause, if it has another name.
fn add_clause(
    found: &mut Vec<Fault>,
    name: &[u8],
    rank: usize,
    file: &FileTree,
) -> Result<(), AllocError>
    ensures { OnOk result (AddsFaults found.old.items found.new.items (IsFaultOfClause name.now (rank, source_of file.now))) }
{
    if is_named(file, name) {
        return Ok(());
    }
    let fault = Fault {
        file: rank,
        token: clause_token(file),
        kind: FaultKind::Package,
    };
    push(found, fault)
}

/// Adds the faults of the package clauses of a package's files.
pub(crate) fn add_clauses(found: &mut Vec<Fault>, files: &[FileTree]) -> Result<(), AllocError>
    ensures { OnOk result (AddsFaults found.old.items found.new.items (IsClauseFault (map source_of files.now))) }
{
    let Some(first) = files.first() else {
        return Ok(());
    };
    let name = clause_name(first);
    for rank in 0..files.len() {
        add_clause(found, name, rank, &files[rank])?;
    }
    Ok(())
}
