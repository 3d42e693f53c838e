//! The faults of the files that a look shows, and what is told of failures.
ghost use Rattle.std.specs.Prelude.{◌≡◌, IfOk, string_bytes};
ghost use Rattle.std.specs.FinMap as map;
ghost use Rattle.lsp_told.specs.Diagnostics.{faults_view};
ghost use Rattle.lsp_requests.specs.Faults.{ListsShown, SeesFaults, TellsFault, TellsIn};

use crate::sight::files_of;
use base_files::{Files, Refusal};
use history_machine::View;
use lsp_told::{AskFault, words_of};
use server_commands::{Desk, find};
use std::alloc::{AllocError, Global};
use tool_told::Naming;
use workspace_check::{FileFault, faults};

/// The faults of a view's files.
fn faults_seen<D: Desk>(alloc: Global, desk: &mut D, view: &View) -> Result<Vec<FileFault>, Refusal>
    requires { D.sees desk.old view.now.snapshot.files }
    ensures faults { ListsShown view.now.snapshot.files (faults_view result) }
    ensures same { desk.new ≡ desk.old }
{
    let found = find(alloc, desk, view)?;
    let list = faults(alloc, &found)?;
    Ok(list)
}

/// The faults of the files that a look shows.
pub fn faults_now<D: Desk>(alloc: Global, desk: &mut D) -> Result<Vec<FileFault>, Refusal>
    ensures { SeesFaults D.steps desk.old (faults_view result) desk.new }
{
    match desk.look() {
        Ok(view) => faults_seen(alloc, desk, &view),
        Err(refusal) => Err(refusal),
    }
}

/// What is told of a fault of a request, with places in these files.
fn words_in(
    alloc: Global,
    files: &Files,
    prefix: &str,
    fault: &AskFault,
) -> Result<String, AllocError>
    ensures { IfOk result (λ words. TellsIn files.now prefix.now fault.now (string_bytes words)) }
{
    words_of(alloc, Naming { files, prefix }, None, fault)
}

/// What is told of a fault of a request where no files are known.
fn words_alone(alloc: Global, prefix: &str, fault: &AskFault) -> Result<String, AllocError>
    ensures { IfOk result (λ words. TellsIn map.empty prefix.now fault.now (string_bytes words)) }
{
    let files = Files::new(alloc);
    words_in(alloc, &files, prefix, fault)
}

/// What is told of a fault of a request, with places in the files that a look shows. `prefix` stands before the names of files.
pub fn words_now<D: Desk>(
    alloc: Global,
    desk: &mut D,
    prefix: &str,
    fault: &AskFault,
) -> Result<String, AllocError>
    ensures { IfOk result (λ words. TellsFault D.steps desk.old prefix.now fault.now (string_bytes words) desk.new) }
{
    match desk.look() {
        Ok(view) => words_in(alloc, files_of(&view), prefix, fault),
        Err(_) => words_alone(alloc, prefix, fault),
    }
}
