//! Gives a desk the texts of files, by commands of a session.
ghost use Rattle.std.specs.Prelude.{◌≡◌, ◌||◌, ℕ, None, Some};
ghost use Rattle.server_commands.specs.Act.{ActsOn, LooksFirst};
ghost use Rattle.lsp_requests.specs.Texts.{
  FindsOther,
  RunsDisk,
  RunsDocuments,
  RunsNamed,
  RunsTask,
  RunsUpTo,
  SeesDisk,
  SeesDocuments,
  SeesOther,
  command_with,
  refused_outcome,
  text_outcome,
};

use crate::sight::files_of;
use base_files::{FileText, Files, Path, Refusal};
use history_machine::View;
use lsp_documents::Documents;
use lsp_told::{TextTask, disk_tasks, document_tasks};
use server_commands::{Desk, Response, commit};
use std::alloc::Global;
use workspace_snapshot::{plan_del, plan_put};

/// What came of a command that was refused.
fn refused_outcome(refusal: Refusal) -> Result<bool, Refusal>
    ensures { result ≡ refused_outcome refusal }
{
    match refusal {
        Refusal::Same => Ok(false),
        Refusal::BadPath => Ok(false),
        refusal => Err(refusal),
    }
}

/// What came of a command by its answer: whether something was changed. That nothing is to be changed is no error, nor that no file can have
/// the name.
fn outcome_of(response: Response) -> Result<bool, Refusal>
    ensures { result ≡ text_outcome response }
{
    match response {
        Response::Refused { refusal } => refused_outcome(refusal),
        _ => Ok(true),
    }
}

/// Puts a text on the view of a look.
fn put_seen<D: Desk>(
    alloc: Global,
    desk: &mut D,
    view: &View,
    name: &str,
    text: FileText,
) -> Response
    requires { D.sees desk.old view.now.snapshot.files }
    ensures { ActsOn D.steps desk.old view.now (command_with view.now.snapshot.number name.now (Some text)) result desk.new }
{
    let planned = plan_put(alloc, view.snapshot.get(), name, text);
    commit(desk, view.snapshot.number(), planned)
}

/// Looks, and puts a text.
fn put_now<D: Desk>(alloc: Global, desk: &mut D, name: &str, text: FileText) -> Response
    ensures { (basis : ℕ) × LooksFirst D.steps desk.old (command_with basis name.now (Some text)) result desk.new }
{
    match desk.look() {
        Ok(view) => put_seen(alloc, desk, &view, name, text),
        Err(refusal) => Response::Refused { refusal },
    }
}

/// Deletes a file on the view of a look.
fn del_seen<D: Desk>(alloc: Global, desk: &mut D, view: &View, name: &str) -> Response
    requires { D.sees desk.old view.now.snapshot.files }
    ensures { ActsOn D.steps desk.old view.now (command_with view.now.snapshot.number name.now None) result desk.new }
{
    let planned = plan_del(alloc, view.snapshot.get(), name);
    commit(desk, view.snapshot.number(), planned)
}

/// Looks, and deletes a file.
fn del_now<D: Desk>(alloc: Global, desk: &mut D, name: &str) -> Response
    ensures { (basis : ℕ) × LooksFirst D.steps desk.old (command_with basis name.now None) result desk.new }
{
    match desk.look() {
        Ok(view) => del_seen(alloc, desk, &view, name),
        Err(refusal) => Response::Refused { refusal },
    }
}

/// Gives a file its text. Returns whether that changed something.
fn run_put<D: Desk>(
    alloc: Global,
    desk: &mut D,
    path: &Path,
    text: &FileText,
) -> Result<bool, Refusal>
    ensures { RunsNamed D.steps desk.old path.now (Some text.now) result desk.new }
{
    let text = text.clone()?;
    let answer = put_now(alloc, desk, path.as_str(), text);
    outcome_of(answer)
}

/// Deletes a file. Returns whether that changed something.
fn run_del<D: Desk>(alloc: Global, desk: &mut D, path: &Path) -> Result<bool, Refusal>
    ensures { RunsNamed D.steps desk.old path.now None result desk.new }
{
    let answer = del_now(alloc, desk, path.as_str());
    outcome_of(answer)
}

/// Acts on a task. Returns whether that changed something.
fn run_task<D: Desk>(alloc: Global, desk: &mut D, task: &TextTask) -> Result<bool, Refusal>
    ensures { RunsTask D.steps desk.old task.now result desk.new }
{
    match &task.text {
        Some(text) => run_put(alloc, desk, &task.path, text),
        None => run_del(alloc, desk, &task.path),
    }
}

/// Whether one of two things is so.
fn is_either(one: bool, other: bool) -> bool
    ensures { result ≡ one || other }
{
    one || other
}

/// Acts on tasks. Returns whether that changed something.
fn run_tasks<D: Desk>(alloc: Global, desk: &mut D, tasks: &[TextTask]) -> Result<bool, Refusal>
    ensures { RunsUpTo D.steps desk.old tasks.now result desk.new }
{
    let mut changes = false;
    for task in tasks {
        match run_task(alloc, desk, task) {
            Ok(changed) => changes = is_either(changes, changed),
            Err(refusal) => return Err(refusal),
        }
    }
    Ok(changes)
}

/// Gives the desk the files on the disk, where a look shows these files.
fn run_disk<D: Desk>(
    alloc: Global,
    desk: &mut D,
    files: &Files,
    documents: &Documents,
    disk: &Files,
) -> Result<bool, Refusal>
    ensures { RunsDisk D.steps desk.old files.now documents.now disk.now result desk.new }
{
    let tasks = disk_tasks(alloc, files, documents, disk)?;
    run_tasks(alloc, desk, tasks.as_slice())
}

/// Gives the desk the files on the disk, but for those that are open. Returns whether that changed something.
pub fn put_disk<D: Desk>(
    alloc: Global,
    desk: &mut D,
    documents: &Documents,
    disk: &Files,
) -> Result<bool, Refusal>
    ensures { SeesDisk D.steps desk.old documents.now disk.now result desk.new }
{
    match desk.look() {
        Ok(view) => run_disk(alloc, desk, files_of(&view), documents, disk),
        Err(refusal) => Err(refusal),
    }
}

/// Gives the desk the texts of documents, where a look shows these files.
fn run_documents<D: Desk>(
    alloc: Global,
    desk: &mut D,
    files: &Files,
    documents: &Documents,
) -> Result<bool, Refusal>
    ensures { RunsDocuments D.steps desk.old files.now documents.now result desk.new }
{
    let tasks = document_tasks(alloc, files, documents)?;
    run_tasks(alloc, desk, tasks.as_slice())
}

/// Gives the desk the texts of the documents that are open. Returns whether that changed something.
pub fn put_documents<D: Desk>(
    alloc: Global,
    desk: &mut D,
    documents: &Documents,
) -> Result<bool, Refusal>
    ensures { SeesDocuments D.steps desk.old documents.now result desk.new }
{
    match desk.look() {
        Ok(view) => run_documents(alloc, desk, files_of(&view), documents),
        Err(refusal) => Err(refusal),
    }
}

/// Whether a document that is open has another text than its file among these.
fn differ_from(alloc: Global, files: &Files, documents: &Documents) -> Result<bool, Refusal>
    ensures { FindsOther files.now documents.now result }
{
    let tasks = document_tasks(alloc, files, documents)?;
    Ok(!tasks.is_empty())
}

/// Whether a document that is open has another text than its file.
pub fn documents_differ<D: Desk>(
    alloc: Global,
    desk: &mut D,
    documents: &Documents,
) -> Result<bool, Refusal>
    ensures { SeesOther D.steps desk.old documents.now result desk.new }
{
    match desk.look() {
        Ok(view) => differ_from(alloc, files_of(&view), documents),
        Err(refusal) => Err(refusal),
    }
}
