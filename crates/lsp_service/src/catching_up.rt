//! Gives a desk the texts that the client and the disk have.
ghost use Rattle.lsp_told.specs.Requests.{request_view};
ghost use Rattle.lsp_service.specs.Catching.{CatchesUp, CatchesUpBy, CatchesUpFor, GivesDisk, GivesDocuments, NotesTaken, ReadsFolder, ReadsIf, ThenGives, all_done, needs_documents, noted, step_in};
ghost use Rattle.std.specs.Prelude.{◌≡◌};

use crate::desk::RequestDesk;
use crate::failure::Failure;
use base_files::{Files as TextFiles, Refusal};
use lsp_editor::{Editor, without_slash};
use lsp_told::{EditorRequest, Way};
use std::alloc::Global;
use std::rt::Files;
use tool_disk::{Loaded, load};

/// Notes that texts changed something, if they did.
fn note_if(editor: &mut Editor, changes: bool)
    ensures { editor.new ≡ noted changes editor.old }
{
    if !changes {
        return;
    }
    editor.note_texts();
}

/// Notes that a desk took texts.
fn note_taken(editor: &mut Editor, taken: Result<bool, Refusal>) -> Result<(), Failure>
    ensures { NotesTaken taken editor.old result editor.new }
{
    match taken {
        Ok(changes) => {
            note_if(editor, changes);
            Ok(())
        }
        Err(refusal) => {
            editor.note_texts();
            Err(Failure::from(refusal))
        }
    }
}

/// Gives the desk files of the disk.
fn give_disk<D: RequestDesk>(
    alloc: Global,
    editor: &mut Editor,
    desk: &mut D,
    disk: &TextFiles,
) -> Result<(), Failure>
    ensures { GivesDisk D.takes_disk D.takes_documents disk.now editor.old desk.old result editor.new desk.new }
{
    let taken = desk.take_disk(alloc, &editor.documents, disk);
    note_taken(editor, taken)
}

/// Gives the desk the documents that are open.
fn give_documents<D: RequestDesk>(
    alloc: Global,
    editor: &mut Editor,
    desk: &mut D,
) -> Result<(), Failure>
    ensures { GivesDocuments D.takes_disk D.takes_documents editor.old desk.old result editor.new desk.new }
{
    let taken = desk.take_documents(alloc, &editor.documents);
    note_taken(editor, taken)
}

/// Gives the desk what was read of the folder.
fn give_loaded<D: RequestDesk>(
    alloc: Global,
    editor: &mut Editor,
    desk: &mut D,
    loaded: Loaded,
) -> Result<(), Failure>
    ensures { ReadsFolder D.takes_disk D.takes_documents editor.old desk.old result editor.new desk.new }
{
    let Loaded { files, prefix, .. } = loaded;
    editor.naming.prefix = prefix;
    match give_disk(alloc, editor, desk, files.files()) {
        Ok(()) => {
            editor.is_stale = false;
            Ok(())
        }
        Err(failure) => Err(failure),
    }
}

/// Reads the folder, and gives its files to the desk.
fn read_folder<R: Files + AllocGlobal + Clone + Drop, D: RequestDesk>(
    rt: &R,
    editor: &mut Editor,
    desk: &mut D,
) -> Result<(), Failure>
    ensures { ReadsFolder D.takes_disk D.takes_documents editor.old desk.old result editor.new desk.new }
{
    match load(rt, without_slash(editor.naming.root.as_str())) {
        Ok(loaded) => give_loaded(rt.alloc(), editor, desk, loaded),
        Err(fault) => Err(Failure::from(fault)),
    }
}

/// Reads the folder, if files may have changed.
fn read_if_stale<R: Files + AllocGlobal + Clone + Drop, D: RequestDesk>(
    rt: &R,
    editor: &mut Editor,
    desk: &mut D,
) -> Result<(), Failure>
    ensures { ReadsIf D.takes_disk D.takes_documents editor.old.is_stale editor.old desk.old result editor.new desk.new }
{
    if editor.is_stale {
        read_folder(rt, editor, desk)
    } else {
        Ok(())
    }
}

/// Gives the desk the documents that are open. The client has then made the edits that it was told.
fn give_and_settle<D: RequestDesk>(
    alloc: Global,
    editor: &mut Editor,
    desk: &mut D,
) -> Result<(), Failure>
    ensures { ThenGives D.takes_disk D.takes_documents all_done editor.old desk.old result editor.new desk.new }
{
    match give_documents(alloc, editor, desk) {
        Ok(()) => {
            editor.note_settled();
            Ok(())
        }
        Err(failure) => Err(failure),
    }
}

/// Gives the desk the texts that are open, and those on the disk where these may have changed.
pub(crate) fn catch_up<R: Files + AllocGlobal + Clone + Drop, D: RequestDesk>(
    rt: &R,
    editor: &mut Editor,
    desk: &mut D,
) -> Result<(), Failure>
    ensures { CatchesUp D.takes_disk D.takes_documents editor.old desk.old result editor.new desk.new }
{
    match read_if_stale(rt, editor, desk) {
        Ok(()) => give_and_settle(rt.alloc(), editor, desk),
        Err(failure) => Err(failure),
    }
}

/// Which way a request steps, if it is one to step.
pub(crate) fn step_in(request: EditorRequest<'_>) -> Option<Way>
    ensures { result ≡ step_in (request_view request.entry) }
{
    match request {
        EditorRequest::TakeBack(way) => Some(way),
        EditorRequest::Rename(_) => None,
        EditorRequest::At(_, _) => None,
        EditorRequest::WillRename(_) => None,
    }
}

/// Whether the documents are enough for a request: it steps, and the edits that were told last need not be on the disk yet.
fn needs_documents(editor: &Editor, request: EditorRequest<'_>) -> bool
    ensures { result ≡ needs_documents editor.now (request_view request.entry) }
{
    match step_in(request) {
        Some(_) => editor.is_awaiting(),
        None => false,
    }
}

/// Gives the desk the documents that are open, and nothing else where these are enough.
pub(crate) fn catch_up_by<R: Files + AllocGlobal + Clone + Drop, D: RequestDesk>(
    rt: &R,
    editor: &mut Editor,
    desk: &mut D,
    by_documents: bool,
) -> Result<(), Failure>
    ensures { CatchesUpBy D.takes_disk D.takes_documents by_documents editor.old desk.old result editor.new desk.new }
{
    if by_documents {
        give_documents(rt.alloc(), editor, desk)
    } else {
        catch_up(rt, editor, desk)
    }
}

/// Gives the desk what a request needs.
pub(crate) fn catch_up_for<R: Files + AllocGlobal + Clone + Drop, D: RequestDesk>(
    rt: &R,
    editor: &mut Editor,
    desk: &mut D,
    request: EditorRequest<'_>,
) -> Result<(), Failure>
    ensures { CatchesUpFor D.takes_disk D.takes_documents (request_view request.entry) editor.old desk.old result editor.new desk.new }
{
    let by_documents = needs_documents(editor, request);
    catch_up_by(rt, editor, desk, by_documents)
}
