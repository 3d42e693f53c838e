//! Serves an editor over a book.
ghost use Rattle.std.specs.Prelude.{◌≡◌, IfOk};
ghost use Rattle.lsp_server.specs.Sessions.{ConversesByBook, ServesAlone, ServesByBook};

use crate::book_desk::SessionDesk;
use base_files::Limits;
use history_book::Book;
use lsp_editor::{Editor, folder_named};
use lsp_service::DeskService;
use lsp_session::{LspFault, converse};
use server_commands::Solo;
use server_read::{ByteSource, Reading};
use std::env::Env;
use std::io::{Read, Write};
use std::rt::Files;

/// Serves an editor over the book of a desk.
fn converse_over<R: Files + AllocGlobal + Clone + Drop, S: ByteSource, W: Write>(
    rt: &R,
    source: &mut S,
    out: &mut W,
    service: &mut DeskService<'_, R, SessionDesk<Solo>>,
) -> Result<bool, LspFault>
    requires { S.reads source.old ≡ 0 }
    ensures { IfOk result (λ is_orderly. ConversesByBook (S.remaining source.old) (W.contents out.old) service.old is_orderly (S.remaining source.new) (W.contents out.new) service.new) }
{
    converse(rt.alloc(), source, out, service)
}

/// Serves an editor over a book, and closes the book.
fn serve_over<R: Files + AllocGlobal + Clone + Drop, S: ByteSource, W: Write>(
    rt: &R,
    source: &mut S,
    out: &mut W,
    editor: Editor,
    book: Book,
) -> Result<bool, LspFault>
    requires { S.reads source.old ≡ 0 }
    ensures { IfOk result (λ is_orderly. ServesByBook R editor book (S.remaining source.old) (W.contents out.old) is_orderly (S.remaining source.new) (W.contents out.new)) }
{
    let solo = Solo::new(book);
    let desk = SessionDesk { desk: solo };
    let mut service = DeskService { rt, editor, desk };
    let ended = converse_over(rt, source, out, &mut service);
    let DeskService {
        rt: _,
        editor,
        desk,
    } = service;
    drop(editor);
    let SessionDesk { desk } = desk;
    let _entries = desk.into_book().close();
    ended
}

/// Serves one editor from a reader to a writer, over a new book.
fn serve_alone<R, I: Read + Drop, W: Write>(
    rt: &R,
    root: &str,
    reader: I,
    out: &mut W,
) -> Result<bool, LspFault>
where
    R: Env + Files + AllocGlobal + Clone + Drop,
    ensures { IfOk result (λ is_orderly. ServesAlone R (I.remaining reader) (W.contents out.old) is_orderly (W.contents out.new)) }
{
    let folder = folder_named(rt, root)?;
    let editor = Editor::new(rt.alloc(), folder);
    let book = Book::new(rt.alloc(), Limits::default())?;
    let mut source = Reading::new(reader);
    serve_over(rt, &mut source, out, editor, book)
}

/// Serves one editor from a reader to a writer. `root` is the folder, where the editor names none. Returns whether the session ended
/// orderly, by exit after shutdown, and the writer.
pub fn serve_editor<R, I: Read + Drop, W: Write>(
    rt: &R,
    root: &str,
    reader: I,
    writer: W,
) -> (Result<bool, LspFault>, W)
where
    R: Env + Files + AllocGlobal + Clone + Drop,
    ensures { IfOk result.0 (λ is_orderly. ServesAlone R (I.remaining reader) (W.contents writer) is_orderly (W.contents result.1)) }
{
    let mut out = writer;
    let ended = serve_alone(rt, root, reader, &mut out);
    (ended, out)
}
