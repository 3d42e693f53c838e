//! The service of a session over a desk.
ghost use Rattle.std.specs.Prelude.{IfOk, map, option_map};
ghost use Rattle.serde_json.specs.View.{view};
ghost use Rattle.lsp_message.specs.Calls.{viewed};
ghost use Rattle.lsp_session.specs.Outcomes.{outcome_view};
ghost use Rattle.lsp_service.specs.Serving.{AnswersMethod, HeedsMethod, PublishesIf, Starts};

use crate::answering::answer_method;
use crate::catching_up::catch_up;
use crate::desk::RequestDesk;
use crate::outcomes::answer_given;
use crate::publishing::publish;
use lsp_answers::initialize_result;
use lsp_editor::{Editor, heed, note_client};
use lsp_session::{EditorService, ServiceAnswer};
use serde_json::Value;
use std::alloc::AllocError;
use std::rt::Files;

/// Answers an editor over a desk. The runtime reads the folder.
pub struct DeskService<'a, R, D> {
    pub rt: &'a R,
    pub editor: Editor,
    pub desk: D,
}

/// Starts a session: notes what the editor says of itself, and has the desk catch up. Where it cannot, each request that needs it says why.
fn start<R: Files + AllocGlobal + Clone + Drop, D: RequestDesk>(
    rt: &R,
    editor: &mut Editor,
    desk: &mut D,
    params: Option<&Value>,
) -> Result<Value, AllocError>
    ensures { IfOk result (λ outcome. Starts D.takes_disk D.takes_documents (editor.old, desk.old) (viewed params.entry) (view outcome) (editor.new, desk.new)) }
{
    note_client(rt.alloc(), editor, params)?;
    drop(catch_up(rt, editor, desk));
    initialize_result(rt.alloc(), editor.abilities.encoding)
}

/// Publishes faults where they may have changed.
fn publish_if<R: Files + AllocGlobal + Clone + Drop, D: RequestDesk>(
    rt: &R,
    editor: &mut Editor,
    desk: &mut D,
    changes: bool,
) -> Result<Vec<Value>, AllocError>
    ensures { IfOk result (λ told. PublishesIf D.takes_disk D.takes_documents D.differs D.lists changes editor.old desk.old (map view told.items) (editor.new, desk.new)) }
{
    if changes {
        publish(rt, editor, desk)
    } else {
        Ok(Vec::new(rt.alloc()))
    }
}

/// Heeds a notification, and publishes faults where they may have changed.
fn heed_method<R: Files + AllocGlobal + Clone + Drop, D: RequestDesk>(
    rt: &R,
    editor: &mut Editor,
    desk: &mut D,
    method: &str,
    params: Option<&Value>,
) -> Result<Vec<Value>, AllocError>
    ensures { IfOk result (λ told. HeedsMethod D.takes_disk D.takes_documents D.differs D.lists (editor.old, desk.old) method.now (viewed params.entry) (map view told.items) (editor.new, desk.new)) }
{
    let changes = heed(rt.alloc(), editor, method, params)?;
    publish_if(rt, editor, desk, changes)
}

/// Answers a request of a method.
fn answer<R: Files + AllocGlobal + Clone + Drop, D: RequestDesk>(
    rt: &R,
    editor: &mut Editor,
    desk: &mut D,
    method: &str,
    params: Option<&Value>,
) -> Result<ServiceAnswer, AllocError>
    ensures { IfOk result (λ answered. AnswersMethod D.takes_disk D.takes_documents D.answers D.tells (editor.old, desk.old) method.now (viewed params.entry) (option_map view answered.edit) (outcome_view answered.outcome) (editor.new, desk.new)) }
{
    let came = answer_method(rt, editor, desk, method, params);
    answer_given(rt.alloc(), desk, editor.naming.prefix.as_str(), came)
}

impl<'a, R: Files + AllocGlobal + Clone + Drop, D: RequestDesk> EditorService
    for DeskService<'a, R, D> {
    ghost use Rattle.lsp_service.specs.Serving.{AnswersMethod, HeedsMethod, Starts};

    ghost starts = { λ old params outcome new. Starts D.takes_disk D.takes_documents (old.editor, old.desk) params outcome (new.editor, new.desk) };

    ghost answers = { λ old method params edit outcome new. AnswersMethod D.takes_disk D.takes_documents D.answers D.tells (old.editor, old.desk) method params edit outcome (new.editor, new.desk) };

    ghost heeds = { λ old method params told new. HeedsMethod D.takes_disk D.takes_documents D.differs D.lists (old.editor, old.desk) method params told (new.editor, new.desk) };

    fn start(&mut self, params: Option<&Value>) -> Result<Value, AllocError> {
        start(self.rt, &mut self.editor, &mut self.desk, params)
    }

    fn answer(
        &mut self,
        method: &str,
        params: Option<&Value>,
    ) -> Result<ServiceAnswer, AllocError> {
        answer(self.rt, &mut self.editor, &mut self.desk, method, params)
    }

    fn heed(&mut self, method: &str, params: Option<&Value>) -> Result<Vec<Value>, AllocError> {
        heed_method(self.rt, &mut self.editor, &mut self.desk, method, params)
    }
}
