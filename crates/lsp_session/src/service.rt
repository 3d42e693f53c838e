//! What answers the requests of an editor, and heeds its notifications.
ghost use Rattle.std.specs.Prelude.{ℕ, IfOk, List, Option, map, option_map};
ghost use Rattle.serde_json.specs.Data.{Data};
ghost use Rattle.serde_json.specs.View.{view};
ghost use Rattle.lsp_message.specs.Calls.{viewed};
ghost use Rattle.lsp_session.specs.Outcomes.{ServiceOutcome, outcome_view};

use lsp_message::ErrorCode;
use serde_json::Value;
use std::alloc::AllocError;

/// Why a request has no result: the code of the error, and what is told of it.
#[derive(Drop)]
pub struct ServiceFault {
    pub code: ErrorCode,
    pub words: String,
}

/// What came of a request: its result, or why there is none.
pub type ServiceResult = Result<Value, ServiceFault>;

/// What a service answers: the edit that the client is to make before, if there is one, and what came of the request.
#[derive(Drop)]
pub struct ServiceAnswer {
    pub edit: Option<Value>,
    pub outcome: ServiceResult,
}

/// Answers the requests of an editor, and heeds its notifications. Its answers are JSON values; `viewed` is what they say.
pub trait EditorService {
    /// Initialize: the service before it, the parameters, the result, and the service after it.
    ghost starts: { Self → Option Data → Data → Self → Type 0 };

    /// A request: the service before it, the method, the parameters, the edit to make before the answer, what comes of it, and the service
    /// after it.
    ghost answers: { Self → List ℕ → Option Data → Option Data → ServiceOutcome → Self → Type 0 };

    /// A notification: the service before it, the method, the parameters, what is published of documents, and the service after it.
    ghost heeds: { Self → List ℕ → Option Data → List Data → Self → Type 0 };

    /// Starts the session by the parameters of initialize.
    fn start(&mut self, params: Option<&Value>) -> Result<Value, AllocError>
        ensures { IfOk result (λ outcome. starts self.old (viewed params.entry) (view outcome) self.new) };

    /// Answers a request of a method.
    fn answer(&mut self, method: &str, params: Option<&Value>) -> Result<ServiceAnswer, AllocError>
        ensures { IfOk result (λ answered. answers self.old method.now (viewed params.entry) (option_map view answered.edit) (outcome_view answered.outcome) self.new) };

    /// Heeds a notification of a method. Returns the parameters of what is to be published.
    fn heed(&mut self, method: &str, params: Option<&Value>) -> Result<Vec<Value>, AllocError>
        ensures { IfOk result (λ told. heeds self.old method.now (viewed params.entry) (map view told.items) self.new) };
}
