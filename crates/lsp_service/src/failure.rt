//! Why a request has no result.
use base_files::Refusal;
use lsp_told::AskFault;
use tool_disk::ToolFault;

/// Why a request has no result: its own reason, or what is told of the folder.
#[derive(Drop)]
pub(crate) enum Failure {
    Asked(AskFault),
    Folder(String),
}

impl From<Refusal> for Failure {
    ghost use Rattle.std.specs.Prelude.{◌≡◌};
    ghost use Rattle.lsp_service.specs.Failing.{refused_by};

    ghost from_gives = { λ refusal failure. failure ≡ refused_by refusal };

    fn from(refusal: Refusal) -> Failure {
        Failure::Asked(AskFault::from(refusal))
    }
}

impl From<ToolFault> for Failure {
    fn from(fault: ToolFault) -> Failure {
        match fault {
            ToolFault::Memory => Failure::Asked(AskFault::Memory),
            ToolFault::Told(text) => Failure::Folder(text),
        }
    }
}
