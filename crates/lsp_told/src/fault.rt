//! Why a request has no result.
ghost use Rattle.std.specs.Prelude.{◌≡◌, ◌≤◌, IfOk, length, option_map, string_bytes};
ghost use Rattle.std.specs.List.{position_or_len};
ghost use Rattle.std.specs.Option.{option_copied};
ghost use Rattle.server_read.specs.FirstLine.{first_line, is_newline};
ghost use Rattle.lsp_told.specs.Asking.{fault_by};
ghost use Rattle.lsp_told.specs.Words.{fault_code, fault_sentence, plain_words, refusal_sentence, refusal_words};

use base_files::{Place, Refusal};
use lsp_message::ErrorCode;
use std::alloc::{AllocError, Global};
use tool_told::{AskedFor, Naming, refusal_outcome};

/// Why a request has no result.
#[derive(Drop)]
pub enum AskFault {
    /// Memory was wanting.
    Memory,
    /// The server does not know the method.
    Method,
    /// The parameters lack something, or have it in another form.
    Params,
    /// It is refused, as a command of a session is.
    Refused(Refusal),
}

impl From<AllocError> for AskFault {
    ghost use Rattle.lsp_told.specs.declared.fault.AskFault.TheVariants.{Memory};

    ghost from_gives = { λ _ fault. fault ≡ Memory };

    fn from(_: AllocError) -> AskFault {
        AskFault::Memory
    }
}

impl From<Refusal> for AskFault {
    ghost from_gives = { λ refusal fault. fault ≡ fault_by refusal };

    fn from(refusal: Refusal) -> AskFault {
        match refusal {
            Refusal::Memory => AskFault::Memory,
            refusal => AskFault::Refused(refusal),
        }
    }
}

/// The code of the error.
pub fn code_of(fault: &AskFault) -> ErrorCode
    ensures { result ≡ fault_code fault.now }
{
    match fault {
        AskFault::Memory => ErrorCode::InternalError,
        AskFault::Method => ErrorCode::MethodNotFound,
        AskFault::Params => ErrorCode::InvalidParams,
        AskFault::Refused(_) => ErrorCode::RequestFailed,
    }
}

/// The length of the first line of a text.
fn line_len(text: &[u8]) -> usize
    ensures len { result ≡ position_or_len is_newline text.now }
    ensures within { result ≤ length text.now }
{
    let mut end = 0;
    while end < text.len() && text[end] != b'\n' {
        end += 1;
    }
    end
}

/// The first line of a text.
fn line_front(text: &[u8]) -> &[u8]
    ensures { result.now ≡ first_line text.now }
{
    &text[..line_len(text)]
}

/// The sentence of a refusal: its place and why it is refused.
fn refusal_sentence(
    alloc: Global,
    naming: Naming<'_>,
    place: Option<&Place>,
    refusal: &Refusal,
) -> Result<String, AllocError>
    ensures { IfOk result (λ words. string_bytes words ≡ refusal_sentence naming.entry (option_copied place.entry) refusal.now) }
{
    let asked = AskedFor {
        word: "gorefd".as_bytes(),
        place,
    };
    let outcome = refusal_outcome(alloc, &[], naming, asked, refusal)?;
    String::from_utf8_lossy(alloc, line_front(outcome.notes.as_slice()))
}

/// What is told of a refusal that names no place.
fn plain_words(refusal: &Refusal) -> Option<&'static str>
    ensures { option_map (λ words. words.now) result ≡ plain_words refusal.now }
{
    match refusal {
        Refusal::NothingToUndo => Some("there is no rename to take back"),
        Refusal::NothingToRedo => Some("there is no rename to do again"),
        Refusal::JournalFull => {
            Some("this session had as many changes as it can: start it again")
        }
        _ => None,
    }
}

/// What is told of a refusal.
fn refusal_words(
    alloc: Global,
    naming: Naming<'_>,
    place: Option<&Place>,
    refusal: &Refusal,
) -> Result<String, AllocError>
    ensures { IfOk result (λ words. string_bytes words ≡ refusal_words naming.entry (option_copied place.entry) refusal.now) }
{
    match plain_words(refusal) {
        Some(words) => String::from_str(alloc, words),
        None => refusal_sentence(alloc, naming, place, refusal),
    }
}

/// What is told of a fault.
pub fn words_of(
    alloc: Global,
    naming: Naming<'_>,
    place: Option<&Place>,
    fault: &AskFault,
) -> Result<String, AllocError>
    ensures { IfOk result (λ words. string_bytes words ≡ fault_sentence naming.entry (option_copied place.entry) fault.now) }
{
    match fault {
        AskFault::Memory => String::from_str(alloc, "memory was wanting"),
        AskFault::Method => String::from_str(alloc, "this server does not know the method"),
        AskFault::Params => {
            String::from_str(
                alloc,
                "the parameters lack something, or have it in another form",
            )
        }
        AskFault::Refused(refusal) => refusal_words(alloc, naming, place, refusal),
    }
}
