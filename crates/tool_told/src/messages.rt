//! What is told of a refusal.
ghost use Rattle.std.specs.Prelude.{◌≡◌};
ghost use Rattle.tool_told.specs.Messages.{message};

use base_files::Refusal;

/// What is told of a refusal. Of a fault or a capture it is what stands before the words on its place.
pub(crate) fn message(refusal: &Refusal) -> &'static str
    ensures { result.now ≡ message refusal.now }
{
    match refusal {
        Refusal::Memory => "memory fault",
        Refusal::BadPath => "this is no path of the files",
        Refusal::NoFile => "there is no such Go file",
        Refusal::TooLarge => "the files exceed a limit",
        Refusal::Faulty { place: _, kind: _ } => "",
        Refusal::NoIdentifier => "no identifier stands here",
        Refusal::NotRenamable => "what stands here cannot be renamed",
        Refusal::BadName => "the new name is not legal here",
        Refusal::Same => "this is so already",
        Refusal::Captured {
            used: _,
            by: Some(_),
        } => "this identifier would be captured by ",
        Refusal::Captured { used: _, by: None } => {
            "this identifier would be captured by a predeclared name"
        }
        Refusal::Lost { used: _ } => "this identifier would be lost",
        Refusal::Coupled { place: _ } => "other types would implement this interface",
        Refusal::NoPackage => "there is no such package",
        Refusal::TargetTaken => "files lie there already",
        Refusal::InsideItself => "this lies in the folder that moves",
        _ => "refused",
    }
}
