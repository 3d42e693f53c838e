//! The text of a refusal: its code, and the body of its reply.
ghost use Rattle.std.specs.Prelude.{◌≡◌, ◌+◌, ◌++◌, ◌∷◌, [], decimal};
ghost use Rattle.base_files.specs.PlaceText.{place_text};
ghost use Rattle.server_session.specs.Refusals.{code_of, refusal_body};

use arrayvec::ArrayString;
use base_files::{Place, Refusal};
use itoa::Buffer;

/// The size of the longest place, in bytes: a path of 255 bytes, two signs and a number.
const LONGEST_PLACE: usize = 300;

/// The size of the longest body of a refusal, in bytes. It has two places.
pub(crate) const LONGEST_BODY: usize = 640;

/// The code of a refusal.
pub(crate) fn refusal_code(refusal: &Refusal) -> u8
    ensures { result ≡ code_of refusal.now }
{
    match refusal {
        Refusal::Memory => 1,
        Refusal::BadCommand => 2,
        Refusal::BadPath => 3,
        Refusal::NoFile => 4,
        Refusal::TooLarge => 5,
        Refusal::Moved { .. } => 6,
        Refusal::NothingToUndo => 7,
        Refusal::NothingToRedo => 8,
        Refusal::Faulty { .. } => 9,
        Refusal::NoIdentifier => 10,
        Refusal::NotRenamable => 11,
        Refusal::BadName => 12,
        Refusal::Same => 13,
        Refusal::Captured { .. } => 14,
        Refusal::Lost { .. } => 15,
        Refusal::NoPackage => 16,
        Refusal::TargetTaken => 17,
        Refusal::InsideItself => 18,
        Refusal::JournalFull => 19,
        Refusal::Pending { .. } => 20,
        Refusal::Stale { .. } => 21,
        Refusal::Already => 22,
        Refusal::NoJob => 23,
        Refusal::BodyShort => 24,
        Refusal::Coupled { .. } => 25,
        Refusal::Disk => 26,
    }
}

/// A place as text: `path:#offset`.
fn place_text(place: &Place) -> ArrayString<LONGEST_PLACE>
    ensures { result.bytes ≡ place_text place.now }
{
    let mut digits = Buffer::new();
    let mut text = ArrayString::new();
    text.push_str(place.path.as_str());
    text.push_str(":#");
    text.push_str(digits.format(place.offset));
    text
}

/// A number on a line of its own.
fn number_line(number: u64) -> ArrayString<LONGEST_BODY>
    ensures { result.bytes ≡ decimal number ++ 10 ∷ [] }
{
    let mut digits = Buffer::new();
    let mut text = ArrayString::new();
    text.push_str(digits.format(number));
    text.push_str("\n");
    text
}

/// The body of a refusal's reply. It takes no memory.
pub(crate) fn refusal_body(refusal: &Refusal) -> ArrayString<LONGEST_BODY>
    ensures { result.bytes ≡ refusal_body refusal.now }
{
    let mut text = ArrayString::new();
    match refusal {
        Refusal::Moved { current } | Refusal::Stale { current } => return number_line(*current),
        Refusal::Faulty { place, kind } => {
            text.push_str(place_text(place).as_str());
            text.push_str(" ");
            text.push_str(kind.name());
            text.push_str("\n");
        }
        Refusal::Captured { used, by } => {
            text.push_str(place_text(used).as_str());
            text.push_str(" by ");
            match by {
                Some(place) => text.push_str(place_text(place).as_str()),
                None => text.push_str("universe"),
            }
            text.push_str("\n");
        }
        Refusal::Lost { used: place } | Refusal::Coupled { place } => {
            text.push_str(place_text(place).as_str());
            text.push_str("\n");
        }
        Refusal::Pending { package } => {
            text.push_str(package.as_str());
            text.push_str("\n");
        }
        _ => {}
    }
    text
}
