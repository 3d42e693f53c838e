//! Reads the word of a place: `PATH:#OFFSET` or `PATH:LINE:COLUMN`.
ghost use Rattle.std.specs.Prelude.{◌≡◌, ◌∷◌, ℕ, List, MatchOption};
ghost use Rattle.tool_text.specs.Parts.{SplitsAt};
ghost use Rattle.tool_text.specs.Places.{HasNoNumber, HasNoPlace, HasNoPosition, HasNoSpot, IsNumberText, IsPlaceWord, IsPositionWord, IsSpotWord};

use crate::positions::LinePosition;

/// Where in a file a place is: a byte offset from 0, or a position.
#[derive(Clone, Copy)]
pub enum Spot {
    Offset(usize),
    At(LinePosition),
}

/// A place as a word gives it.
#[derive(Clone, Copy)]
pub struct AskedPlace<'a> {
    pub path: &'a str,
    pub spot: Spot,
}

/// The parts of a text before and after its first colon.
fn split_colon(text: &str) -> Option<(&str, &str)>
    ensures { SplitsAt 58 text.now result }
{
    text.split_once(':')
}

/// The number that a text writes in decimal, or `None` where it writes none below 2^64.
fn number(text: &str) -> Option<usize>
    ensures { MatchOption result (HasNoNumber text.now) (IsNumberText text.now) }
{
    text.parse::<usize>().ok()
}

/// What follows the sign `#`, or `None` where the text does not begin with it.
fn behind_hash(text: &str) -> Option<&str>
    ensures { MatchOption result ((rest : List ℕ) → text.now ≡ 35 ∷ rest → ⊥) (λ rest. text.now ≡ 35 ∷ rest.now) }
{
    text.strip_prefix('#')
}

/// Reads a line and a column, with a colon between.
fn read_position(text: &str) -> Option<LinePosition>
    ensures { MatchOption result (HasNoPosition text.now) (IsPositionWord text.now) }
{
    let (line, column) = split_colon(text)?;
    let line = number(line)?;
    let column = number(column)?;
    Some(LinePosition { line, column })
}

/// Reads what follows the path and its colon.
fn read_spot(text: &str) -> Option<Spot>
    ensures { MatchOption result (HasNoSpot text.now) (IsSpotWord text.now) }
{
    match behind_hash(text) {
        Some(digits) => {
            let offset = number(digits)?;
            Some(Spot::Offset(offset))
        }
        None => {
            let position = read_position(text)?;
            Some(Spot::At(position))
        }
    }
}

/// Reads the word of a place.
pub fn read_place(word: &str) -> Option<AskedPlace<'_>>
    ensures { MatchOption result (HasNoPlace word.now) (IsPlaceWord word.now) }
{
    let (path, text) = split_colon(word)?;
    let spot = read_spot(text)?;
    Some(AskedPlace { path, spot })
}
