//! Two texts side by side, line by line.
ghost use Rattle.std.specs.Prelude.{◌≡◌, IfOk, length};
ghost use Rattle.tool_text.specs.Diff.{ArePairs, TakesLine, is_even};

use crate::parts::part_len;
use std::alloc::{AllocError, Global};

/// A line of the old text, and the line of the new text beside it, each with its line feed. One is empty where a text has no more lines.
#[derive(Clone, Copy)]
pub(crate) struct LinePair<'a> {
    pub old: &'a [u8],
    pub new: &'a [u8],
}

impl LinePair<'_> {
    /// Whether both lines are the same.
    pub(crate) fn is_even(&self) -> bool
        ensures { result ≡ is_even self.now }
    {
        self.old == self.new
    }
}

/// Takes the first line off a text, with its line feed. The line of an empty text is empty.
fn take_line(text: &[u8]) -> (&[u8], &[u8])
    ensures { TakesLine text.now result.0.now result.1.now }
{
    let len = part_len(text, b'\n');
    let end = if len < text.len() { len + 1 } else { len };
    (&text[..end], &text[end..])
}

/// The lines of two texts, side by side.
pub(crate) fn pairs<'a>(
    alloc: Global,
    old: &'a [u8],
    new: &'a [u8],
) -> Result<Vec<LinePair<'a>>, AllocError>
    ensures { IfOk result (λ pairs. ArePairs old.now new.now pairs.items) }
{
    let mut pairs = Vec::new(alloc);
    let mut olds = old;
    let mut news = new;
    'lines: while !olds.is_empty() || !news.is_empty() {
        let (old, olds_left) = take_line(olds);
        let (new, news_left) = take_line(news);
        pairs.push(LinePair { old, new })?;
        olds = olds_left;
        news = news_left;
    }
    Ok(pairs)
}
