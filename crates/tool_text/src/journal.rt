//! The lines of a journal of a command that writes files, as they are written and read.
ghost use Rattle.std.specs.Prelude.{◌≡◌, ◌↔◌, ◌++◌, IfOk, IsTrue, OnOk};
ghost use Rattle.tool_text.specs.Journal.{bare_texts, lines_text};
ghost use Rattle.tool_text.specs.Parts.{HasNoByte, parts};

use crate::parts::split_part;
use std::alloc::{AllocError, Global};

/// Whether a text has no line feed, so that it can stand in a line.
pub fn is_line(text: &str) -> bool
    ensures { IsTrue result ↔ HasNoByte 10 text.now }
{
    text.as_bytes().iter().all(|byte| *byte != b'\n')
}

/// Appends lines, each with a line feed behind it.
pub fn push_lines(text: &mut Vec<u8>, lines: &[&str]) -> Result<(), AllocError>
    ensures { OnOk result (text.new.items ≡ text.old.items ++ lines_text lines.now) }
{
    for line in lines {
        text.extend_from_slice(line.as_bytes())?;
        text.push(b'\n')?;
    }
    Ok(())
}

/// The parts of a text between its line feeds. Behind the last line feed there is a part too.
#[tactic(auto, using(crate::proofs::Journals::reading_step))]
pub fn read_lines(alloc: Global, text: &[u8]) -> Result<Vec<&[u8]>, AllocError>
    ensures { IfOk result (λ lines. bare_texts lines.items ≡ parts 10 text.now) }
{
    let mut lines = Vec::new(alloc);
    let mut rest = Some(text);
    'reading: while let Some(more) = rest {
        let (line, left) = split_part(more, b'\n');
        lines.push(line)?;
        rest = left;
    }
    Ok(lines)
}
