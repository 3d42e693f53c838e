//! Code that is being made, from its last line to its first. So the target of a jump is known when the jump is made.
ghost use Rattle.std.specs.Prelude.{◌≡◌, ◌<◌, ◌∷◌, ◌++◌, [], suc, List, length, map, reverse, OnOk};
ghost use Rattle.build_object.specs.Lines.{CodeLine, JumpBack, pops};
ghost use Rattle.build_object.specs.LineView.{line_of, lines_in, Puts};

use crate::instructions::Instruction;
use std::alloc::{AllocError, Global};

/// The lines of a function's code, the last line first.
#[derive(Drop)]
pub struct Code<'a> {
    lines: Vec<Instruction<'a>>,
}

impl<'a> Code<'a> {
    /// Code without lines.
    pub fn new(alloc: Global) -> Code<'a>
        ensures { lines_in result ≡ [] }
    {
        Code {
            lines: Vec::new(alloc),
        }
    }

    /// The number of lines.
    #[tactic(auto, using(crate::proofs::Putting::lines_length))]
    pub fn len(&self) -> usize
        ensures { result ≡ length (lines_in self.now) }
    {
        self.lines.len()
    }

    /// The lines, the last line first.
    pub fn lines(&self) -> &[Instruction<'a>]
        ensures { reverse (map line_of result.now) ≡ lines_in self.now }
    {
        &self.lines
    }

    /// Puts a line before the others.
    pub fn put(&mut self, line: Instruction<'a>) -> Result<(), AllocError>
        ensures { OnOk result (Puts (line_of line.entry ∷ []) self.old self.new) }
    {
        self.lines.push(line)?;
        Ok(())
    }

    /// Puts lines that drop `count` values before the others.
    pub fn put_pops(&mut self, count: usize) -> Result<(), AllocError>
        ensures { OnOk result (Puts (pops count) self.old self.new) }
    {
        for _turn in 0..count {
            self.put(Instruction::Pop)?;
        }
        Ok(())
    }

    /// Replaces the line before the last `end` lines by a jump back to the first line of the code.
    pub fn turn_back(&mut self, end: usize)
        requires { end < length (lines_in self.old) }
        ensures { (lines rest : List CodeLine) (l : CodeLine) → length rest ≡ end → lines_in self.old ≡ lines ++ (l ∷ rest) → lines_in self.new ≡ lines ++ (JumpBack (suc (length lines)) ∷ rest) }
    {
        let passed = self.lines.len() - end;
        self.lines[end] = Instruction::JumpBack(passed);
    }
}
