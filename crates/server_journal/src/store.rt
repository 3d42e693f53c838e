//! Stores of bytes that grow at their end.
ghost use Rattle.std.specs.Prelude.{ℕ, IfOk, List, OnErr, OnOk, Option};
ghost use Rattle.server_journal.specs.Stores.{Grows, GrowsInPart, HoldsBytes, Returns};

use std::io;

/// Bytes that grow at their end, as those of a file. Of a file no contract tells what it holds.
pub trait Store {
    /// What the store holds, if that is known.
    ghost holds: { Self → Option (List ℕ) };

    /// Adds bytes, and has them flushed. Where that fails, a first part of them may have been added.
    fn append(&mut self, bytes: &[u8]) -> io::Result<()>
        ensures ok { OnOk result (Grows (holds self.old) bytes.now (holds self.new)) }
        ensures err { OnErr result (GrowsInPart (holds self.old) (holds self.new)) };

    /// How many bytes the store holds.
    fn held_bytes(&self) -> io::Result<u64>
        ensures { IfOk result (HoldsBytes (holds self.now)) };

    /// Takes all bytes away behind the first `length`, and has that flushed.
    fn cut(&mut self, length: u64) -> io::Result<()>
        ensures { OnOk result (Returns (holds self.old) length (holds self.new)) };
}
