//! The shared bytes of one file.
ghost use Rattle.std.specs.Prelude.{◌≡◌, ℕ, ◌+◌, ◌<◌, List, length, take, count_by, ◌==◌, IfOk};
ghost use Rattle.std.proofs.Common.{rules};
ghost use Rattle.std.specs.Cmp.Rules.{comparing};
ghost use Rattle.std.specs.Cmp.Lexicographic.{pointwise};

use crate::bytes::same_bytes;
use base_chunks::{Same, Share};
use std::alloc::{AllocError, Global};
use std::marker::Model;
use std::sync::Arc;

/// The bytes of a file. A clone shares them.
#[derive(Drop)]
pub struct FileText {
    bytes: Arc<Vec<u8>, Global>,
}

impl Model for FileText {
    ghost use Rattle.std.specs.Prelude.{List, ℕ};
    ghost use Rattle.std.specs.Arc.{arc_value};

    ghost Value = { List ℕ };

    ghost view = { λ a. (arc_value a.bytes).items };
}

impl FileText {
    /// The text with these bytes.
    pub fn new(alloc: Global, bytes: Vec<u8>) -> Result<FileText, AllocError>
        ensures { IfOk result (λ text. text ≡ bytes.items) }
    {
        let bytes = Arc::new(alloc, bytes)?;
        Ok(FileText { bytes })
    }

    /// The bytes of the text.
    pub fn bytes(&self) -> &[u8]
        ensures { result.now ≡ self.now }
    {
        self.bytes.as_slice()
    }

    /// The number of bytes.
    pub fn len(&self) -> usize
        ensures { result ≡ length self.now }
    {
        self.bytes.len()
    }

    /// The line of a byte offset. Lines count from 1 and offsets from 0. An offset past the end is in the last line.
    pub fn line_of(&self, offset: usize) -> usize
        ensures { result ≡ count_by (λ byte. byte == 10) (take offset self.now) + 1 }
    {
        let end = offset.min(self.len());
        self.bytes()[..end]
            .iter()
            .filter(|byte| **byte == b'\n')
            .count()
            + 1
    }
}

impl Clone for FileText {
    ghost is_clone = { λ text copy. copy ≡ text };

    fn clone(&self) -> Result<FileText, AllocError> {
        let bytes = Arc::try_clone(&self.bytes)?;
        Ok(FileText { bytes })
    }
}

impl Share for FileText {
    fn share(&self) -> Result<FileText, AllocError> {
        self.clone()
    }
}

impl Same for FileText {
    fn same(&self, other: &FileText) -> bool {
        same_bytes(self.bytes(), other.bytes())
    }
}

impl PartialEq for FileText {
    ghost eq = { pointwise ◌==◌ };

    ghost laws = { Prim.search (comparing, rules) };

    fn eq(&self, other: &FileText) -> bool {
        same_bytes(self.bytes(), other.bytes())
    }
}

impl Eq for FileText {
    ghost laws = { Prim.search (comparing, rules) };
}
