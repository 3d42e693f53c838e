//! Paths of files and packages.
ghost use Rattle.std.specs.Prelude.{◌≡◌, ◌==◌, ℕ, List, IsTrue, ◌↔◌, ◌≤◌, length};
ghost use Rattle.std.specs.List.{list_all};
ghost use Rattle.base_files.specs.Path.{is_path_byte, is_dots, is_segment, segments, IsPath, folder};
ghost use Rattle.base_files.specs.Packages.{is_go};
ghost use Rattle.base_files.specs.PathRead.{ReadsPath};
ghost use Rattle.std.proofs.Common.{rules};
ghost use Rattle.std.specs.Cmp.{partial_order_from_own_ties};
ghost use Rattle.std.specs.Cmp.Rules.{comparing};
ghost use Rattle.std.specs.Cmp.Lexicographic.{pointwise, slice_cmp};
ghost use Rattle.std.specs.Ordering.{nat_cmp, as_partial_cmp};

use crate::refusal::Refusal;
use base_chunks::{Same, Share};
use std::alloc::{AllocError, Global};
use std::cmp::Ordering;
use std::marker::Model;
use std::sync::Arc;

/// The path of a file or a package. Paths are ordered by their bytes. A clone shares them.
#[derive(Drop)]
pub struct Path {
    text: Arc<String, Global>,
}

impl Model for Path {
    ghost use Rattle.std.specs.Prelude.{List, ℕ, string_bytes};
    ghost use Rattle.std.specs.Arc.{arc_value};
    ghost use Rattle.base_files.specs.Path.{IsPath};

    ghost Value = { List ℕ };

    ghost view = { λ a. string_bytes (arc_value a.text) };

    ghost invariant = { λ a. IsPath 1 (string_bytes (arc_value a.text)) };
}

/// Whether a byte may be in a path: an ASCII letter or digit, or one of `_ - . ~ +`.
fn is_path_byte(byte: u8) -> bool
    ensures { result ≡ is_path_byte byte }
{
    byte.is_ascii_alphanumeric() || matches!(byte, b'_' | b'-' | b'.' | b'~' | b'+')
}

/// Whether a segment is `.` or `..`.
fn is_dots(segment: &[u8]) -> bool
    ensures { result ≡ is_dots segment.now }
{
    segment == b".".as_slice() || segment == b"..".as_slice()
}

/// Whether all bytes may be in a path.
fn all_path_bytes(bytes: &[u8]) -> bool
    ensures { result ≡ list_all is_path_byte bytes.now }
{
    bytes.iter().all(|byte| is_path_byte(*byte))
}

/// Whether the bytes are a segment of a path.
fn is_segment(segment: &[u8]) -> bool
    ensures { result ≡ is_segment segment.now }
{
    !(segment.is_empty() || is_dots(segment)) && all_path_bytes(segment)
}

/// The number of parts between slashes.
fn segment_count(text: &[u8]) -> usize
    ensures { result ≡ length (segments text.now) }
{
    text.iter().filter(|byte| **byte == b'/').count() + 1
}

/// Whether each part between slashes is a segment.
fn all_segments(text: &[u8]) -> bool
    ensures { result ≡ list_all is_segment (segments text.now) }
{
    text.split(|byte| *byte == b'/')
        .all(|segment| is_segment(segment))
}

/// Whether the text is a path of at least `least` segments and at most 255 bytes.
fn is_path(text: &[u8], least: usize) -> bool
    ensures { IsTrue result ↔ IsPath least text.now }
{
    if text.len() > 255 || segment_count(text) < least {
        return false;
    }
    all_segments(text)
}

/// The path without its last segment and the slash before that.
fn without_last_segment(path: &[u8]) -> &[u8]
    ensures { result.now ≡ folder path.now }
{
    let mut end = path.len();
    while end > 0 && path[end - 1] != b'/' {
        end -= 1;
    }
    &path[..end.saturating_sub(1)]
}

impl Path {
    /// Reads a path of at least `least` segments. Refuses any other text with `BadPath`.
    pub fn read(alloc: Global, text: &str, least: usize) -> Result<Path, Refusal>
        requires { 1 ≤ least }
        ensures { ReadsPath least text.now result }
    {
        if !is_path(text.as_bytes(), least) {
            return Err(Refusal::BadPath);
        }
        let text = text.to_string(alloc)?;
        let text = Arc::new(alloc, text)?;
        Ok(Path { text })
    }

    /// The path as text.
    pub fn as_str(&self) -> &str
        ensures text { result.now ≡ self.now }
        ensures path { IsPath 1 self.now }
    {
        self.text.as_str()
    }

    /// The bytes of the path without its last segment: of a Go file, the path of its package.
    pub fn folder(&self) -> &[u8]
        ensures { result.now ≡ folder self.now }
    {
        without_last_segment(self.text.as_bytes())
    }

    /// Whether the path ends in `.go`.
    pub fn is_go(&self) -> bool
        ensures { result ≡ is_go self.now }
    {
        self.text.as_bytes().ends_with(b".go".as_slice())
    }
}

impl Clone for Path {
    ghost is_clone = { λ path copy. copy ≡ path };

    fn clone(&self) -> Result<Path, AllocError> {
        let text = Arc::try_clone(&self.text)?;
        Ok(Path { text })
    }
}

impl Share for Path {
    fn share(&self) -> Result<Path, AllocError> {
        self.clone()
    }
}

impl Same for Path {
    fn same(&self, other: &Path) -> bool {
        *self == *other
    }
}

impl PartialEq for Path {
    ghost eq = { pointwise ◌==◌ };

    ghost laws = { Prim.search (comparing, rules) };

    fn eq(&self, other: &Path) -> bool {
        let text = self.text.as_str();
        text == other.text.as_str()
    }
}

impl Eq for Path {
    ghost laws = { Prim.search (comparing, rules) };
}

impl PartialOrd for Path {
    ghost partial_cmp = { as_partial_cmp (slice_cmp nat_cmp) };

    ghost laws = { partial_order_from_own_ties (Prim.search (comparing, rules)) (Prim.search (comparing, rules)) };

    fn partial_cmp(&self, other: &Path) -> Option<Ordering> {
        Some(self.cmp(other))
    }
}

impl Ord for Path {
    ghost cmp = { slice_cmp nat_cmp };

    ghost total = { Prim.search (comparing, rules) };

    ghost matches_partial_cmp = { Prim.search (comparing, rules) };

    ghost matches_eq = { Prim.search (comparing, rules) };

    fn cmp(&self, other: &Path) -> Ordering {
        let text = self.text.as_str();
        text.cmp(other.text.as_str())
    }
}
