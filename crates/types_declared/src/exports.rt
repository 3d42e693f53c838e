//! Exported names (the Go specification, "Exported identifiers"), and which of them imported packages declare.
ghost use Rattle.std.specs.Prelude.{◌≡◌, ℕ, Bool, List};
ghost use Rattle.types_declared.specs.Laid.{is_exported};

use bstr::decode_utf8;
use unicode::properties::GeneralCategory;

/// The exported names of the packages that a package imports.
pub trait Exports {
    /// Whether the package at a path exports a name.
    ghost exported: { Self → (path name : List ℕ) → Bool };

    /// Whether the package at a path exports a name.
    fn exports(&self, path: &[u8], name: &[u8]) -> bool
        ensures { result ≡ exported self.now path.now name.now };
}

/// Whether a name is exported: its first character is an upper case letter (Unicode category Lu).
#[tactic(auto, unfolding(crate::specs::Laid::is_exported))]
pub fn is_exported(name: &[u8]) -> bool
    ensures { result ≡ is_exported name.now }
{
    match decode_utf8(name).0 {
        Some(first) => GeneralCategory::for_char(first) == GeneralCategory::UppercaseLetter,
        None => false,
    }
}
