//! The edits of one text.
ghost use Rattle.std.specs.Prelude.{◌≡◌};

use base_files::{FileText, Span};
use std::marker::Model;

/// Replaces the bytes of a span by those of `text`. The span of an insertion is empty.
#[derive(Drop)]
pub struct Edit {
    pub span: Span,
    pub text: FileText,
}

/// The edits of one file, in order.
#[derive(Drop)]
pub struct Edits {
    edits: Vec<Edit>,
}

impl Model for Edits {
    ghost use Rattle.std.specs.Prelude.{List};
    ghost use Rattle.base_edits.specs.declared.edit.Edit.{Edit};

    ghost Value = { List Edit };

    ghost view = { λ a. a.edits.items };
}

impl Edits {
    /// The edits of a list.
    pub fn new(edits: Vec<Edit>) -> Edits
        ensures { result ≡ edits.items }
    {
        Edits { edits }
    }

    /// The edits as a slice.
    pub fn as_slice(&self) -> &[Edit]
        ensures { result.now ≡ self.now }
    {
        self.edits.as_slice()
    }
}
