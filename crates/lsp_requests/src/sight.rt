//! What a look shows, and by what answers are told of it.
ghost use Rattle.std.specs.Prelude.{◌≡◌};

use base_files::Files;
use history_machine::View;
use lsp_edits::Telling;

/// What a look shows, and by what answers are told of it.
#[derive(Clone, Copy)]
pub(crate) struct Sight<'a> {
    pub telling: Telling<'a>,
    pub view: &'a View,
}

/// The files that a look shows.
pub(crate) fn files_of(view: &View) -> &Files
    ensures { result.now ≡ view.now.snapshot.files }
{
    view.snapshot.files().files()
}

impl<'a> Sight<'a> {
    /// The files.
    pub(crate) fn files(self) -> &'a Files
        ensures { result.now ≡ self.entry.view.now.snapshot.files }
    {
        files_of(self.view)
    }
}
