//! The laws of chapters, as contracts of functions that do nothing.
ghost use Rattle.law_chapters.specs.Chapters.{BordersDoNotCount, ChaptersGoOn, EntriesAreCounted, OneChapterIsReplayed};

/// A history without borders is one chapter, and chapters go on where the last one ended. The entries of those that were closed are counted.
pub fn chapters_are_replayed()
    ensures one { OneChapterIsReplayed }
    ensures more { ChaptersGoOn }
    ensures counted { EntriesAreCounted }
{}

/// The content at the end doesn't depend on where the journal was closed.
pub fn borders_do_not_count()
    ensures { BordersDoNotCount }
{}
