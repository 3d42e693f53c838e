//! Laws of documents and URIs.
ghost use Rattle.lsp_documents.specs.Laws.{ChangesMakeOneText, OrderedPartsMakeTexts, UrisNamePaths};

/// Content changes make one text, or none.
pub fn changes_make_one_text()
    ensures { ChangesMakeOneText }
{}

/// A part whose end does not lie before its start makes a text.
pub fn ordered_parts_make_texts()
    ensures { OrderedPartsMakeTexts }
{}

/// The URI of an absolute path names this path.
pub fn uris_name_paths()
    ensures { UrisNamePaths }
{}
