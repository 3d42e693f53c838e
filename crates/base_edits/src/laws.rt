//! Laws of edits: each is the contract of a function that does nothing.
ghost use Rattle.base_edits.specs.Laws.{KeepsOrder, KeepsOtherBytes, PutsNewBytes, MovesTheEnd, ReversedRestore, HasEachFile};

/// Offsets keep their order where the lower one lies strictly inside no span. The end of the old text moves to the end of the new one.
pub fn edits_keep_order()
    ensures order { KeepsOrder }
    ensures end { MovesTheEnd }
{}

/// Bytes that no span overlaps are found in the new text where they are moved to. The new bytes of a span are found at its moved start.
pub fn edits_keep_other_bytes()
    ensures kept { KeepsOtherBytes }
    ensures put { PutsNewBytes }
{}

/// Reversed edits restore the old text.
pub fn reversed_edits_restore()
    ensures { ReversedRestore }
{}

/// After an edit set that fits, each file is an added one, or a file of the workspace before after its change.
pub fn each_path_gets_one_file()
    ensures { HasEachFile }
{}
