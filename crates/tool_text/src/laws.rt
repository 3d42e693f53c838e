//! Laws of positions and of journals.
ghost use Rattle.tool_text.specs.Laws.{LinesAreRead, PositionsTellOffsets};

/// Two offsets of a text that have the same position are the same.
pub fn positions_tell_offsets()
    ensures { PositionsTellOffsets }
{}

/// The lines of a journal are read as they were written.
pub fn lines_are_read()
    ensures { LinesAreRead }
{}
