//! Laws of headers and frames.
ghost use Rattle.lsp_message.specs.Laws.{HeadersOfFrames, LinesSayOneThing};

/// The header lines of a frame are read: the first gives the length of the body, and the second ends the header.
pub fn headers_of_frames()
    ensures { HeadersOfFrames }
{}

/// A line says one thing.
pub fn lines_say_one_thing()
    ensures { LinesSayOneThing }
{}
