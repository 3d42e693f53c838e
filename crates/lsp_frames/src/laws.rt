//! Laws of frames.
ghost use Rattle.lsp_frames.specs.Laws.{FramesAreRead, HeadsSayOneThing};

/// An input begins with one header at most.
pub fn heads_say_one_thing()
    ensures { HeadsSayOneThing }
{}

/// The header of each frame is read, and says the length of the body.
pub fn frames_are_read()
    ensures { FramesAreRead }
{}
