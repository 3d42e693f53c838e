//! Reads the frames of the language server protocol from a source of bytes: a header, and the body whose length it gives.
//!
//! Crates above rely on: `read_frame` reads the frame with which the input begins, and nothing beyond it (`ReadsFrame`). A body over the
//! limit is read and dropped. `frames_are_read` says that each frame that this server writes is read as its body.
#![tactic(auto)]

mod frames;
mod heads;
pub mod laws;

pub use frames::{Frame, read_frame};
pub use heads::HeaderRoom;
