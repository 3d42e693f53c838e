//! Frames: the header and the text of a value.
ghost use Rattle.std.specs.Prelude.{◌≡◌, IfOk};
ghost use Rattle.serde_json.specs.View.{view};
ghost use Rattle.lsp_message.specs.Frames.{IsFrameOf, frame_of};

use itoa::Buffer;
use serde_json::Value;
use std::alloc::{AllocError, Global};

/// A body with its header.
fn framed(alloc: Global, body: &[u8]) -> Result<Vec<u8>, AllocError>
    ensures { IfOk result (λ bytes. bytes.items ≡ frame_of body.now) }
{
    let mut digits = Buffer::new();
    let mut bytes = Vec::from_slice(alloc, b"Content-Length: ")?;
    bytes.extend_from_slice(digits.format(body.len()).as_bytes())?;
    bytes.extend_from_slice(b"\r\n\r\n")?;
    bytes.extend_from_slice(body)?;
    Ok(bytes)
}

/// The frame of a value.
pub fn frame(alloc: Global, value: &Value) -> Result<Vec<u8>, AllocError>
    ensures { IfOk result (λ bytes. IsFrameOf (view value.now) bytes.items) }
{
    let text = value.to_string(alloc)?;
    framed(alloc, text.as_bytes())
}
