//! Takes texts apart at a byte.
ghost use Rattle.std.specs.Prelude.{◌≡◌, ◌<◌, ◌≤◌, ◌==◌, IfSome, length};
ghost use Rattle.std.specs.List.{before_first, position_or_len};
ghost use Rattle.tool_text.specs.Parts.{SplitsPart};

/// How many bytes stand before the first `mark` of a text.
pub(crate) fn part_len(text: &[u8], mark: u8) -> usize
    ensures len { result ≡ position_or_len (λ byte. byte == mark) text.now }
    ensures within { result ≤ length text.now }
{
    let mut end = 0;
    while end < text.len() && text[end] != mark {
        end += 1;
    }
    end
}

/// The part of a text before its first `mark`, and what follows the mark, or `None` where it has none.
pub(crate) fn split_part(text: &[u8], mark: u8) -> (&[u8], Option<&[u8]>)
    ensures first { result.0.now ≡ before_first (λ byte. byte == mark) text.now }
    ensures parts { SplitsPart mark text.now result.0.now result.1 }
    ensures shorter { IfSome result.1 (λ rest. length rest.now < length text.now) }
{
    let len = part_len(text, mark);
    if len < text.len() {
        (&text[..len], Some(&text[len + 1..]))
    } else {
        (text, None)
    }
}
