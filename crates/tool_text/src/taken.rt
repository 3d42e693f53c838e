//! Which folders and files Go takes, and which files have build constraints.
ghost use Rattle.std.specs.Prelude.{◌≡◌, ◌||◌, Some, false};
ghost use Rattle.tool_text.specs.GoMod.{is_padding};
ghost use Rattle.tool_text.specs.Parts.{parts};
ghost use Rattle.tool_text.specs.Taken.{
  begins_with_word,
  comment_mark,
  ends_inside,
  ends_word,
  has_build_line,
  has_go_build,
  has_plus_build,
  is_among,
  is_build_comment,
  is_go_build,
  is_hidden,
  is_platform,
  names_platform,
  takes_file,
  takes_folder,
  without_order_mark,
};

use crate::go_mod::{is_padding, trimmed};
use crate::parts::split_part;

/// Whether Go leaves out a folder or file of this name because it begins with `.` or `_`.
fn is_hidden(name: &[u8]) -> bool
    ensures { result ≡ is_hidden name.now }
{
    name.starts_with(b".") || name.starts_with(b"_")
}

/// Whether Go looks for packages in a folder of this name.
pub fn takes_folder(name: &[u8]) -> bool
    ensures { result ≡ takes_folder name.now }
{
    !(is_hidden(name) || name == b"vendor".as_slice() || name == b"testdata".as_slice())
}

/// Whether Go takes a file of this name as a file of a package, where no build constraint excludes it.
pub fn takes_file(name: &[u8]) -> bool
    ensures { result ≡ takes_file name.now }
{
    !is_hidden(name) && name.ends_with(b".go")
}

/// Whether nothing or a blank follows a word.
fn ends_word(rest: &[u8]) -> bool
    ensures { result ≡ ends_word rest.now }
{
    rest.is_empty() || is_padding(rest[0])
}

/// Whether a text begins with a word, with nothing or a blank behind it.
fn begins_with_word(text: &[u8], word: &[u8]) -> bool
    ensures { result ≡ begins_with_word text.now word.now }
{
    match text.strip_prefix(word) {
        Some(rest) => ends_word(rest),
        None => false,
    }
}

/// Whether a text is a comment that begins with `+build`.
fn is_build_comment(text: &[u8]) -> bool
    ensures { result ≡ is_build_comment text.now }
{
    match text.strip_prefix(b"//".as_slice()) {
        Some(comment) => begins_with_word(trimmed(comment), b"+build"),
        None => false,
    }
}

/// Whether a line is a build constraint `//go:build`.
fn is_go_build(line: &[u8]) -> bool
    ensures { result ≡ is_go_build line.now }
{
    begins_with_word(trimmed(line), b"//go:build")
}

/// The mark that ends the block comment in which a byte stands, or that begins one where it stands in none.
fn comment_mark(inside: bool) -> &'static [u8]
    ensures { result.now ≡ comment_mark inside }
{
    if inside { b"*/" } else { b"/*" }
}

/// Whether a byte that begins no mark is no text: it stands in a block comment, or is a blank.
fn is_no_text(byte: u8, inside: bool) -> bool
    ensures { result ≡ (inside || is_padding byte) }
{
    inside || is_padding(byte)
}

/// Whether a line that begins inside or outside a block comment ends inside one, or `None` where it has text that is no comment.
fn ends_inside(line: &[u8], inside: bool) -> Option<bool>
    ensures { result ≡ ends_inside inside line.now }
{
    let mut inside = inside;
    let mut at = 0;
    'bytes: while at < line.len() {
        let rest = &line[at..];
        if rest.starts_with(comment_mark(inside)) {
            inside = !inside;
            at += 2;
        } else if is_no_text(line[at], inside) {
            at += 1;
        } else if rest.starts_with(b"//") {
            return Some(false);
        } else {
            return None;
        }
    }
    Some(inside)
}

/// Whether a line before the package clause is a build constraint `//go:build`. It stands outside block comments.
fn has_go_build(text: &[u8]) -> bool
    ensures { result ≡ has_go_build (Some false) (parts 10 text.now) }
{
    let mut rest = Some(text);
    let mut inside = false;
    'lines: while let Some(lines) = rest {
        let (line, left) = split_part(lines, b'\n');
        if !inside && is_go_build(line) {
            return true;
        }
        match ends_inside(line, inside) {
            Some(is_inside) => inside = is_inside,
            None => return false,
        }
        rest = left;
    }
    false
}

/// Whether a comment `+build` is a build constraint. Only comments `//` and empty lines stand before it, and an empty line is one of those
/// that follow.
fn has_plus_build(text: &[u8]) -> bool
    ensures { result ≡ has_plus_build false (parts 10 text.now) }
{
    let mut rest = Some(text);
    let mut seen = false;
    'lines: while let Some(lines) = rest {
        let (line, left) = split_part(lines, b'\n');
        let code = trimmed(line);
        if code.is_empty() && seen {
            return true;
        }
        if !code.is_empty() && !code.starts_with(b"//") {
            return false;
        }
        seen = seen || is_build_comment(code);
        rest = left;
    }
    false
}

/// The text without a byte order mark at its begin, which Go skips.
fn without_order_mark(text: &[u8]) -> &[u8]
    ensures { result.now ≡ without_order_mark text.now }
{
    match text.strip_prefix(b"\xEF\xBB\xBF".as_slice()) {
        Some(rest) => rest,
        None => text,
    }
}

/// Whether a Go file has a build constraint.
pub fn has_build_line(text: &[u8]) -> bool
    ensures { result ≡ has_build_line text.now }
{
    let text = without_order_mark(text);
    has_go_build(text) || has_plus_build(text)
}

/// The names of operating systems and architectures that Go knows in names of files.
const PLATFORMS: &[u8] =
    b"aix android darwin dragonfly freebsd hurd illumos ios js linux nacl netbsd openbsd plan9 solaris wasip1 windows zos 386 amd64 amd64p32 arm armbe arm64 arm64be loong64 mips mipsle mips64 mips64le mips64p32 mips64p32le ppc ppc64 ppc64le riscv riscv64 s390 s390x sparc sparc64 wasm";

/// Whether a word is one of the words between blanks.
pub(crate) fn is_among(word: &[u8], words: &[u8]) -> bool
    ensures { result ≡ is_among word.now words.now }
{
    let mut rest = Some(words);
    'words: while let Some(more) = rest {
        let (first, left) = split_part(more, b' ');
        if first == word {
            return true;
        }
        rest = left;
    }
    false
}

/// Whether the word is the name of an operating system or an architecture.
fn is_platform(word: &[u8]) -> bool
    ensures { result ≡ is_platform word.now }
{
    is_among(word, PLATFORMS)
}

/// Whether the name of a file restricts it to an operating system or an architecture: its last part behind an `_`, or the one before
/// `test`, is the name of one.
pub fn names_platform(name: &[u8]) -> bool
    ensures { result ≡ names_platform name.now }
{
    let (stem, _) = split_part(name, b'.');
    let (_, mut rest) = split_part(stem, b'_');
    let mut before: &[u8] = b"";
    let mut last: &[u8] = b"";
    'parts: while let Some(parts) = rest {
        let (part, left) = split_part(parts, b'_');
        before = last;
        last = part;
        rest = left;
    }
    is_platform(if last == b"test".as_slice() {
        before
    } else {
        last
    })
}
