//! The paths that file URIs name, and back.
ghost use Rattle.std.specs.Prelude.{◌≡◌, ◌↔◌, IfOk, IsTrue, MatchOption, option_map, string_bytes};
ghost use Rattle.lsp_documents.specs.Uris.{BeginsWithSlash, HasNoRest, IsRestBehind, IsFileUri, IsPathIn, IsWithoutHost, uri_text};

use percent_encoding::{AsciiSet, NON_ALPHANUMERIC, ascii_set, percent_decode, percent_encode};
use std::alloc::{AllocError, Global};

/// The bytes of a path that a URI escapes, but for those outside ASCII, which it escapes too.
pub(crate) const ESCAPED: AsciiSet = ascii_set!(
    NON_ALPHANUMERIC
        .remove(b'/')
        .remove(b'-')
        .remove(b'.')
        .remove(b'_')
        .remove(b'~')
);

/// What follows a front of a text, or `None` where the text does not begin with it.
pub fn text_behind<'a>(front: &str, text: &'a str) -> Option<&'a str>
    ensures { IsRestBehind front.now text.now (option_map (λ rest. rest.now) result) }
{
    text.strip_prefix(front)
}

/// The path of what follows the scheme: without the host, where that is this one.
fn without_host(rest: &str) -> &str
    ensures { IsWithoutHost rest.now result.now }
{
    match text_behind("localhost", rest) {
        Some(path) => path,
        None => rest,
    }
}

/// Whether the text begins with a slash.
fn begins_with_slash(text: &str) -> bool
    ensures { IsTrue result ↔ BeginsWithSlash text.now }
{
    text_behind("/", text).is_some()
}

/// What follows the scheme and the host of a file URI. The host is none, or this one.
fn escaped_path(uri: &str) -> Option<&str>
    ensures { MatchOption result (HasNoRest uri.now) (λ rest. IsFileUri uri.now rest.now) }
{
    let path = without_host(text_behind("file://", uri)?);
    if begins_with_slash(path) {
        Some(path)
    } else {
        None
    }
}

/// The path that a URI names, or `None` where it names no file.
pub fn path_in(alloc: Global, uri: &str) -> Result<Option<Vec<u8>>, AllocError>
    ensures { IfOk result (λ path. MatchOption path (HasNoRest uri.now) (λ v. IsPathIn uri.now v.items)) }
{
    match escaped_path(uri) {
        Some(escaped) => {
            let mut path = Vec::new(alloc);
            percent_decode(escaped.as_bytes()).append_to(&mut path)?;
            Ok(Some(path))
        }
        None => Ok(None),
    }
}

/// The URI of an absolute path.
pub fn uri_of(alloc: Global, path: &[u8]) -> Result<String, AllocError>
    ensures { IfOk result (λ uri. string_bytes uri ≡ uri_text path.now) }
{
    let mut uri = String::from_str(alloc, "file://")?;
    percent_encode(path, ESCAPED).append_to(&mut uri)?;
    Ok(uri)
}
