//! The byte of a file that a request asks for.
ghost use Rattle.std.specs.Prelude.{◌≡◌};
ghost use Rattle.lsp_params.specs.Asked.{place_view};
ghost use Rattle.lsp_told.specs.Asking.{FindsByte, FindsByteIn, FindsPath, IsAskedOffset, ReadsName, unnamed_fault};

use crate::fault::AskFault;
use base_files::{Files, Path, Refusal};
use lsp_edits::{Telling, identifier_begin, name_in};
use lsp_params::AskedAt;
use lsp_position::{EditorPosition, PositionEncoding, offset_at};
use std::alloc::Global;

/// A byte of a file: the file's path and the offset.
#[derive(Drop)]
pub struct AskedByte {
    pub path: Path,
    pub offset: usize,
}

/// Why a name that is no path names no file.
fn why_unnamed(refusal: Refusal) -> AskFault
    ensures { result ≡ unnamed_fault refusal }
{
    match refusal {
        Refusal::Memory => AskFault::Memory,
        _ => AskFault::Refused(Refusal::NoFile),
    }
}

/// Reads a name as the path of a file.
fn path_named(alloc: Global, name: &str) -> Result<Path, AskFault>
    ensures { ReadsName name.now result }
{
    match Path::read(alloc, name, 2) {
        Ok(path) => Ok(path),
        Err(refusal) => Err(why_unnamed(refusal)),
    }
}

/// The path of the file that a URI names.
fn path_asked(alloc: Global, telling: Telling<'_>, uri: &str) -> Result<Path, AskFault>
    ensures { FindsPath telling.entry uri.now result }
{
    match name_in(alloc, telling.naming, uri)? {
        Some(name) => path_named(alloc, name.as_str()),
        None => Err(AskFault::Refused(Refusal::NoFile)),
    }
}

/// The offset of a position: the begin of the identifier in which or behind which it stands, or else its own.
fn asked_offset(encoding: PositionEncoding, text: &[u8], position: EditorPosition) -> usize
    ensures { IsAskedOffset encoding text.now position result }
{
    identifier_begin(text, offset_at(encoding, text, position))
}

/// The byte of a position in the file of a path.
fn byte_in(
    telling: Telling<'_>,
    files: &Files,
    path: Path,
    position: EditorPosition,
) -> Result<AskedByte, AskFault>
    ensures { FindsByteIn telling.entry.abilities.encoding files.now path position result }
{
    match files.get(&path) {
        Some(text) => {
            let offset = asked_offset(telling.abilities.encoding, text.bytes(), position);
            Ok(AskedByte { path, offset })
        }
        None => Err(AskFault::Refused(Refusal::NoFile)),
    }
}

/// The byte that a request asks for.
pub fn byte_asked(
    alloc: Global,
    telling: Telling<'_>,
    files: &Files,
    at: AskedAt<'_>,
) -> Result<AskedByte, AskFault>
    ensures { FindsByte telling.entry files.now (place_view at.entry) result }
{
    match path_asked(alloc, telling, at.uri) {
        Ok(path) => byte_in(telling, files, path, at.position),
        Err(fault) => Err(fault),
    }
}
