//! Parses the tokens of a file into its syntax tree.
ghost use Rattle.std.specs.Prelude.{◌≡◌, IfOk, IfErr};
ghost use Rattle.go_ast.specs.Kinds.{kinds_of};
ghost use Rattle.go_parser.specs.ParseResults.{IsRefusalOfTokens, IsParseResult, refusal_of};
ghost use Rattle.go_ast.specs.Verdict.{IsWhole};
ghost use Rattle.go_parser.specs.Spelling.{file_spelled};
ghost use Rattle.go_ast.specs.FileView.{file_view};
ghost use Rattle.go_ast.specs.WellFormed.{IsFile, IsTreeOf};

use crate::file::file;
use crate::kinds::{kinds_of, place_of};
use crate::parse_error::ParseError;
use crate::refusal::ParseRefusal;
use crate::tokens::bad_token;
use go_ast::syntax::{Token, TokenFaultKind};
use go_ast::tree::File;
use go_scanner::{Pieces, TextFault};
use std::alloc::{AllocError, Global};

/// A file's syntax tree with its tokens.
#[derive(Drop)]
pub struct Tree {
    pub file: File,
    pub(crate) tokens: Vec<Token>,
    ghost spelled: { tokens.items ≡ file_spelled file },
}

/// The syntax tree of all the tokens, or the first fault.
fn whole(alloc: Global, tokens: &[Token]) -> Result<File, ParseError>
    ensures exact { IsParseResult file_spelled tokens.now result }
    ensures formed { IfOk result (λ file. IsFile (file_view file)) }
{
    let (file, rest) = file(alloc, tokens, 0)?;
    if rest.is_empty() {
        Ok(file)
    } else {
        Err(bad_token(rest))
    }
}

/// The refusal for an error: a fault is at the offset of its token, or at the end of the file.
fn refusal(pieces: &Pieces, error: ParseError) -> ParseRefusal
    ensures { result ≡ refusal_of pieces.now error }
{
    match error {
        ParseError::Memory => ParseRefusal::Memory,
        ParseError::Fault(kind, left) => {
            let offset = place_of(pieces, left);
            let kind = match kind {
                TokenFaultKind::Syntax => base_files::FaultKind::Syntax,
                TokenFaultKind::Nesting => base_files::FaultKind::Nesting,
            };
            ParseRefusal::Fault(TextFault { offset, kind })
        }
    }
}

/// The syntax tree of a file, or its first fault of kind `syntax` or `nesting`.
pub fn parse(alloc: Global, pieces: &Pieces) -> Result<Tree, ParseRefusal>
    ensures tree { IfOk result (λ tree. IsTreeOf (file_view tree.file) (kinds_of pieces.now)) }
    ensures text { IfOk result (λ tree. IsWhole (kinds_of pieces.now)) }
    ensures refused { IfErr result (IsRefusalOfTokens pieces.now) }
{
    let tokens = kinds_of(alloc, pieces)?;
    match whole(alloc, &tokens) {
        Ok(file) => Ok(Tree { file, tokens }),
        Err(error) => Err(refusal(pieces, error)),
    }
}

/// The tokens of a syntax tree, in order.
pub fn flatten(alloc: Global, tree: &Tree) -> Result<Vec<Token>, AllocError>
    ensures { IfOk result (λ tokens. tokens.items ≡ file_spelled tree.now.file) }
{
    tree.tokens.to_vec(alloc)
}
