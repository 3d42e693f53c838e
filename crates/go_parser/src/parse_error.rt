//! The errors of parsing a token list.
ghost use Rattle.std.specs.Prelude.{◌≡◌};
ghost use Rattle.go_parser.specs.declared.parse_error.ParseError.TheVariants.{Memory};

use go_ast::syntax::TokenFaultKind;
use std::alloc::{AllocError, AllocFailed};

/// Why a token list is not parsed: too little memory, or a fault with this number of tokens left, the one at fault among them.
#[derive(Clone, Copy, PartialEq, Eq, Debug)]
pub enum ParseError {
    Memory,
    Fault(TokenFaultKind, usize),
}

impl From<AllocError> for ParseError {
    ghost from_gives = { λ _ e. e ≡ Memory };

    fn from(_e: AllocError) -> ParseError {
        ParseError::Memory
    }
}

impl<T: Drop> From<AllocFailed<T>> for ParseError {
    ghost from_gives = { λ _ e. e ≡ Memory };

    fn from(_e: AllocFailed<T>) -> ParseError {
        ParseError::Memory
    }
}
