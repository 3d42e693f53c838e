//! Cuts Go source into pieces and tokens.
//!
//! Crates above rely on: `scan` returns the cut of a text into pieces (`IsCut`), or its first fault. Each text has exactly one of these
//! two. The tokens are the pieces without blanks and comments, with the semicolons that Go inserts. A file keeps each in twelve bytes.
#![tactic(auto)]

mod characters;
mod compact_piece;
mod encoding;
mod front;
mod integers;
mod keywords;
pub mod laws;
mod leading_bytes;
mod operators;
mod piece;
mod pieces;
mod refusal;
mod scanner;
mod string_values;
mod strings;
mod tokens;
mod trail;
mod trivia;
mod words;

pub use characters::{continues_name, is_letter};
pub use compact_piece::{CompactPiece, short_number};
pub use front::name_len;
pub use integers::integer_value;
pub use keywords::Keyword;
pub use operators::Operator;
pub use piece::{Class, Piece};
pub use pieces::Pieces;
pub use refusal::{ScanRefusal, TextFault};
pub use scanner::scan;
pub use string_values::string_value;
