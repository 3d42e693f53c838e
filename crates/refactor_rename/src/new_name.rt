//! Which texts are names that a rename can give.
ghost use Rattle.std.specs.Prelude.{◌≡◌, ◌↔◌, IsTrue};
ghost use Rattle.std.specs.List.{list_all};
ghost use Rattle.std.specs.Str.{chars};
ghost use Rattle.go_scanner.specs.Characters.{continues_name};
ghost use Rattle.go_scanner.specs.Keywords.{keyword_spelling, all_keywords};
ghost use Rattle.go_scanner.specs.Words.{IsWord};
ghost use Rattle.go_scanner.specs.declared.piece.Class.TheVariants.{Name};
ghost use Rattle.go_scanner.specs.Pieces.{IsPiece};
ghost use Rattle.refactor_rename.specs.NewName.{IsNewName, IsReserved, starts_with_letter, is_other_text};

use go_scanner::{Keyword, continues_name, is_letter};

/// Whether a text begins with a letter.
fn starts_with_letter(name: &str) -> bool
    ensures { result ≡ starts_with_letter (chars name.now) }
{
    match name.chars().next() {
        None => false,
        Some(c) => is_letter(c),
    }
}

/// Whether each character of a text is a letter or a decimal digit.
fn all_continue(name: &str) -> bool
    ensures { result ≡ list_all continues_name (chars name.now) }
{
    name.chars().all(|c| continues_name(c))
}

/// Whether a text is a letter followed by letters and decimal digits.
fn is_word(name: &str) -> bool
    ensures { IsTrue result ↔ IsWord name.now }
{
    starts_with_letter(name) && all_continue(name)
}

/// Whether a text differs from a keyword.
fn is_other(k: Keyword, name: &str) -> bool
    ensures { result ≡ is_other_text (keyword_spelling k) name.now }
{
    k.spelling() != name.as_bytes()
}

/// Whether a text is no keyword.
fn is_no_keyword(name: &str) -> bool
    ensures { result ≡ list_all (λ k. is_other_text (keyword_spelling k) name.now) all_keywords }
{
    Keyword::ALL.iter().all(|k| is_other(*k, name))
}

/// Whether a text is an identifier.
fn is_name(name: &str) -> bool
    ensures { IsTrue result ↔ IsPiece Name name.now }
{
    is_word(name) && is_no_keyword(name)
}

/// Whether a text has the form of a new name: an identifier of at most 255 bytes that is not `_`.
pub fn is_new_name(name: &str) -> bool
    ensures { IsTrue result ↔ IsNewName name.now }
{
    name.len() <= 255 && name != "_" && is_name(name)
}

/// Whether a name is `init` or `main`, which no declaration of a package block and no import can get.
pub(crate) fn is_reserved(name: &[u8]) -> bool
    ensures { IsTrue result ↔ IsReserved name.now }
{
    name == b"init".as_slice() || name == b"main".as_slice()
}
