//! Classifies the characters of which Go identifiers are made (Go specification, "Characters").
ghost use Rattle.std.specs.Prelude.{◌≡◌};
ghost use Rattle.go_scanner.specs.Characters.{is_letter, is_decimal_number, continues_name};

use unicode::properties::{GeneralCategory, GeneralCategoryGroup};

/// Whether `c` is a letter: its Unicode category is one of letters, or it is `_`.
#[tactic(auto, unfolding(crate::specs::Characters::is_letter))]
pub fn is_letter(c: char) -> bool
    ensures { result ≡ is_letter c }
{
    c == '_' || GeneralCategoryGroup::Letter.contains(GeneralCategory::for_char(c))
}

/// Whether `c` is a decimal digit of any script (Unicode category Nd).
#[tactic(auto, unfolding(crate::specs::Characters::is_decimal_number))]
fn is_decimal_number(c: char) -> bool
    ensures { result ≡ is_decimal_number c }
{
    GeneralCategory::for_char(c) == GeneralCategory::DecimalNumber
}

/// Whether `c` may follow the first letter of an identifier.
pub fn continues_name(c: char) -> bool
    ensures { result ≡ continues_name c }
{
    is_letter(c) || is_decimal_number(c)
}
