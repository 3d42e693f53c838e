//! A list that exists only in proofs.
ghost use Rattle.std.specs.Prelude.{◌≡◌, List, [], ◌∷◌, ◌++◌};
ghost use Rattle.std.specs.Borrow.{ftrue};
ghost use Rattle.std.specs.Coded.{coded_list};
ghost use Rattle.go_scanner.specs.CutText.{HasTokens, IsCutText};

use crate::compact_piece::CompactPiece;
use crate::piece::Piece;
use base_files::FileText;
use std::marker::{Model, PhantomData};

/// The items that a loop has passed, for contracts and proofs. It takes no memory, and its methods do nothing at run time.
#[derive(Drop)]
pub struct Trail<T> {
    of: PhantomData<T>,
    pub ghost items: { List T } by { coded_list T.code },
}

impl<T> Model for Trail<T> {
    ghost also_owns = { λ _. ftrue };
}

impl<T> Trail<T> {
    /// The empty list.
    pub fn new() -> Trail<T>
        ensures { result.items ≡ [] }
    {
        Trail { of: PhantomData }
    }

    /// The list with one more item at its end.
    pub fn and(&self, _item: &T) -> Trail<T>
        ensures { result.items ≡ self.now.items ++ _item.now ∷ [] }
    {
        Trail { of: PhantomData }
    }
}

/// The pieces of a text whose tokens are given. They follow from the text, and only proofs keep them.
pub fn pieces_of(_text: &FileText, _tokens: &Vec<CompactPiece>) -> Trail<Piece>
    requires { HasTokens _text.now _tokens.now.items }
    ensures { IsCutText _text.now result.items _tokens.now.items }
{
    Trail { of: PhantomData }
}
