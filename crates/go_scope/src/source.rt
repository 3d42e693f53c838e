//! A file of a package whose identifiers are collected into a list.
ghost use Rattle.std.specs.Prelude.{◌≡◌, ◌∷◌, [], OnOk};
ghost use Rattle.go_scope.specs.Site.{site};

use crate::model::{Identifier, Position, Role};
use go_ast::FileTree;
use std::alloc::AllocError;

/// A file of a package with its rank among the package's paths, from 0.
#[derive(Clone, Copy)]
pub struct RankedFile<'a> {
    pub rank: usize,
    pub tree: &'a FileTree,
}

impl<'a> RankedFile<'a> {
    ghost use Rattle.go_scope.specs.IdentifierViews.{as_source, AddsTo};

    /// The bytes of a token, or none beyond the last token.
    pub(crate) fn spelling(&self, token: usize) -> &'a [u8]
        ensures { result.now ≡ (as_source self.now).spell token }
    {
        self.tree.spelling(token)
    }

    /// Adds the identifier of a token with this role.
    pub(crate) fn add(
        &self,
        found: &mut Vec<Identifier<'a>>,
        token: u32,
        role: Role,
    ) -> Result<(), AllocError>
        ensures { OnOk result (AddsTo found.old.items found.new.items (site (as_source self.now) token role ∷ [])) }
    {
        let token = token as usize;
        let name = self.spelling(token);
        let place = Position {
            file: self.rank,
            index: token,
        };
        found.push(Identifier { place, name, role })?;
        Ok(())
    }
}
