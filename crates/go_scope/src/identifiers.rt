//! The identifiers of a package, before they are bound.
ghost use Rattle.std.specs.Prelude.{ℕ, ◌≡◌, ◌<◌, ◌↔◌, length, map, IsTrue, MatchOption, slice_get};
ghost use Rattle.go_ast.specs.SourceFile.{source_of, offset_of};
ghost use Rattle.go_scope.specs.IdentifierViews.{site_of};
ghost use Rattle.go_scope.specs.Packages.{layout_in, names_in, IsPlaceOf, IsAtPlace};
ghost use Rattle.go_scope.specs.Table.{layout_of, IsFirstOf};
ghost use Rattle.go_scope.specs.WellFormed.{WellFormed, IsLaidOut};

use crate::model::{Identifier, Position, Role};
use crate::resolve::{name_at, place_at, role_at};
use base_files::Place;
use go_ast::FileTree;
use std::marker::Model;

/// The count of predeclared names, which have the first numbers in each package.
pub const PREDECLARED: usize = 11;

/// The identifiers of a package, numbered from 0: first the predeclared names, then the identifiers of its files, by path and token.
#[derive(Drop)]
pub struct Identifiers<'a> {
    files: &'a [FileTree],
    list: Vec<Identifier<'a>>,
}

impl<'a> Model for Identifiers<'a> {
    ghost use Rattle.std.specs.Prelude.{length, map};
    ghost use Rattle.std.specs.Coded.{codes};
    ghost use Rattle.go_ast.specs.contracts.tree.File as e;
    ghost use Rattle.go_scope.specs.IdentifierViews.{site_of};
    ghost use Rattle.go_scope.specs.Packages.{ScopedPackage};
    ghost use Rattle.go_scope.specs.Table.{layout_of};
    ghost use Rattle.go_scope.specs.WellFormed.{IsLaidOut};

    ghost Value = { ScopedPackage };

    ghost coded = { Prim.hlevel (codes, e.the_row.coded) };

    ghost view = { λ t. record { files = t.files.now; sites = map site_of t.list.items } };

    ghost invariant = { λ t. IsLaidOut (layout_of t.list.items) (length t.list.items) };
}

/// Whether a token of a file begins at a place.
fn is_token_at(file: &FileTree, token: usize, place: &Place) -> bool
    ensures { IsTrue result ↔ ((file.now.path ≡ place.now.path) × (offset_of (source_of file.now) token ≡ place.now.offset)) }
{
    file.path().as_str().as_bytes() == place.path.as_str().as_bytes()
        && file.offset(token) == place.offset
}

/// Whether a position, in these files, begins at a place.
fn is_place(files: &[FileTree], at: Position, place: &Place) -> bool
    ensures { IsTrue result ↔ IsPlaceOf (slice_get files.now at.file) at.index place.now.path place.now.offset }
{
    if at.file < files.len() {
        is_token_at(&files[at.file], at.index, place)
    } else {
        false
    }
}

impl<'a> Identifiers<'a> {
    /// Joins files with the identifiers that were collected from them.
    pub(crate) fn new(files: &'a [FileTree], list: Vec<Identifier<'a>>) -> Identifiers<'a>
        requires { IsLaidOut (layout_of list.items) (length list.items) }
        ensures files { result.files ≡ files.now }
        ensures sites { result.sites ≡ map site_of list.entry.items }
    {
        Identifiers { files, list }
    }

    /// The files of the package, in the order of their paths.
    pub fn files(&self) -> &'a [FileTree]
        ensures { result.now ≡ self.now.files }
    {
        self.files
    }

    /// The layout of a package's identifiers is well formed, as it comes from syntax trees.
    pub fn is_well_formed(&self)
        ensures { WellFormed (layout_in self.now) }
    {
        let _list = &self.list;
    }

    /// The layout of a package's identifiers has all properties of `IsLaidOut`, as it comes from syntax trees.
    pub fn are_laid_out(&self)
        ensures { IsLaidOut (layout_in self.now) (length self.now.sites) }
    {
        let _list = &self.list;
    }

    /// The number of identifiers, predeclared names included.
    pub fn len(&self) -> usize
        ensures { result ≡ length self.now.sites }
    {
        self.list.len()
    }

    /// The role of an identifier.
    pub fn role(&self, u: usize) -> Role
        requires { u < length self.now.sites }
        ensures { result ≡ (layout_in self.now).role u }
    {
        role_at(&self.list, u)
    }

    /// The position of an identifier. For a predeclared name it is the first token of the first file.
    pub fn place(&self, u: usize) -> Position
        requires { u < length self.now.sites }
        ensures { result ≡ (layout_in self.now).place u }
    {
        place_at(&self.list, u)
    }

    /// The name of an identifier, in UTF-8.
    pub fn name(&self, u: usize) -> &'a [u8]
        requires { u < length self.now.sites }
        ensures { result.now ≡ names_in self.now u }
    {
        name_at(&self.list, u)
    }

    /// All identifiers, predeclared names first.
    pub fn as_slice(&self) -> &[Identifier<'a>]
        ensures sites { map site_of result.now ≡ self.now.sites }
    {
        &self.list
    }

    /// All identifiers, predeclared names first, taken out.
    pub(crate) fn into_list(self) -> Vec<Identifier<'a>>
        ensures { map site_of result.items ≡ self.entry.sites }
    {
        let Identifiers { files: _, list } = self;
        list
    }

    /// Whether an identifier, or an import's string literal, begins at a place.
    fn begins_at(&self, u: usize, place: &Place) -> bool
        requires { u < length self.now.sites }
        ensures { IsTrue result ↔ IsAtPlace self.now place.now.path place.now.offset u }
    {
        !self.role(u).is_implied() && is_place(self.files(), self.place(u), place)
    }

    /// The identifier, or the import's string literal, that begins at a place.
    pub(crate) fn first_beginning_at(&self, place: &Place) -> Option<usize>
        ensures { MatchOption result ((u : ℕ) → u < length self.now.sites → IsAtPlace self.now place.now.path place.now.offset u → ⊥)
            (λ u. IsFirstOf (IsAtPlace self.now place.now.path place.now.offset) (length self.now.sites) u) }
    {
        for u in 0..self.len() {
            if self.begins_at(u, place) {
                return Some(u);
            }
        }
        None
    }
}
