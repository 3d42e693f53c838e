//! The table of a package: its identifiers, their scopes, and their bindings.
ghost use Rattle.std.specs.Prelude.{ℕ, ◌≡◌, ◌<◌, ◌↔◌, length, IsTrue, MatchOption};
ghost use Rattle.go_scope.specs.Bindings.{Declares, Counts, IsUse};
ghost use Rattle.go_scope.specs.ByToken.{numbers_in, AreIdentifiers};
ghost use Rattle.go_scope.specs.Contents.{AreTableContents};
ghost use Rattle.go_scope.specs.Packages.{layout_in, names_in, IsBoundIn, IsAtPlace};
ghost use Rattle.go_scope.specs.Table.{LiesAt, IsFirstOf, IsFoundAt};
ghost use Rattle.go_scope.specs.WellFormed.{HaveOwnPlaces, WellFormed};

use crate::by_token::ByToken;
use crate::contents::TableContents;
use crate::identifiers::Identifiers;
use crate::model::{Position, Role};
use base_files::Place;
use go_ast::FileTree;
use std::marker::Model;

/// A declaration: the number of its identifier in the table. The first eleven numbers are those of the predeclared names.
pub type DeclId = usize;

/// The identifiers of a package with their bindings, each found once.
#[derive(Drop)]
pub struct ScopeTable<'a> {
    identifiers: Identifiers<'a>,
    known: TableContents,
}

impl<'a> Model for ScopeTable<'a> {
    ghost use Rattle.std.specs.Coded.{codes};
    ghost use Rattle.go_ast.specs.contracts.tree.File as e;
    ghost use Rattle.go_scope.specs.Packages.{ScopedPackage};
    ghost use Rattle.go_scope.specs.ByToken.{numbers_in};
    ghost use Rattle.go_scope.specs.Contents.{AreTableContents};

    ghost Value = { ScopedPackage };

    ghost coded = { Prim.hlevel (codes, e.the_row.coded) };

    ghost view = { λ t. t.identifiers };

    ghost invariant = { λ t. AreTableContents t.identifiers t.known.declaring.items t.known.bindings.items (numbers_in t.known.numbers) };
}

impl<'a> ScopeTable<'a> {
    /// Joins a package's identifiers with their bindings.
    pub(crate) fn new(identifiers: Identifiers<'a>, known: TableContents) -> ScopeTable<'a>
        requires { AreTableContents identifiers known.declaring.items known.bindings.items (numbers_in known.numbers) }
        ensures { result ≡ identifiers.entry }
    {
        ScopeTable { identifiers, known }
    }

    /// The files of the package, in the order of their paths.
    pub fn files(&self) -> &'a [FileTree]
        ensures { result.now ≡ self.now.files }
    {
        self.identifiers.files()
    }

    /// The layout of a package's identifiers is well formed, as it comes from syntax trees.
    pub fn is_well_formed(&self)
        ensures { WellFormed (layout_in self.now) }
    {
        self.identifiers.is_well_formed();
    }

    /// No two identifiers of a package stand at one token, as they come from syntax trees.
    pub fn are_apart(&self)
        ensures { HaveOwnPlaces (layout_in self.now) (length self.now.sites) }
    {
        self.identifiers.are_laid_out();
    }

    /// The number of identifiers, predeclared names included.
    pub fn len(&self) -> usize
        ensures { result ≡ length self.now.sites }
    {
        self.identifiers.len()
    }

    /// The role of an identifier.
    pub fn role(&self, u: usize) -> Role
        requires { u < length self.now.sites }
        ensures { result ≡ (layout_in self.now).role u }
    {
        self.identifiers.role(u)
    }

    /// The position of an identifier. For a predeclared name it is the first token of the first file.
    pub fn place(&self, u: usize) -> Position
        requires { u < length self.now.sites }
        ensures { result ≡ (layout_in self.now).place u }
    {
        self.identifiers.place(u)
    }

    /// The name of an identifier, in UTF-8.
    pub fn name(&self, u: usize) -> &'a [u8]
        requires { u < length self.now.sites }
        ensures { result.now ≡ names_in self.now u }
    {
        self.identifiers.name(u)
    }

    /// Whether an identifier is a lexical use: also a left name of `:=` that does not declare.
    pub fn is_use(&self, u: usize) -> bool
        requires { u < length self.now.sites }
        ensures { IsTrue result ↔ IsUse (layout_in self.now) (names_in self.now) u }
    {
        self.role(u).is_use_unless(self.declares(u))
    }

    /// Whether an identifier declares.
    pub fn declares(&self, u: usize) -> bool
        requires { u < length self.now.sites }
        ensures { IsTrue result ↔ Declares (layout_in self.now) (names_in self.now) u }
    {
        self.known.declaring[u]
    }

    /// The identifiers of the table.
    pub fn identifiers(&self) -> &Identifiers<'a>
        ensures { result.now ≡ self.now }
    {
        &self.identifiers
    }

    /// The identifier, or the import's string literal, of each token.
    pub fn numbers(&self) -> &ByToken
        ensures { AreIdentifiers (layout_in self.now) (length self.now.sites) (numbers_in result.now) }
    {
        &self.known.numbers
    }

    /// The identifier, or the import's string literal, of a token.
    pub fn identifier_at(&self, place: Position) -> Option<usize>
        ensures { MatchOption result ((u : ℕ) → u < length self.now.sites → LiesAt (layout_in self.now) place u → ⊥)
            (λ u. IsFoundAt (layout_in self.now) (length self.now.sites) place u) }
    {
        self.known.numbers.get(place)
    }

    /// The identifier, or the import's string literal, that begins at a place.
    pub fn identifier_beginning_at(&self, place: &Place) -> Option<usize>
        ensures { MatchOption result ((u : ℕ) → u < length self.now.sites → IsAtPlace self.now place.now.path place.now.offset u → ⊥)
            (λ u. IsFirstOf (IsAtPlace self.now place.now.path place.now.offset) (length self.now.sites) u) }
    {
        self.identifiers.first_beginning_at(place)
    }

    /// The declaration to which an identifier is bound, if any.
    pub fn binding(&self, u: usize) -> Option<DeclId>
        requires { u < length self.now.sites }
        ensures { MatchOption result ((d : ℕ) → IsBoundIn self.now u d → ⊥) (λ d. IsBoundIn self.now u d) }
    {
        self.known.bindings[u]
    }

    /// The declaration to which the identifier that begins at a place is bound, if any.
    pub fn resolve(&self, place: &Place) -> Option<DeclId>
        ensures { let found = IsFirstOf (IsAtPlace self.now place.now.path place.now.offset) (length self.now.sites) in
            MatchOption result ((u d : ℕ) → found u → IsBoundIn self.now u d → ⊥) (λ d. (u : ℕ) × (found u × IsBoundIn self.now u d)) }
    {
        match self.identifier_beginning_at(place) {
            None => None,
            Some(u) => self.binding(u),
        }
    }

    /// Whether a declaration does not count, because of another one of its name.
    pub fn is_repeated(&self, declaration: DeclId) -> bool
        requires { declaration < length self.now.sites }
        ensures { let l = layout_in self.now in
            let names = names_in self.now in
            IsTrue result ↔ (Declares l names declaration × (Counts l names declaration → ⊥)) }
    {
        self.declares(declaration) && self.binding(declaration).is_none()
    }
}
