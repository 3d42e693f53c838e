//! Properties of roles, blocks and scopes.

ghost use Rattle.std.specs.Prelude.{◌≡◌, ◌<◌, ◌↔◌, length, IsTrue};
ghost use Rattle.go_scope.specs.Scopes.{Holds, Nests};
ghost use Rattle.go_scope.specs.Bindings.{may_declare, block_of, start_of, is_left_name, InScope};
ghost use Rattle.go_scope.specs.Scopes.{scope_for};
ghost use Rattle.go_scope.specs.Table.{layout_of, names_of};

use crate::model::{Block, Identifier, Position, Role, Scope};

impl Role {
    /// Whether an identifier of this role may declare: it is declaring, a left name of `:=`, or predeclared.
    pub(crate) fn may_declare(self) -> bool
        ensures { result ≡ may_declare self }
    {
        match self {
            Role::Declaring(_, _) | Role::LeftName(_, _) | Role::Implied(_, _) => true,
            Role::Use | Role::NotLexical(_) => false,
        }
    }

    /// Whether the role is that of a left name of `:=`.
    pub fn is_left_name(self) -> bool
        ensures { result ≡ is_left_name self }
    {
        match self {
            Role::LeftName(_, _) => true,
            Role::Declaring(_, _) | Role::Implied(_, _) | Role::Use | Role::NotLexical(_) => false,
        }
    }

    /// The block in which an identifier of this role declares; the universe block for a role that does not.
    pub fn block(self) -> Block
        ensures { result ≡ block_of self }
    {
        match self {
            Role::Declaring(block, _) | Role::LeftName(block, _) | Role::Implied(block, _) => block,
            Role::Use | Role::NotLexical(_) => Block::Universe,
        }
    }

    /// The token index at which the scope begins; 0 for a role that does not declare.
    pub fn start(self) -> usize
        ensures { result ≡ start_of self }
    {
        match self {
            Role::Declaring(_, start) | Role::LeftName(_, start) | Role::Implied(_, start) => start,
            Role::Use | Role::NotLexical(_) => 0,
        }
    }
}

impl Scope {
    /// The scope of a declaration in a block: the whole block, or in an inner block from the token `start` to its end.
    pub fn in_block(block: Block, start: usize) -> Scope
        ensures { result ≡ scope_for block start }
    {
        match block {
            Block::Universe => Scope::Everywhere,
            Block::Package => Scope::WholePackage,
            Block::File(file) => Scope::WholeFile(file),
            Block::Inner(file, _, to) => Scope::Interval(file, start, to),
        }
    }

    /// Whether a position is in the scope.
    pub fn holds(self, place: Position) -> bool
        ensures { IsTrue result ↔ Holds self place }
    {
        match self {
            Scope::Everywhere | Scope::WholePackage => true,
            Scope::WholeFile(file) => place.file == file,
            Scope::Interval(file, from, to) => place.file == file
                && from <= place.index
                && place.index < to,
        }
    }
}

impl Block {
    /// Whether the block lies in `outer`. The package block counts as inside of each file block, as an import gives way to a package-level
    /// declaration.
    pub fn nests(self, outer: Block) -> bool
        ensures { IsTrue result ↔ Nests self outer }
    {
        match (self, outer) {
            (Block::Inner(f, a, b), Block::Inner(g, c, d)) => f == g && c < a && b <= d,
            (Block::Inner(f, _, _), Block::File(g)) => f == g,
            (Block::Inner(_, _, _), Block::Package | Block::Universe) => true,
            (Block::Package, Block::File(_) | Block::Universe) => true,
            (Block::File(_), Block::Universe) => true,
            _ => false,
        }
    }

    /// Whether two blocks are equal.
    pub fn same(self, other: Block) -> bool
        ensures { IsTrue result ↔ (self ≡ other) }
    {
        match (self, other) {
            (Block::Universe, Block::Universe) | (Block::Package, Block::Package) => true,
            (Block::File(f), Block::File(g)) => f == g,
            (Block::Inner(f, a, b), Block::Inner(g, c, d)) => f == g && a == c && b == d,
            _ => false,
        }
    }
}

/// The role of an identifier.
pub(crate) fn role_at(identifiers: &[Identifier], d: usize) -> Role
    requires { d < length identifiers.now }
    ensures { result ≡ (layout_of identifiers.now).role d }
{
    identifiers[d].role
}

/// The position of an identifier.
pub(crate) fn place_at(identifiers: &[Identifier], d: usize) -> Position
    requires { d < length identifiers.now }
    ensures { result ≡ (layout_of identifiers.now).place d }
{
    identifiers[d].place
}

/// The name of an identifier.
pub(crate) fn name_at<'a>(identifiers: &[Identifier<'a>], d: usize) -> &'a [u8]
    requires { d < length identifiers.now }
    ensures { result.now ≡ names_of identifiers.now d }
{
    identifiers[d].name
}

/// Whether the position of u is in the scope of d.
pub(crate) fn in_scope(identifiers: &[Identifier], d: usize, u: usize) -> bool
    requires first { d < length identifiers.now }
    requires second { u < length identifiers.now }
    ensures { IsTrue result ↔ InScope (layout_of identifiers.now) d u }
{
    let role = role_at(identifiers, d);
    Scope::in_block(role.block(), role.start()).holds(place_at(identifiers, u))
}
