//! Positions, blocks, scopes, and the roles of identifiers.

/// A token of a package: the file's rank among the package's paths, and the token's index in the file, both from 0.
#[derive(Clone, Copy, PartialEq, Eq, Hash)]
pub struct Position {
    pub file: usize,
    pub index: usize,
}

/// A block (Go specification, "Blocks"). `Inner` is a file's rank with the indices of the block's first token and of the token at which it
/// ends. A function's body, an `if`, a `for` and a pair of braces each have an inner block. That of an `if` or a `for` begins at the
/// keyword, so it includes the header and all branches:
///
///   if x := f(); x > 0 { g(x) } else { h(x) }
#[derive(Clone, Copy)]
pub enum Block {
    Universe,
    Package,
    File(usize),
    Inner(usize, usize, usize),
}

/// A scope: the positions at which a declaration's name can be bound to it (Go specification, "Declarations and scope"). `Interval` is a
/// file's rank with two token indices, the second excluded.
#[derive(Clone, Copy)]
pub enum Scope {
    Everywhere,
    WholePackage,
    WholeFile(usize),
    Interval(usize, usize, usize),
}

/// The role of an identifier. `Use` is a use of a name; `Declaring` declares in a block, with a scope from a token on.
///
/// `LeftName` is a name on the left side of `:=`, with the block and the start of its scope if it declares. `Implied` is a predeclared
/// name, which has no identifier in a file. `NotLexical` is an identifier that no scope binds.
#[derive(Clone, Copy)]
pub enum Role {
    Use,
    Declaring(Block, usize),
    LeftName(Block, usize),
    Implied(Block, usize),
    NotLexical(Purpose),
}

/// The purpose of an identifier that no lexical block declares and no scope binds.
#[derive(Clone, Copy)]
pub enum Purpose {
    /// The name after a dot: a member, or a name that another package exports.
    Selected,
    /// A composite literal key: the name of a field.
    Key,
    /// The package's name in a package clause.
    PackageClause,
    /// The name of a field or method in its declaration.
    Member,
    /// The string literal of an import that has a name.
    ImportPath,
    /// The string literal of an import without a name.
    UnnamedImport,
    /// The name of a function `init`.
    InitFunction,
    /// The `_` in a declaration or on the left side of an assignment.
    Blank,
}

/// An identifier of a package, or an import's string literal: its position, its bytes in the file, and its role.
#[derive(Drop)]
pub struct Identifier<'a> {
    pub place: Position,
    pub name: &'a [u8],
    pub role: Role,
}
