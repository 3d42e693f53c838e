//! Syntax trees. Each number in a tree is a token index, from 0.
use crate::syntax::{BinaryOp, PrefixOp, StepOp, UpdateOp};

/// An item of a list with its separator, if it has one.
#[derive(Drop)]
pub struct Item<T> {
    pub value: T,
    pub separator: Option<u32>,
}

/// One item, or any number of items in parentheses.
#[derive(Drop)]
pub enum Group<T> {
    Single(T),
    Several {
        open: u32,
        items: Vec<Item<T>>,
        close: u32,
    },
}

/// A declared identifier: a name, or `_`.
#[derive(Drop)]
pub enum Ident {
    Named(u32),
    Blank(u32),
}

/// A type. `Local` is `T`, `Imported` is `p.T`, `Pointer` is `*T` and `Slice` is `[]T`.
#[derive(Drop)]
pub enum TypeExpr {
    Local(u32),
    Imported {
        package: u32,
        dot: u32,
        name: u32,
    },
    Pointer {
        star: u32,
        target: Box<TypeExpr>,
    },
    Slice {
        open: u32,
        close: u32,
        element: Box<TypeExpr>,
    },
}

/// An expression. A chain has at least one link, and its first operand is no chain. A binary expression has at least two operands, and all of
/// its operators have one precedence. A `NamedChain` or a `NamedBinary` begins with a name, which needs no box. Literals lie in boxes, so
/// that other expressions take little room.
#[derive(Drop)]
#[cycle(expression)]
pub enum Expr {
    Number(u32),
    Text(u32),
    Name(u32),
    Blank(u32),
    Composite(Box<CompositeLit>),
    Paren {
        open: u32,
        inner: Box<Expr>,
        close: u32,
    },
    Prefix {
        op: PrefixOp,
        at: u32,
        operand: Box<Expr>,
    },
    Address {
        at: u32,
        literal: Box<CompositeLit>,
    },
    Chain {
        first: Box<Expr>,
        links: Vec<Link>,
    },
    Binary {
        first: Box<Expr>,
        rest: Vec<Operand>,
    },
    NamedChain {
        name: u32,
        links: Vec<Link>,
    },
    NamedBinary {
        name: u32,
        rest: Vec<Operand>,
    },
}

/// A binary operator with its right operand.
#[derive(Drop)]
#[cycle(expression)]
pub struct Operand {
    pub op: BinaryOp,
    pub at: u32,
    pub value: Expr,
}

/// A selector `.f`, an index `[i]` or a call `(a, b)` that follows an operand.
#[derive(Drop)]
#[cycle(expression)]
pub enum Link {
    Selector {
        dot: u32,
        name: u32,
    },
    Index {
        open: u32,
        index: Box<Expr>,
        close: u32,
    },
    Call {
        open: u32,
        close: u32,
        arguments: Vec<ExprItem>,
    },
}

/// An expression of a list with its comma, if it has one.
#[derive(Drop)]
#[cycle(expression)]
pub struct ExprItem {
    pub value: Expr,
    pub comma: Option<u32>,
}

/// A composite literal: its type, and its elements in braces.
#[derive(Drop)]
#[cycle(expression)]
pub struct CompositeLit {
    pub literal_type: TypeExpr,
    pub open: u32,
    pub elements: Vec<Element>,
    pub close: u32,
}

/// A composite literal key: the name of a field, and the colon.
#[derive(Drop)]
pub struct Key {
    pub name: u32,
    pub colon: u32,
}

/// An element of a composite literal with its comma, if it has one.
#[derive(Drop)]
#[cycle(expression)]
pub struct Element {
    pub key: Option<Key>,
    pub value: Expr,
    pub comma: Option<u32>,
}

/// A `=` with the values that follow it.
#[derive(Drop)]
pub struct Values {
    pub assign: u32,
    pub values: Vec<ExprItem>,
}

/// A declaration of local variables: names with a type, values, or both.
#[derive(Drop)]
pub struct LocalSpec {
    pub names: Vec<Item<Ident>>,
    pub local_type: Option<TypeExpr>,
    pub values: Option<Values>,
}

/// A simple statement: `x`, `x++`, `x += y`, `x, y = z`, `x, y := z`. The `y` of `x += y` lies in a box, so that the others take little room.
#[derive(Drop)]
pub enum SimpleStmt {
    Expr(Expr),
    Step {
        operand: Expr,
        op: StepOp,
        at: u32,
    },
    Update {
        left: Expr,
        op: UpdateOp,
        at: u32,
        right: Box<Expr>,
    },
    Assign {
        left: Vec<ExprItem>,
        at: u32,
        right: Vec<ExprItem>,
    },
    Define {
        left: Vec<ExprItem>,
        at: u32,
        right: Vec<ExprItem>,
    },
}

/// The clause before the condition of an `if`: a simple statement, if there is one, and its semicolon.
#[derive(Drop)]
pub struct IfInit {
    pub statement: Option<SimpleStmt>,
    pub semicolon: u32,
}

/// The header of a `for`: none, a condition, or three clauses.
#[derive(Drop)]
pub enum ForHeader {
    Forever,
    While(Expr),
    Clauses {
        init: Option<SimpleStmt>,
        first: u32,
        condition: Option<Expr>,
        second: u32,
        post: Option<SimpleStmt>,
    },
}

/// A statement. What is larger than a simple statement lies in a box.
#[derive(Drop)]
#[cycle(statement)]
pub enum Stmt {
    Empty,
    Var {
        at: u32,
        group: Box<Group<LocalSpec>>,
    },
    Simple(SimpleStmt),
    Block(BlockStmt),
    If(Box<IfStmt>),
    For {
        at: u32,
        header: Box<ForHeader>,
        body: BlockStmt,
    },
    Break(u32),
    Continue(u32),
    Return {
        at: u32,
        values: Vec<ExprItem>,
    },
}

/// A block in braces. `{}` has one empty statement.
#[derive(Drop)]
#[cycle(statement)]
pub struct BlockStmt {
    pub open: u32,
    pub statements: Vec<BlockItem>,
    pub close: u32,
}

/// A statement of a block with its semicolon, if it has one.
#[derive(Drop)]
#[cycle(statement)]
pub struct BlockItem {
    pub statement: Stmt,
    pub semicolon: Option<u32>,
}

/// An `if` statement.
#[derive(Drop)]
#[cycle(statement)]
pub struct IfStmt {
    pub at: u32,
    pub init: Option<IfInit>,
    pub condition: Expr,
    pub body: BlockStmt,
    pub otherwise: Else,
}

/// The `else` branch of an `if`: none, an `if` statement, or a block.
#[derive(Drop)]
#[cycle(statement)]
pub enum Else {
    None,
    If { at: u32, branch: Box<IfStmt> },
    Block { at: u32, block: BlockStmt },
}

/// An import spec: `name "path"`, where the name may be absent.
#[derive(Drop)]
pub struct ImportSpec {
    pub name: Option<u32>,
    pub path: u32,
}

/// A literal of one token: a number or a string.
#[derive(Drop)]
pub enum BasicLit {
    Number(u32),
    Text(u32),
}

/// A `=` with the literals that follow it.
#[derive(Drop)]
pub struct VarValues {
    pub assign: u32,
    pub values: Vec<Item<BasicLit>>,
}

/// A declaration of package-level variables of one type: `a, b T = 1, 2`.
#[derive(Drop)]
pub struct VarSpec {
    pub names: Vec<Item<u32>>,
    pub var_type: TypeExpr,
    pub values: Option<VarValues>,
}

/// Fields of one type: `a, b T`.
#[derive(Drop)]
pub struct FieldDecl {
    pub names: Vec<Item<u32>>,
    pub field_type: TypeExpr,
}

/// A method that an interface asks for: `M(a, b T) R`.
#[derive(Drop)]
pub struct MethodSpec {
    pub name: u32,
    pub open: u32,
    pub params: Vec<Item<Param>>,
    pub close: u32,
    pub results: Results,
}

/// The right side of a type definition: a type, a struct, or an interface.
#[derive(Drop)]
pub enum TypeBody {
    Type(TypeExpr),
    Struct {
        at: u32,
        open: u32,
        fields: Vec<Item<FieldDecl>>,
        close: u32,
    },
    Interface {
        at: u32,
        open: u32,
        methods: Vec<Item<MethodSpec>>,
        close: u32,
    },
}

/// A type definition: its name and right side.
#[derive(Drop)]
pub struct TypeSpec {
    pub name: u32,
    pub body: TypeBody,
}

/// The receiver of a method: `(x *T)`.
#[derive(Drop)]
pub struct Receiver {
    pub open: u32,
    pub ident: Ident,
    pub star: Option<u32>,
    pub type_name: u32,
    pub comma: Option<u32>,
    pub close: u32,
}

/// Parameters of one type: `a, b T`.
#[derive(Drop)]
pub struct Param {
    pub names: Vec<Item<Ident>>,
    pub param_type: TypeExpr,
}

/// The results of a function: none, one type, or types in parentheses.
#[derive(Drop)]
pub enum Results {
    None,
    Single(TypeExpr),
    Several {
        open: u32,
        types: Vec<Item<TypeExpr>>,
        close: u32,
    },
}

/// A function or a method, without the keyword `func`.
#[derive(Drop)]
pub struct FuncDecl {
    pub receiver: Option<Receiver>,
    pub name: u32,
    pub open: u32,
    pub params: Vec<Item<Param>>,
    pub close: u32,
    pub results: Results,
    pub body: BlockStmt,
}

/// An import declaration: `import`, its specs, and its semicolon.
#[derive(Drop)]
pub struct ImportDecl {
    pub at: u32,
    pub group: Group<ImportSpec>,
    pub semicolon: u32,
}

/// A top-level declaration with its keyword and semicolon.
#[derive(Drop)]
pub enum Decl {
    Var {
        at: u32,
        group: Group<VarSpec>,
        semicolon: u32,
    },
    Type {
        at: u32,
        group: Group<TypeSpec>,
        semicolon: u32,
    },
    Func {
        at: u32,
        func: FuncDecl,
        semicolon: u32,
    },
}

/// A file: its package clause, imports and declarations.
#[derive(Drop)]
pub struct File {
    pub package: u32,
    pub name: u32,
    pub semicolon: u32,
    pub imports: Vec<ImportDecl>,
    pub decls: Vec<Decl>,
}
