//! The declarations of a workspace.
ghost use Rattle.std.specs.Prelude.{◌≡◌, ◌↔◌, IsTrue, IfOk};
ghost use Rattle.types_expr.specs.WorldView.{member_of};
ghost use Rattle.refs_binding.specs.Binding.{declaration_of};
ghost use Rattle.refs_binding.specs.declared.declaration.Declaration.TheVariants.{Field, Method};

use std::alloc::AllocError;
use types_expr::symbol::{SharedPath, Symbol};
use types_expr::world::Member;

/// A declaration: what an identifier is bound to. `Predeclared` has the name's number, which is equal in all packages. `Declared` is
/// another declaration of a scope: the path of its package and the number of its identifier there. An import without a name is declared by
/// its path literal. `Field` and `Method` have the symbol: package and rank.
#[derive(Drop)]
pub enum Declaration {
    Predeclared(usize),
    Declared(SharedPath, usize),
    Field(Symbol),
    Method(Symbol),
}

impl Declaration {
    /// Clones the declaration. The path is shared.
    pub fn copy(&self) -> Result<Declaration, AllocError>
        ensures { IfOk result (λ copy. copy ≡ self.now) }
    {
        match self {
            Declaration::Predeclared(d) => Ok(Declaration::Predeclared(*d)),
            Declaration::Declared(path, d) => Ok(Declaration::Declared(path.clone()?, *d)),
            Declaration::Field(symbol) => Ok(Declaration::Field(symbol.copy()?)),
            Declaration::Method(symbol) => Ok(Declaration::Method(symbol.copy()?)),
        }
    }

    /// Returns the declaration of a member.
    #[tactic(auto, unfolding(types_expr::specs::WorldView::member_of))]
    pub fn of(member: Member<'_>) -> Result<Declaration, AllocError>
        ensures { IfOk result (λ d. d ≡ declaration_of (member_of member.entry)) }
    {
        match member {
            Member::Field(field) => Ok(Declaration::Field(field.symbol.copy()?)),
            Member::Method(method) => Ok(Declaration::Method(method.symbol.copy()?)),
        }
    }

    /// Whether this is the declaration of a member.
    #[tactic(auto, unfolding(types_expr::specs::WorldView::member_of))]
    pub fn is_of(&self, member: Member<'_>) -> bool
        ensures { IsTrue result ↔ (declaration_of (member_of member.entry) ≡ self.now) }
    {
        match member {
            Member::Field(field) => self.is_field(&field.symbol),
            Member::Method(method) => self.is_method(&method.symbol),
        }
    }

    /// Whether this is the field with this symbol.
    fn is_field(&self, symbol: &Symbol) -> bool
        ensures { IsTrue result ↔ (Field symbol.now ≡ self.now) }
    {
        match self {
            Declaration::Field(other) => symbol.same(other),
            Declaration::Predeclared(_) | Declaration::Declared(_, _) | Declaration::Method(_) => {
                false
            }
        }
    }

    /// Whether this is the method with this symbol.
    fn is_method(&self, symbol: &Symbol) -> bool
        ensures { IsTrue result ↔ (Method symbol.now ≡ self.now) }
    {
        match self {
            Declaration::Method(other) => symbol.same(other),
            Declaration::Predeclared(_) | Declaration::Declared(_, _) | Declaration::Field(_) => {
                false
            }
        }
    }
}
