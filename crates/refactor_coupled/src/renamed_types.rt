//! Method sets, and which types implement which interfaces, under the names that a rename gives a set of members.
ghost use Rattle.std.specs.Prelude.{◌≡◌, [], option_map};
ghost use Rattle.std.specs.Option.{option_copied};
ghost use Rattle.types_expr.specs.View.{signature_of};
ghost use Rattle.types_expr.specs.World.{as_set_method, in_set, reaches, received_method};
ghost use Rattle.types_expr.specs.WorldView.{definition_of, field_of, plain_method_of, set_method_of};
ghost use Rattle.refactor_coupled.specs.RenamedTypes.{exported_after, has_received_method, has_written_member, is_new_name_of, is_received_method, is_written_member, moves_received, moves_written, name_before, received_before, renamed_definition, unrenamed, written_before};
ghost use Rattle.refactor_coupled.specs.RenamedTypesView.{definitions_after, either_after, either_turns, has_after, has_each_after, implements_after, is_changed, is_interface_of, rename_of, turns_through};

use refs_binding::Declaration;
use types_declared::is_exported;
use types_expr::symbol::Symbol;
use types_expr::types::{Signature, WrittenAs};
use types_expr::world::{
    Definition, Definitions, Field, Method, SetMethod, Underlying, has_if_asked,
};

/// Members that get a name: all of them are called `old`, and get the name `new`.
#[derive(Clone, Copy)]
pub struct RenamedSet<'a> {
    pub set: &'a [Declaration],
    pub old: &'a [u8],
    pub new: &'a [u8],
}

/// The type definitions of all packages, and what is renamed. An empty set renames nothing.
#[derive(Clone, Copy)]
pub(crate) struct RenamedTypes<'a> {
    pub types: &'a Definitions,
    pub rename: RenamedSet<'a>,
}

/// Whether a declaration is the written member with this symbol.
fn is_written(declaration: &Declaration, symbol: &Symbol) -> bool
    ensures { result ≡ is_written_member declaration.now symbol.now }
{
    match declaration {
        Declaration::Field(other) => other.same(symbol),
        Declaration::Predeclared(_) | Declaration::Declared(_, _) | Declaration::Method(_) => false,
    }
}

/// Whether a declaration is the method of a receiver with this symbol.
fn is_received(declaration: &Declaration, symbol: &Symbol) -> bool
    ensures { result ≡ is_received_method declaration.now symbol.now }
{
    match declaration {
        Declaration::Method(other) => other.same(symbol),
        Declaration::Predeclared(_) | Declaration::Declared(_, _) | Declaration::Field(_) => false,
    }
}

/// Whether a list has the written member with this symbol.
pub(crate) fn has_written(set: &[Declaration], symbol: &Symbol) -> bool
    ensures { result ≡ has_written_member set.now symbol.now }
{
    set.iter()
        .any(|declaration| is_written(declaration, symbol))
}

/// Whether a list has the method of a receiver with this symbol.
pub(crate) fn has_received(set: &[Declaration], symbol: &Symbol) -> bool
    ensures { result ≡ has_received_method set.now symbol.now }
{
    set.iter()
        .any(|declaration| is_received(declaration, symbol))
}

/// Whether a name is exported that a member has after the rename: as it was, but for a member that gets the new name.
fn exported_after(is_new: bool, new: &[u8], exported: bool) -> bool
    ensures { result ≡ exported_after is_new new.now exported }
{
    if is_new { is_exported(new) } else { exported }
}

/// A method of a method set.
fn set_method<'a>(
    symbol: &'a Symbol,
    exported: bool,
    signature: Option<&'a Signature>,
) -> SetMethod<'a>
    ensures { set_method_of result ≡ record { symbol = symbol.now; exported = exported; signature = option_map (λ s. signature_of s.now) signature.entry } }
{
    SetMethod {
        symbol,
        exported,
        signature,
    }
}

/// Whether a method of a receiver is in the method set of T, or of `*T` (`behind_star`).
fn is_reached(behind_star: bool, method: &Method) -> bool
    ensures { result ≡ reaches behind_star method.now.on_pointer }
{
    behind_star || !method.on_pointer
}

/// Whether an underlying type is an interface.
#[tactic(auto, unfolding(types_expr::specs::WorldView::underlying_of))]
pub(crate) fn is_interface(underlying: &Underlying) -> bool
    ensures { result ≡ is_interface_of underlying.now }
{
    match underlying {
        Underlying::Interface(_) => true,
        Underlying::Plain(_)
        | Underlying::PointerTo(_)
        | Underlying::SliceOf(_)
        | Underlying::Struct(_) => false,
    }
}

impl<'a> RenamedTypes<'a> {
    /// Whether the rename moves the member that a definition writes under the old name.
    pub(crate) fn moves_written(&self, definition: &Definition) -> bool
        ensures { result ≡ moves_written (rename_of self.now.rename) (definition_of definition.now) }
    {
        match definition.fields.get(self.rename.old) {
            None => false,
            Some(field) => has_written(self.rename.set, &field.symbol),
        }
    }

    /// Whether the rename moves the method of a receiver that a definition has under the old name.
    pub(crate) fn moves_received(&self, definition: &Definition) -> bool
        ensures { result ≡ moves_received (rename_of self.now.rename) (definition_of definition.now) }
    {
        match definition.methods.get(self.rename.old) {
            None => false,
            Some(method) => has_received(self.rename.set, &method.symbol),
        }
    }

    /// The name that what is called `name` after the rename has before it, or `None` where nothing is called so. `moves` says whether the
    /// member of the old name gets the new one.
    fn name_before<'n>(&self, moves: bool, name: &'n [u8]) -> Option<&'n [u8]>
    where
        'a: 'n,
        ensures { option_copied result ≡ name_before (rename_of self.now.rename) moves name.now }
    {
        if moves && name == self.rename.new {
            Some(self.rename.old)
        } else if moves && name == self.rename.old {
            None
        } else {
            Some(name)
        }
    }

    /// Returns the member that a definition writes and that has the name after the rename.
    fn written(&self, definition: &'a Definition, name: &[u8]) -> Option<&'a Field>
        ensures { option_map (λ f. field_of f.now) result ≡ written_before (rename_of self.now.rename) (definition_of definition.now) name.now }
    {
        let before = self.name_before(self.moves_written(definition), name)?;
        definition.fields.get(before)
    }

    /// Returns the method of a receiver that has the name after the rename.
    fn received(&self, definition: &'a Definition, name: &[u8]) -> Option<&'a Method>
        ensures { option_map (λ m. plain_method_of m.now) result ≡ received_before (rename_of self.now.rename) (definition_of definition.now) name.now }
    {
        let before = self.name_before(self.moves_received(definition), name)?;
        definition.methods.get(before)
    }

    /// Whether a member that has the name after the rename gets it by the rename.
    fn is_new(&self, moves: bool, name: &[u8]) -> bool
        ensures { result ≡ is_new_name_of (rename_of self.now.rename) moves name.now }
    {
        moves && name == self.rename.new
    }

    /// Returns the method that an interface asks for under the name after the rename, by the definition that writes it.
    #[tactic(auto, unfolding(types_expr::specs::View::form_of))]
    fn asked(&self, definition: &'a Definition, name: &[u8]) -> Option<SetMethod<'a>>
        ensures { option_map set_method_of result ≡ as_set_method ((renamed_definition (rename_of self.now.rename) (definition_of definition.now)).field name.now) }
    {
        let field = self.written(definition, name)?;
        let is_new = self.is_new(self.moves_written(definition), name);
        match &field.form {
            WrittenAs::Field(_) => None,
            WrittenAs::Method(signature) => Some(set_method(
                &field.symbol,
                exported_after(is_new, self.rename.new, field.exported),
                Some(signature),
            )),
        }
    }

    /// Returns the method of the name after the rename in the method set of a definition that is no interface, or of pointers to it.
    fn reached(
        &self,
        definition: &'a Definition,
        behind_star: bool,
        name: &[u8],
    ) -> Option<SetMethod<'a>>
        ensures { option_map set_method_of result ≡ received_method behind_star ((renamed_definition (rename_of self.now.rename) (definition_of definition.now)).method name.now) }
    {
        let method = self.received(definition, name)?;
        if !is_reached(behind_star, method) {
            return None;
        }
        let is_new = self.is_new(self.moves_received(definition), name);
        Some(set_method(
            &method.symbol,
            exported_after(is_new, self.rename.new, method.exported),
            method.signature.as_ref(),
        ))
    }

    /// Returns the method of the name after the rename in the method set of T, or of `*T` (`behind_star`).
    #[tactic(auto, unfolding(types_expr::specs::WorldView::underlying_of))]
    fn in_set(&self, symbol: &Symbol, behind_star: bool, name: &[u8]) -> Option<SetMethod<'a>>
        ensures { option_map set_method_of result ≡ in_set (definitions_after self.now.types.now (rename_of self.now.rename)) behind_star symbol.now name.now }
    {
        let definition = self.types.get(symbol)?;
        match &definition.underlying {
            Underlying::Interface(written) => {
                if behind_star {
                    return None;
                }
                self.asked(self.types.get(written)?, name)
            }
            _ => self.reached(definition, behind_star, name),
        }
    }

    /// Whether T, or `*T` (`behind_star`), has what a definition asks for under the name after the rename, if it asks for something.
    fn has(
        &self,
        symbol: &Symbol,
        behind_star: bool,
        interface: &'a Definition,
        name: &[u8],
    ) -> bool
        ensures { result ≡ has_after self.now.types.now (rename_of self.now.rename) behind_star symbol.now interface.now name.now }
    {
        match self.written(interface, name) {
            None => true,
            Some(asked) => has_if_asked(asked, self.in_set(symbol, behind_star, name)),
        }
    }

    /// Whether T, or `*T` (`behind_star`), has after the rename what a definition asks for under each name that it had, and under the new one.
    fn has_each(&self, symbol: &Symbol, behind_star: bool, interface: &'a Definition) -> bool
        ensures { result ≡ has_each_after self.now.types.now (rename_of self.now.rename) behind_star symbol.now interface.now }
    {
        for (name, _) in &interface.fields {
            if !self.has(symbol, behind_star, interface, name) {
                return false;
            }
        }
        self.has(symbol, behind_star, interface, self.rename.new)
    }

    /// Whether T, or `*T` (`behind_star`), implements after the rename the interface that the definition of a symbol writes.
    pub(crate) fn implements(&self, symbol: &Symbol, behind_star: bool, interface: &Symbol) -> bool
        ensures { result ≡ implements_after self.now.types.now (rename_of self.now.rename) behind_star symbol.now interface.now }
    {
        match self.types.get(interface) {
            None => false,
            Some(definition) => {
                is_interface(&definition.underlying)
                    && self.has_each(symbol, behind_star, definition)
            }
        }
    }

    /// Whether T or `*T` implements the interface after the rename.
    pub(crate) fn either_implements(&self, symbol: &Symbol, interface: &Symbol) -> bool
        ensures { result ≡ either_after self.now.types.now (rename_of self.now.rename) symbol.now interface.now }
    {
        self.implements(symbol, false, interface) || self.implements(symbol, true, interface)
    }

    /// The type definitions as they are before the rename.
    fn before(&self) -> RenamedTypes<'a>
        ensures types { result.types.now ≡ self.now.types.now }
        ensures rename { rename_of result.rename ≡ unrenamed (rename_of self.now.rename) }
    {
        RenamedTypes {
            types: self.types,
            rename: RenamedSet {
                set: &[],
                old: self.rename.old,
                new: self.rename.new,
            },
        }
    }

    /// Whether the rename makes T, or `*T` (`behind_star`), implement the interface that it didn't, or no longer implement it.
    fn turns(&self, symbol: &Symbol, behind_star: bool, interface: &Symbol) -> bool
        ensures { result ≡ turns_through self.now.types.now (rename_of self.now.rename) behind_star symbol.now interface.now }
    {
        let after = self.implements(symbol, behind_star, interface);
        if self.before().implements(symbol, behind_star, interface) {
            !after
        } else {
            after
        }
    }

    /// Whether the rename does so to T or to `*T`.
    pub(crate) fn either_turns(&self, symbol: &Symbol, interface: &Symbol) -> bool
        ensures { result ≡ either_turns self.now.types.now (rename_of self.now.rename) symbol.now interface.now }
    {
        self.turns(symbol, false, interface) || self.turns(symbol, true, interface)
    }
}
