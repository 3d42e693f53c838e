//! The bindings of a file's names, and the definitions and members of types.
ghost use Rattle.std.specs.Prelude.{◌≡◌, Some, option_copied, option_map, MatchOption};
ghost use Rattle.std.specs.List.{list_all};
ghost use Rattle.types_expr.specs.Types.{Broken};
ghost use Rattle.types_expr.specs.World.{underlying, Means, is_seen, seen_field, seen_method, member_symbol, field_owner, owner, reaches, received_method, as_set_method, in_set, in_method_set, has_signature, is_as_asked, has_if_asked};
ghost use Rattle.types_expr.specs.View.{type_of, signature_of};
ghost use Rattle.types_expr.specs.WorldView.{definition_at, definition_in, definition_of, definitions_at, field_of, shared_at, imported_at, known_at, plain_method_of, member_in, member_of, name_in, token_spelling, bound_in, bound_of, shape_of, underlying_of, underlying_in, set_method_of, names_written, implements_in, world_of};

use crate::exports::ExportData;
use crate::symbol::{SharedPath, Symbol};
use crate::types::{Basic, Builtin, GoType, Signature, WrittenAs};
use base_files::PathTable;
use std::alloc::Global;
use std::collections::BTreeMap;
use std::sync::Arc;

/// What a name is bound to: a parameter or local, by the token that declares it, or something that all its uses mean. The broken ones are
/// declarations whose written type, parameters, results or underlying type has a broken part.
#[derive(Drop)]
pub enum Bound {
    Local(usize),
    Variable(GoType),
    Truth,
    Nil,
    TypeName(GoType),
    Function(Signature),
    Builtin(Builtin),
    Package,
    BrokenVariable,
    BrokenFunction,
    BrokenType,
}

/// The name at a token: the index of its binding among the world's, if it is bound, and its spelling.
#[derive(Clone, Copy)]
pub struct Name<'w> {
    pub bound: Option<usize>,
    pub spelling: &'w [u8],
}

/// The underlying type of a definition. A struct and an interface are identified by the definition that writes them.
#[derive(Drop)]
pub enum Underlying {
    Plain(Basic),
    PointerTo(GoType),
    SliceOf(GoType),
    Struct(Symbol),
    Interface(Symbol),
}

/// A member that a definition writes: a field of a struct, or a method that an interface asks for.
#[derive(Drop)]
pub struct Field {
    pub symbol: Symbol,
    pub exported: bool,
    pub form: WrittenAs,
}

/// A method. It has no signature where a parameter or result has a broken part.
#[derive(Drop)]
pub struct Method {
    pub symbol: Symbol,
    pub exported: bool,
    pub on_pointer: bool,
    pub signature: Option<Signature>,
}

/// A type definition: its underlying type, and by name the members that it writes and the methods of receivers of its type. Only members
/// that count are there.
#[derive(Drop)]
pub struct Definition {
    pub underlying: Underlying,
    pub fields: BTreeMap<Vec<u8>, Field>,
    pub methods: BTreeMap<Vec<u8>, Method>,
}

/// The export data of packages, with their type definitions, by path. The export data of a package is shared by all that hold it. A path
/// that has none here is no known package's.
#[derive(Drop)]
pub struct Definitions {
    pub packages: PathTable<Option<Arc<ExportData, Global>>>,
}

/// What a file is judged by: the bindings of its names, and the type definitions.
#[derive(Clone, Copy)]
pub struct World<'w> {
    /// The path of the file's package.
    pub package: &'w SharedPath,
    /// For each token of the file, the name at it.
    pub names: &'w [Name<'w>],
    /// The bindings of names, to which `Name::bound` points.
    pub bounds: &'w [Bound],
    /// The type definitions of the file's package, each at its rank.
    pub own: &'w [Definition],
    /// The type definitions of other packages.
    pub imported: &'w Definitions,
}

/// A member of a type.
#[derive(Clone, Copy)]
pub enum Member<'w> {
    Field(&'w Field),
    Method(&'w Method),
}

/// An underlying type, as a part of a type or of a definition.
#[derive(Clone, Copy)]
pub enum Shape<'a> {
    Plain(Basic),
    PointerTo(&'a GoType),
    SliceOf(&'a GoType),
    Struct(&'a Symbol),
    Interface(&'a Symbol),
}

impl Underlying {
    /// Returns this underlying type by reference.
    #[tactic(auto, unfolding(crate::specs::WorldView::underlying_of, crate::specs::WorldView::shape_of))]
    pub(crate) fn shape(&self) -> Shape<'_>
        ensures { shape_of result ≡ underlying_of self.now }
    {
        match self {
            Underlying::Plain(basic) => Shape::Plain(*basic),
            Underlying::PointerTo(target) => Shape::PointerTo(target),
            Underlying::SliceOf(element) => Shape::SliceOf(element),
            Underlying::Struct(symbol) => Shape::Struct(symbol),
            Underlying::Interface(symbol) => Shape::Interface(symbol),
        }
    }
}

impl<'w> Member<'w> {
    /// Returns the symbol of the member.
    #[tactic(auto, unfolding(crate::specs::WorldView::member_of))]
    pub fn symbol(&self) -> &'w Symbol
        ensures { result.now ≡ member_symbol (member_of self.now) }
    {
        match self {
            Member::Field(field) => &field.symbol,
            Member::Method(method) => &method.symbol,
        }
    }
}

impl Definitions {
    /// Returns the export data of the package at a path, as it is shared.
    fn held(&self, path: &[u8]) -> Option<&Arc<ExportData, Global>>
        ensures { option_copied result ≡ shared_at self.now path.now }
    {
        match self.packages.get(path) {
            None => None,
            Some(held) => held.as_ref(),
        }
    }

    /// Returns the export data of the package at a path, if it is known.
    pub fn export_data(&self, path: &[u8]) -> Option<&ExportData>
        ensures { option_copied result ≡ known_at self.now path.now }
    {
        match self.held(path) {
            None => None,
            Some(held) => Some(&**held),
        }
    }

    /// Returns the type definitions of the package at a path, if they are known.
    pub fn of(&self, path: &[u8]) -> Option<&[Definition]>
        ensures { option_copied result ≡ definitions_at self.now path.now }
    {
        match self.export_data(path) {
            None => None,
            Some(export_data) => Some(export_data.definitions.as_slice()),
        }
    }

    /// Returns the definition of a symbol of another package.
    pub fn get(&self, symbol: &Symbol) -> Option<&Definition>
        ensures { option_copied result ≡ imported_at self.now symbol.now }
    {
        let definitions = self.of(symbol.package.path())?;
        definitions.get(symbol.rank)
    }
}

impl Definition {
    /// Returns the member of that name that this definition writes.
    fn field(&self, name: &[u8]) -> Option<&Field>
        ensures { option_map (λ f. field_of f.now) result ≡ (definition_of self.now).field name.now }
    {
        self.fields.get(name)
    }

    /// Returns the method of that name.
    fn method(&self, name: &[u8]) -> Option<&Method>
        ensures { option_map (λ m. plain_method_of m.now) result ≡ (definition_of self.now).method name.now }
    {
        self.methods.get(name)
    }
}

impl<'w> World<'w> {
    /// Returns the definition of a symbol, of the file's own package or of another.
    #[tactic(auto, unfolding(crate::specs::WorldView::definition_at))]
    fn definition(&self, symbol: &Symbol) -> Option<&'w Definition>
        ensures { option_copied result ≡ definition_at self.now symbol.now }
    {
        if self.package.path() == symbol.package.path() {
            self.own.get(symbol.rank)
        } else {
            self.imported.get(symbol)
        }
    }

    /// Returns the underlying type of a definition. A definition that is not known is a struct of its own.
    #[tactic(auto, unfolding(crate::specs::WorldView::definition_in, crate::specs::WorldView::shape_of))]
    fn underlying_of<'a>(&'a self, symbol: &'a Symbol) -> Shape<'a>
        ensures { shape_of result ≡ underlying_in self.now symbol.now }
    {
        match self.definition(symbol) {
            Some(definition) => definition.underlying.shape(),
            None => Shape::Struct(symbol),
        }
    }

    /// Returns the underlying type of a type.
    #[tactic(auto, unfolding(crate::specs::View::type_of, crate::specs::WorldView::shape_of))]
    pub fn underlying<'a>(&'a self, of: &'a GoType) -> Shape<'a>
        ensures { shape_of result ≡ underlying (world_of self.now) (type_of of.now) }
    {
        match of {
            GoType::Basic(basic) => Shape::Plain(*basic),
            GoType::Pointer(target) => Shape::PointerTo(target),
            GoType::Slice(element) => Shape::SliceOf(element),
            GoType::Defined(symbol) => self.underlying_of(symbol),
        }
    }

    /// Returns the binding of the name at a token, none where it is bound to nothing.
    #[tactic(auto, unfolding(crate::specs::WorldView::bound_in))]
    pub fn bound(&self, place: usize) -> Option<&'w Bound>
        ensures { MatchOption result (bound_in self.now place ≡ Means Broken) (λ b. bound_in self.now place ≡ bound_of b.now) }
    {
        let index = self.names.get(place)?.bound?;
        self.bounds.get(index)
    }

    /// Returns the bytes of the name at a token.
    pub fn spelling(&self, place: usize) -> &'w [u8]
        ensures { result.now ≡ token_spelling (name_in self.now place) }
    {
        match self.names.get(place) {
            Some(name) => name.spelling,
            None => &[],
        }
    }

    /// Returns the definition whose written members a value of this type has: that of its struct or interface, or that of the struct to
    /// which it points.
    #[tactic(auto, unfolding(crate::specs::View::type_of, crate::specs::WorldView::shape_of, crate::specs::World::field_owner))]
    fn field_owner<'a>(&'a self, of: &'a GoType) -> Option<&'a Symbol>
        ensures { option_copied result ≡ field_owner (underlying_in self.now) (type_of of.now) }
    {
        match self.underlying(of) {
            Shape::Struct(symbol) | Shape::Interface(symbol) => Some(symbol),
            Shape::PointerTo(target) => match self.underlying(target) {
                Shape::Struct(symbol) => Some(symbol),
                _ => None,
            },
            _ => None,
        }
    }

    /// Whether a name in the file denotes the declaration `symbol` where the two are spelled alike: it is exported, or of the file's own
    /// package.
    fn sees(&self, symbol: &Symbol, exported: bool) -> bool
        ensures { result ≡ is_seen self.now.package.now symbol.now exported }
    {
        exported || self.package.path() == symbol.package.path()
    }

    /// Returns the member of that name that a definition writes, if the file's package sees it.
    #[tactic(auto, unfolding(crate::specs::WorldView::definition_in))]
    fn field(&self, of: &Symbol, name: &[u8]) -> Option<&'w Field>
        ensures { option_map (λ f. field_of f.now) result ≡ seen_field self.now.package.now ((definition_in self.now of.now).field name.now) }
    {
        let field = self.definition(of)?.field(name)?;
        if self.sees(&field.symbol, field.exported) {
            Some(field)
        } else {
            None
        }
    }

    /// Returns the method of that name of a defined type, if the file's package sees it.
    #[tactic(auto, unfolding(crate::specs::WorldView::definition_in))]
    fn method(&self, of: &Symbol, name: &[u8]) -> Option<&'w Method>
        ensures { option_map (λ m. plain_method_of m.now) result ≡ seen_method self.now.package.now ((definition_in self.now of.now).method name.now) }
    {
        let method = self.definition(of)?.method(name)?;
        if self.sees(&method.symbol, method.exported) {
            Some(method)
        } else {
            None
        }
    }

    /// Returns the member that the name at a token denotes, for the type before it.
    #[tactic(auto, unfolding(crate::specs::WorldView::member_in, crate::specs::WorldView::member_of, crate::specs::World::member_by))]
    pub fn member(&self, place: usize, of: &GoType) -> Option<Member<'w>>
        ensures { option_map member_of result ≡ member_in self.now place (type_of of.now) }
    {
        let name = self.spelling(place);
        if let Some(symbol) = self.field_owner(of) {
            if let Some(field) = self.field(symbol, name) {
                return Some(Member::Field(field));
            }
        }
        let method = self.method(owner(of)?, name)?;
        Some(Member::Method(method))
    }
}

/// A method of a method set. It has no signature where a parameter or result has a broken part.
#[derive(Clone, Copy)]
pub struct SetMethod<'w> {
    pub symbol: &'w Symbol,
    pub exported: bool,
    pub signature: Option<&'w Signature>,
}

/// Whether a method set holds a method of a receiver: that of T those of T, that of `*T` (`behind_star`) both.
fn reaches(behind_star: bool, on_pointer: bool) -> bool
    ensures { result ≡ reaches behind_star on_pointer }
{
    behind_star || !on_pointer
}

/// Returns a method of T as one of the method set of T, or of `*T`, if that holds it.
fn received_method(behind_star: bool, method: &Method) -> Option<SetMethod<'_>>
    ensures { option_map set_method_of result ≡ received_method behind_star (Some (plain_method_of method.now)) }
{
    if !reaches(behind_star, method.on_pointer) {
        return None;
    }
    Some(SetMethod {
        symbol: &method.symbol,
        exported: method.exported,
        signature: method.signature.as_ref(),
    })
}

/// Returns a written member as a method of the interface that writes it; a field is none.
#[tactic(auto, unfolding(crate::specs::View::form_of))]
fn as_set_method(field: &Field) -> Option<SetMethod<'_>>
    ensures { option_map set_method_of result ≡ as_set_method (Some (field_of field.now)) }
{
    match &field.form {
        WrittenAs::Field(_) => None,
        WrittenAs::Method(signature) => Some(SetMethod {
            symbol: &field.symbol,
            exported: field.exported,
            signature: Some(signature),
        }),
    }
}

/// Whether a signature, none where it is broken, is identical to the one that is wanted.
fn has_signature(signature: Option<&Signature>, wanted: &Signature) -> bool
    ensures { result ≡ has_signature (option_map (λ s. signature_of s.now) signature.entry) (signature_of wanted.now) }
{
    match signature {
        None => false,
        Some(signature) => signature.is_identical(wanted),
    }
}

/// Whether a method, which is spelled as the written member `asked`, is the method of the signature `wanted` that it asks for.
fn is_as_asked(asked: &Field, wanted: &Signature, method: Option<SetMethod<'_>>) -> bool
    ensures { result ≡ is_as_asked (field_of asked.now) (signature_of wanted.now) (option_map set_method_of method.entry) }
{
    let Some(method) = method else {
        return false;
    };
    (method.exported || asked.symbol.package.path() == method.symbol.package.path())
        && has_signature(method.signature, wanted)
}

/// Whether a method set has what a written member asks for; `method` is what it has under that name.
#[tactic(auto, unfolding(crate::specs::View::form_of))]
pub fn has_if_asked(asked: &Field, method: Option<SetMethod<'_>>) -> bool
    ensures { result ≡ has_if_asked (Some (field_of asked.now)) (option_map set_method_of method.entry) }
{
    match &asked.form {
        WrittenAs::Field(_) => true,
        WrittenAs::Method(wanted) => is_as_asked(asked, wanted, method),
    }
}

impl World<'_> {
    /// Returns the method of that name in the method set of a definition, or of pointers to its values.
    #[tactic(auto, unfolding(crate::specs::WorldView::definition_in, crate::specs::WorldView::shape_of))]
    pub fn in_set_of(
        &self,
        symbol: &Symbol,
        behind_star: bool,
        name: &[u8],
    ) -> Option<SetMethod<'_>>
        ensures { option_map set_method_of result ≡ in_set (definition_in self.now) behind_star symbol.now name.now }
    {
        if let Shape::Interface(written) = self.underlying_of(symbol) {
            if behind_star {
                return None;
            }
            return as_set_method(self.definition(written)?.field(name)?);
        }
        received_method(behind_star, self.definition(symbol)?.method(name)?)
    }

    /// Returns the method of that name in the method set of a type.
    #[tactic(auto, unfolding(crate::specs::View::type_of, crate::specs::World::in_method_set))]
    fn in_method_set(&self, of: &GoType, name: &[u8]) -> Option<SetMethod<'_>>
        ensures { option_map set_method_of result ≡ in_method_set (definition_in self.now) (type_of of.now) name.now }
    {
        match of {
            GoType::Defined(symbol) => self.in_set_of(symbol, false, name),
            GoType::Pointer(target) => match &**target {
                GoType::Defined(symbol) => self.in_set_of(symbol, true, name),
                _ => None,
            },
            _ => None,
        }
    }

    /// Whether a type has what a definition asks for under a name, if it asks for something.
    fn has_named(&self, of: &GoType, definition: &Definition, name: &[u8]) -> bool
        ensures { result ≡ has_if_asked ((definition_of definition.now).field name.now) (in_method_set (definition_in self.now) (type_of of.now) name.now) }
    {
        match definition.field(name) {
            None => true,
            Some(asked) => has_if_asked(asked, self.in_method_set(of, name)),
        }
    }

    /// Whether a type has what a definition asks for under each of the names under which it writes members.
    fn has_each(&self, of: &GoType, definition: &Definition) -> bool
        ensures { result ≡ list_all (λ name. has_if_asked ((definition_of definition.now).field name) (in_method_set (definition_in self.now) (type_of of.now) name)) (names_written (Some definition.now)) }
    {
        for (name, _) in &definition.fields {
            if !self.has_named(of, definition, name) {
                return false;
            }
        }
        true
    }

    /// Whether a type implements the interface that the definition of a symbol writes.
    #[tactic(auto, unfolding(crate::specs::WorldView::implements_in, crate::specs::WorldView::definition_in, crate::specs::WorldView::shape_of, crate::specs::World::implements_by))]
    pub fn implements(&self, of: &GoType, interface: &Symbol) -> bool
        ensures { result ≡ implements_in self.now (type_of of.now) interface.now }
    {
        let Shape::Interface(_) = self.underlying_of(interface) else {
            return false;
        };
        match self.definition(interface) {
            None => false,
            Some(definition) => self.has_each(of, definition),
        }
    }
}

/// Returns the definition whose methods the values of a type have.
#[tactic(auto, unfolding(crate::specs::View::type_of, crate::specs::World::owner))]
fn owner(of: &GoType) -> Option<&Symbol>
    ensures { option_copied result ≡ owner (type_of of.now) }
{
    match of {
        GoType::Defined(symbol) => Some(symbol),
        GoType::Pointer(target) => match &**target {
            GoType::Defined(symbol) => Some(symbol),
            _ => None,
        },
        _ => None,
    }
}
