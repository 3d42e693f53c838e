//! The meanings of predeclared identifiers (the Go specification, "Predeclared identifiers").
ghost use Rattle.std.specs.Prelude.{◌≡◌, ◌↔◌, codes, option_map, IsTrue, MatchOption};
ghost use Rattle.types_expr.specs.declared.types.Basic.{Basic};
ghost use Rattle.types_expr.specs.declared.types.Builtin.{Builtin};
ghost use Rattle.types_expr.specs.WorldView.{bound_of};
ghost use Rattle.types_declared.specs.Written.{basic_name};
ghost use Rattle.types_declared.specs.MeaningOf.{builtin_name};
ghost use Rattle.types_info.specs.MeaningsView.{IsTruthName, IsPredeclaredFound, IsValueFound};

use types_expr::types::{Basic, Builtin, GoType};
use types_expr::world::Bound;

/// The predeclared type of a name; none where it is another name.
fn basic_of(name: &[u8]) -> Option<Basic>
    ensures { MatchOption result ((b : Basic) → name.now ≡ basic_name b → ⊥) (λ b. name.now ≡ basic_name b) }
{
    if name == b"bool".as_slice() {
        Some(Basic::Bool)
    } else if name == b"int".as_slice() {
        Some(Basic::Int)
    } else if name == b"string".as_slice() {
        Some(Basic::String)
    } else {
        None
    }
}

/// The predeclared function of a name; none where it is another name.
fn builtin_of(name: &[u8]) -> Option<Builtin>
    ensures { MatchOption result ((b : Builtin) → name.now ≡ builtin_name b → ⊥) (λ b. name.now ≡ builtin_name b) }
{
    if name == b"append".as_slice() {
        Some(Builtin::Append)
    } else if name == b"len".as_slice() {
        Some(Builtin::Len)
    } else if name == b"panic".as_slice() {
        Some(Builtin::Panic)
    } else if name == b"print".as_slice() {
        Some(Builtin::Print)
    } else if name == b"println".as_slice() {
        Some(Builtin::Println)
    } else {
        None
    }
}

/// Whether a name is `true` or `false`.
fn is_truth(name: &[u8]) -> bool
    ensures { IsTrue result ↔ IsTruthName name.now }
{
    name == b"true".as_slice() || name == b"false".as_slice()
}

/// Whether a name is `nil`.
fn is_nil(name: &[u8]) -> bool
    ensures { IsTrue result ↔ (name.now ≡ codes "nil") }
{
    name == b"nil".as_slice()
}

/// The meaning of a name that is neither `true` nor `false`, if it is `nil`.
fn nil_of(name: &[u8]) -> Option<Bound>
    requires { IsTruthName name.now → ⊥ }
    ensures { IsValueFound name.now (option_map bound_of result) }
{
    if is_nil(name) { Some(Bound::Nil) } else { None }
}

/// The meaning of a name as a predeclared value: `true`, `false` or `nil`; none where it is another name.
fn value_of(name: &[u8]) -> Option<Bound>
    ensures { IsValueFound name.now (option_map bound_of result) }
{
    if is_truth(name) {
        Some(Bound::Truth)
    } else {
        nil_of(name)
    }
}

/// The meaning of a name that is no predeclared type; none where it isn't predeclared.
fn operand_of(name: &[u8]) -> Option<Bound>
    requires { (b : Basic) → name.now ≡ basic_name b → ⊥ }
    ensures { IsPredeclaredFound name.now (option_map bound_of result) }
{
    match builtin_of(name) {
        None => value_of(name),
        Some(builtin) => Some(Bound::Builtin(builtin)),
    }
}

/// The meaning of a predeclared name; none where it isn't predeclared.
pub fn predeclared(name: &[u8]) -> Option<Bound>
    ensures { IsPredeclaredFound name.now (option_map bound_of result) }
{
    match basic_of(name) {
        None => operand_of(name),
        Some(basic) => Some(Bound::TypeName(GoType::Basic(basic))),
    }
}
