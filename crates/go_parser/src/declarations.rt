//! Parses imports, package-level variables and type definitions.
ghost use Rattle.std.specs.Prelude.{◌∷◌, ◌++◌, [], IfOk};
ghost use Rattle.go_ast.specs.Grammar as grammar;
ghost use Rattle.go_ast.specs.Grammar.{A, One, is, MoreNames, GlobalValues, TypeUse, Fields};
ghost use Rattle.go_parser.specs.Parsing.{Parses};
ghost use Rattle.go_ast.specs.Flatten.{sign, tokens_if, value_tokens, basic_tokens};
ghost use Rattle.go_ast.specs.View.{option_view, list_view};
ghost use Rattle.go_ast.specs.FileView.{var_values_view, body_view, field_view, global_view, type_spec_view};
ghost use Rattle.go_parser.specs.Spelling.{import_spelled, global_spelled, type_spec_spelled, body_spelled, field_spelled};
ghost use Rattle.go_parser.specs.ListSpelling.{items_spelled};
ghost use Rattle.go_ast.specs.WellFormed.{IsList, IsOpenList, IsNoneOr, Any, IsGlobal, IsField, IsBody, IsTypeSpec};

use crate::groups::Spec;
use crate::interfaces::interface_body;
use crate::names::{literals, names};
use crate::short_lists::push;
use crate::tokens::{Parsed, at, expect, goes_on, open, separator};
use crate::types::type_expr;
use go_ast::syntax::{Kind, Token};
use go_ast::tree::{FieldDecl, ImportSpec, Item, TypeBody, TypeSpec, VarSpec, VarValues};
use std::alloc::Global;

impl Spec for ImportSpec {
    ghost item = { grammar.ImportItem };

    ghost spelled = { λ x. import_spelled x };

    ghost is_formed = { λ x. Any x };

    /// Parses an import spec: `name "path"`, where the name may be absent.
    fn parse(alloc: Global, tokens: &[Token], depth: u32) -> Parsed<'_, ImportSpec> {
        let (name, rest) = separator(tokens, Kind::Name);
        let (path, rest) = expect(rest, Kind::Text, depth)?;
        Ok((ImportSpec { name, path }, rest))
    }
}

impl Spec for VarSpec {
    ghost item = { grammar.GlobalItem };

    ghost spelled = { λ x. global_spelled x };

    ghost is_formed = { λ x. IsGlobal (global_view x) };

    /// Parses package-level variables of one type: names, a type, and values, if there are any.
    fn parse(alloc: Global, tokens: &[Token], depth: u32) -> Parsed<'_, VarSpec> {
        let (names, rest) = names(alloc, tokens, depth)?;
        let (var_type, rest) = type_expr(alloc, rest, depth)?;
        let (values, rest) = var_values(alloc, rest, depth)?;
        let spec = VarSpec {
            names,
            var_type,
            values,
        };
        Ok((spec, rest))
    }
}

impl Spec for TypeSpec {
    ghost item = { grammar.TypeItem };

    ghost spelled = { λ x. type_spec_spelled x };

    ghost is_formed = { λ x. IsTypeSpec (type_spec_view x) };

    /// Parses a type definition: a name and its right side.
    fn parse(alloc: Global, tokens: &[Token], depth: u32) -> Parsed<'_, TypeSpec> {
        let (name, rest) = expect(tokens, Kind::Name, depth)?;
        let (body, rest) = type_body(alloc, rest, depth)?;
        Ok((TypeSpec { name, body }, rest))
    }
}

/// Parses the values of package-level variables, if there are any.
fn var_values(alloc: Global, tokens: &[Token], depth: u32) -> Parsed<'_, Option<VarValues>>
    ensures exact { Parses (A GlobalValues ∷ []) (λ x. tokens_if (value_tokens basic_tokens) (option_view var_values_view x.0)) (λ x. x.1.now) depth tokens.now result }
    ensures formed { IfOk result (λ x. IsNoneOr (λ v. IsList Any v.1) (option_view var_values_view x.0)) }
{
    if !at(tokens, Kind::Assign) {
        return Ok((None, tokens));
    }
    let (assign, rest) = expect(tokens, Kind::Assign, depth)?;
    let (values, rest) = literals(alloc, rest, depth)?;
    Ok((Some(VarValues { assign, values }), rest))
}

/// Parses the right side of a type definition: a type, a struct or an interface.
fn type_body(alloc: Global, tokens: &[Token], depth: u32) -> Parsed<'_, TypeBody>
    ensures exact { Parses (A grammar.TypeBody ∷ []) (λ x. body_spelled x.0) (λ x. x.1.now) depth tokens.now result }
    ensures formed { IfOk result (λ x. IsBody (body_view x.0)) }
{
    if at(tokens, Kind::Struct) {
        let (at, rest) = expect(tokens, Kind::Struct, depth)?;
        let ((open, inside), rest) = open(rest, Kind::LeftBrace, depth)?;
        let ((fields, close), rest) = fields(alloc, rest, inside)?;
        let body = TypeBody::Struct {
            at,
            open,
            fields,
            close,
        };
        return Ok((body, rest));
    }
    if at(tokens, Kind::Interface) {
        return interface_body(alloc, tokens, depth);
    }
    let (type_expr, rest) = type_expr(alloc, tokens, depth)?;
    Ok((TypeBody::Type(type_expr), rest))
}

/// Parses the fields of a struct and its closing brace.
fn fields(alloc: Global, tokens: &[Token], depth: u32) -> Parsed<'_, (Vec<Item<FieldDecl>>, u32)>
    ensures exact { Parses (A Fields ∷ []) (λ x. items_spelled Kind.Semicolon field_spelled x.0.0.items ++ (sign Kind.RightBrace x.0.1 ∷ [])) (λ x. x.1.now) depth tokens.now result }
    ensures formed { IfOk result (λ x. IsOpenList IsField (list_view field_view x.0.0.items)) }
{
    let mut fields = Vec::new(alloc);
    let mut rest = tokens;
    let mut more = true;
    'fields: while goes_on(more, rest, Kind::RightBrace) {
        let (value, after) = field(alloc, rest, depth)?;
        let (separator, after) = separator(after, Kind::Semicolon);
        more = separator.is_some();
        push(&mut fields, Item { value, separator })?;
        rest = after;
    }
    let (close, rest) = expect(rest, Kind::RightBrace, depth)?;
    Ok(((fields, close), rest))
}

/// Parses fields of one type.
fn field(alloc: Global, tokens: &[Token], depth: u32) -> Parsed<'_, FieldDecl>
    ensures exact { Parses (One (is Kind.Name) ∷ A MoreNames ∷ A TypeUse ∷ []) (λ x. field_spelled x.0) (λ x. x.1.now) depth tokens.now result }
    ensures formed { IfOk result (λ x. IsField (field_view x.0)) }
{
    let (names, rest) = names(alloc, tokens, depth)?;
    let (field_type, rest) = type_expr(alloc, rest, depth)?;
    Ok((FieldDecl { names, field_type }, rest))
}
