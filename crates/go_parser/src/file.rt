//! Parses whole files: the package clause, imports and declarations.
ghost use Rattle.std.specs.Prelude.{◌≡◌, ◌∷◌, [], ◌<◌, length, IfOk, true, false};
ghost use Rattle.go_ast.specs.Grammar as grammar;
ghost use Rattle.go_ast.specs.Grammar.{A, is, Imports, Tops, FuncHead};
ghost use Rattle.go_parser.specs.Machine.{at};
ghost use Rattle.go_parser.specs.Parsing.{Parses, LeadsTo};
ghost use Rattle.go_ast.specs.Flatten.{all_tokens};
ghost use Rattle.go_parser.specs.Spelling.{imports_spelled, decl_spelled, func_spelled, file_spelled};
ghost use Rattle.std.specs.List.{All};
ghost use Rattle.go_ast.specs.WellFormed.{IsFunc, IsImports, IsDecl, IsFile};
ghost use Rattle.go_ast.specs.FileView.{imports_view, decl_view, func_view, file_view};

use crate::functions::{optional_receiver, params, results};
use crate::groups::group;
use crate::short_lists::push;
use crate::statements::block;
use crate::tokens::{Parsed, at, expect, open};
use go_ast::syntax::{Kind, Token};
use go_ast::tree::{Decl, File, FuncDecl, ImportDecl, ImportSpec, TypeSpec, VarSpec};
use std::alloc::Global;

/// Parses a whole file.
pub(crate) fn file(alloc: Global, tokens: &[Token], depth: u32) -> Parsed<'_, File>
    ensures exact { Parses (A grammar.File ∷ []) (λ x. file_spelled x.0) (λ x. x.1.now) depth tokens.now result }
    ensures formed { IfOk result (λ x. IsFile (file_view x.0)) }
{
    let (package, rest) = expect(tokens, Kind::Package, depth)?;
    let (name, rest) = expect(rest, Kind::Name, depth)?;
    let (semicolon, rest) = expect(rest, Kind::Semicolon, depth)?;
    let (imports, rest) = imports(alloc, rest, depth)?;
    let (decls, rest) = decls(alloc, rest, depth)?;
    let file = File {
        package,
        name,
        semicolon,
        imports,
        decls,
    };
    Ok((file, rest))
}

/// Parses the import declarations of a file.
fn imports(alloc: Global, tokens: &[Token], depth: u32) -> Parsed<'_, Vec<ImportDecl>>
    ensures exact { LeadsTo (A Imports ∷ []) (A Tops ∷ []) (λ x. all_tokens imports_spelled x.0.items) (λ x. x.1.now) depth tokens.now result }
    ensures formed { IfOk result (λ x. All (λ i. IsImports (imports_view i)) x.0.items) }
{
    let mut imports = Vec::new(alloc);
    let mut rest = tokens;
    'imports: while at(rest, Kind::Import) {
        let (next, after) = import_decl(alloc, rest, depth)?;
        push(&mut imports, next)?;
        rest = after;
    }
    Ok((imports, rest))
}

/// Parses an import declaration and its semicolon.
fn import_decl(alloc: Global, tokens: &[Token], depth: u32) -> Parsed<'_, ImportDecl>
    requires { at (is Kind.Import) tokens.now ≡ true }
    ensures exact { LeadsTo (A Imports ∷ []) (A Imports ∷ []) (λ x. imports_spelled x.0) (λ x. x.1.now) depth tokens.now result }
    ensures shorter { IfOk result (λ x. length x.1.now < length tokens.now) }
    ensures formed { IfOk result (λ x. IsImports (imports_view x.0)) }
{
    let (at, rest) = expect(tokens, Kind::Import, depth)?;
    let (group, rest) = group::<ImportSpec>(alloc, rest, depth)?;
    let (semicolon, rest) = expect(rest, Kind::Semicolon, depth)?;
    let import = ImportDecl {
        at,
        group,
        semicolon,
    };
    Ok((import, rest))
}

/// Parses the declarations of a file that follow its imports.
fn decls(alloc: Global, tokens: &[Token], depth: u32) -> Parsed<'_, Vec<Decl>>
    ensures exact { Parses (A Tops ∷ []) (λ x. all_tokens decl_spelled x.0.items) (λ x. x.1.now) depth tokens.now result }
    ensures formed { IfOk result (λ x. All (λ d. IsDecl (decl_view d)) x.0.items) }
{
    let mut decls = Vec::new(alloc);
    let mut rest = tokens;
    'decls: while begins_decl(rest) {
        let (next, after) = decl(alloc, rest, depth)?;
        push(&mut decls, next)?;
        rest = after;
    }
    Ok((decls, rest))
}

/// Whether a top-level declaration comes next.
fn begins_decl(tokens: &[Token]) -> bool
    ensures begins { result ≡ true → at (is Kind.Var) tokens.now ≡ false → at (is Kind.TypeWord) tokens.now ≡ false → at (is Kind.Func) tokens.now ≡ true }
    ensures var { result ≡ false → at (is Kind.Var) tokens.now ≡ false }
    ensures type_word { result ≡ false → at (is Kind.TypeWord) tokens.now ≡ false }
    ensures func { result ≡ false → at (is Kind.Func) tokens.now ≡ false }
{
    at(tokens, Kind::Var) || at(tokens, Kind::TypeWord) || at(tokens, Kind::Func)
}

/// Parses a top-level declaration and its semicolon.
fn decl(alloc: Global, tokens: &[Token], depth: u32) -> Parsed<'_, Decl>
    requires { at (is Kind.Var) tokens.now ≡ false → at (is Kind.TypeWord) tokens.now ≡ false → at (is Kind.Func) tokens.now ≡ true }
    ensures exact { LeadsTo (A Tops ∷ []) (A Tops ∷ []) (λ x. decl_spelled x.0) (λ x. x.1.now) depth tokens.now result }
    ensures shorter { IfOk result (λ x. length x.1.now < length tokens.now) }
    ensures formed { IfOk result (λ x. IsDecl (decl_view x.0)) }
{
    if at(tokens, Kind::Var) {
        return var_decl(alloc, tokens, depth);
    }
    if at(tokens, Kind::TypeWord) {
        return type_decl(alloc, tokens, depth);
    }
    func_decl(alloc, tokens, depth)
}

/// Parses a declaration of package-level variables and its semicolon.
fn var_decl(alloc: Global, tokens: &[Token], depth: u32) -> Parsed<'_, Decl>
    requires { at (is Kind.Var) tokens.now ≡ true }
    ensures exact { LeadsTo (A Tops ∷ []) (A Tops ∷ []) (λ x. decl_spelled x.0) (λ x. x.1.now) depth tokens.now result }
    ensures shorter { IfOk result (λ x. length x.1.now < length tokens.now) }
    ensures formed { IfOk result (λ x. IsDecl (decl_view x.0)) }
{
    let (at, rest) = expect(tokens, Kind::Var, depth)?;
    let (group, rest) = group::<VarSpec>(alloc, rest, depth)?;
    let (semicolon, rest) = expect(rest, Kind::Semicolon, depth)?;
    let decl = Decl::Var {
        at,
        group,
        semicolon,
    };
    Ok((decl, rest))
}

/// Parses a declaration of types and its semicolon.
fn type_decl(alloc: Global, tokens: &[Token], depth: u32) -> Parsed<'_, Decl>
    requires var { at (is Kind.Var) tokens.now ≡ false }
    requires type_word { at (is Kind.TypeWord) tokens.now ≡ true }
    ensures exact { LeadsTo (A Tops ∷ []) (A Tops ∷ []) (λ x. decl_spelled x.0) (λ x. x.1.now) depth tokens.now result }
    ensures shorter { IfOk result (λ x. length x.1.now < length tokens.now) }
    ensures formed { IfOk result (λ x. IsDecl (decl_view x.0)) }
{
    let (at, rest) = expect(tokens, Kind::TypeWord, depth)?;
    let (group, rest) = group::<TypeSpec>(alloc, rest, depth)?;
    let (semicolon, rest) = expect(rest, Kind::Semicolon, depth)?;
    let decl = Decl::Type {
        at,
        group,
        semicolon,
    };
    Ok((decl, rest))
}

/// Parses a declaration of a function or method and its semicolon.
fn func_decl(alloc: Global, tokens: &[Token], depth: u32) -> Parsed<'_, Decl>
    requires var { at (is Kind.Var) tokens.now ≡ false }
    requires type_word { at (is Kind.TypeWord) tokens.now ≡ false }
    requires func { at (is Kind.Func) tokens.now ≡ true }
    ensures exact { LeadsTo (A Tops ∷ []) (A Tops ∷ []) (λ x. decl_spelled x.0) (λ x. x.1.now) depth tokens.now result }
    ensures shorter { IfOk result (λ x. length x.1.now < length tokens.now) }
    ensures formed { IfOk result (λ x. IsDecl (decl_view x.0)) }
{
    let (at, rest) = expect(tokens, Kind::Func, depth)?;
    let (func, rest) = func(alloc, rest, depth)?;
    let (semicolon, rest) = expect(rest, Kind::Semicolon, depth)?;
    let decl = Decl::Func {
        at,
        func,
        semicolon,
    };
    Ok((decl, rest))
}

/// Parses a function or method after the keyword `func`.
fn func(alloc: Global, tokens: &[Token], depth: u32) -> Parsed<'_, FuncDecl>
    ensures exact { Parses (A FuncHead ∷ []) (λ x. func_spelled x.0) (λ x. x.1.now) depth tokens.now result }
    ensures formed { IfOk result (λ x. IsFunc (func_view x.0)) }
{
    let (receiver, rest) = optional_receiver(tokens, depth)?;
    let (name, rest) = expect(rest, Kind::Name, depth)?;
    let ((open, inside), rest) = open(rest, Kind::LeftParen, depth)?;
    let ((params, close), rest) = params(alloc, rest, inside)?;
    let (results, rest) = results(alloc, rest, depth)?;
    let (body, rest) = block(alloc, rest, depth)?;
    let func = FuncDecl {
        receiver,
        name,
        open,
        params,
        close,
        results,
        body,
    };
    Ok((func, rest))
}
