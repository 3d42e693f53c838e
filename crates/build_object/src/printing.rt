//! Prints lines of code.
ghost use Rattle.std.specs.Prelude.{◌≡◌, ◌<◌, ◌++◌, codes, decimal, OnOk, map, reverse};
ghost use Rattle.std.specs.List.{flat_map};
ghost use Rattle.types_expr.specs.View.{type_of};
ghost use Rattle.types_declared.specs.Written.{basic_name};
ghost use Rattle.types_declared.specs.MeaningOf.{builtin_name};
ghost use Rattle.build_object.specs.LineView.{global_of, function_of, line_of};
ghost use Rattle.build_object.specs.PackagesView.{type_in};
ghost use Rattle.build_object.specs.Text.{global_text, function_text, type_text, types_behind, types_joined, type_list, hex_digit, hex_byte, bytes_text, operator_text, with_number, words_of, ended, code_text};

use crate::instructions::{FunctionName, GlobalName, Instruction};
use crate::packages::ObjectNames;
use go_ast::syntax::BinaryOp;
use itoa::Buffer;
use std::alloc::AllocError;
use types_expr::types::{Basic, Builtin, GoType};

/// Adds a word.
pub fn push_word(text: &mut Vec<u8>, word: &[u8]) -> Result<(), AllocError>
    ensures { OnOk result (text.new.items ≡ text.old.items ++ word.now) }
{
    text.extend_from_slice(word)
}

/// Adds a word and another.
pub fn push_words(text: &mut Vec<u8>, word: &[u8], other: &[u8]) -> Result<(), AllocError>
    ensures { OnOk result (text.new.items ≡ text.old.items ++ (word.now ++ other.now)) }
{
    push_word(text, word)?;
    push_word(text, other)
}

/// Adds a word between two others.
pub fn push_between(
    text: &mut Vec<u8>,
    before: &[u8],
    word: &[u8],
    after: &[u8],
) -> Result<(), AllocError>
    ensures { OnOk result (text.new.items ≡ text.old.items ++ (before.now ++ (word.now ++ after.now))) }
{
    push_word(text, before)?;
    push_words(text, word, after)
}

/// Adds a word and a number in decimal.
pub fn push_numbered(text: &mut Vec<u8>, word: &[u8], number: usize) -> Result<(), AllocError>
    ensures { OnOk result (text.new.items ≡ text.old.items ++ with_number word.now number) }
{
    let mut digits = Buffer::new();
    push_words(text, word, digits.format(number).as_bytes())
}

/// Adds a word and the value of an integer literal in decimal.
pub fn push_word_integer(text: &mut Vec<u8>, word: &[u8], number: u64) -> Result<(), AllocError>
    ensures { OnOk result (text.new.items ≡ text.old.items ++ with_number word.now number) }
{
    let mut digits = Buffer::new();
    push_words(text, word, digits.format(number).as_bytes())
}

/// Adds the name of a package-level declaration.
fn push_global(text: &mut Vec<u8>, name: GlobalName<'_>) -> Result<(), AllocError>
    ensures { OnOk result (text.new.items ≡ text.old.items ++ global_text (global_of name.entry)) }
{
    push_between(text, name.path, b"#", name.name)
}

/// The name of a predeclared type.
fn basic_name(basic: Basic) -> &'static [u8]
    ensures { result.now ≡ basic_name basic }
{
    match basic {
        Basic::Bool => b"bool",
        Basic::Int => b"int",
        Basic::String => b"string",
    }
}

/// The name of a predeclared function.
fn builtin_name(builtin: Builtin) -> &'static [u8]
    ensures { result.now ≡ builtin_name builtin }
{
    match builtin {
        Builtin::Append => b"append",
        Builtin::Len => b"len",
        Builtin::Panic => b"panic",
        Builtin::Print => b"print",
        Builtin::Println => b"println",
    }
}

/// Adds the text of a type.
#[tactic(auto, unfolding(types_expr::specs::View::type_of, crate::specs::Text::type_text))]
pub fn push_type(
    text: &mut Vec<u8>,
    packages: &ObjectNames<'_>,
    own: &GoType,
) -> Result<(), AllocError>
    ensures { OnOk result (text.new.items ≡ text.old.items ++ type_text (type_in packages.now) (type_of own.now)) }
{
    match own {
        GoType::Basic(basic) => push_word(text, basic_name(*basic)),
        GoType::Defined(symbol) => match packages.type_name(symbol) {
            None => Ok(()),
            Some(name) => push_global(text, name),
        },
        GoType::Pointer(target) => {
            push_word(text, b"*")?;
            push_type(text, packages, target)
        }
        GoType::Slice(element) => {
            push_word(text, b"[]")?;
            push_type(text, packages, element)
        }
    }
}

/// Adds a word and a type.
pub fn push_word_type(
    text: &mut Vec<u8>,
    packages: &ObjectNames<'_>,
    word: &[u8],
    own: &GoType,
) -> Result<(), AllocError>
    ensures { OnOk result (text.new.items ≡ text.old.items ++ (word.now ++ type_text (type_in packages.now) (type_of own.now))) }
{
    push_word(text, word)?;
    push_type(text, packages, own)
}

/// Adds types, each behind a separator.
fn push_types_behind(
    text: &mut Vec<u8>,
    packages: &ObjectNames<'_>,
    separator: &[u8],
    types: &[GoType],
) -> Result<(), AllocError>
    ensures { OnOk result (text.new.items ≡ text.old.items ++ types_behind (type_in packages.now) separator.now (map type_of types.now)) }
{
    for own in types {
        push_word_type(text, packages, separator, own)?;
    }
    Ok(())
}

/// Adds types with a separator between them.
pub fn push_types(
    text: &mut Vec<u8>,
    packages: &ObjectNames<'_>,
    separator: &[u8],
    types: &[GoType],
) -> Result<(), AllocError>
    ensures { OnOk result (text.new.items ≡ text.old.items ++ types_joined (type_in packages.now) separator.now (map type_of types.now)) }
{
    let [first, others @ ..] = types else {
        return Ok(());
    };
    push_type(text, packages, first)?;
    push_types_behind(text, packages, separator, others)
}

/// Adds the types of parameters or results in parentheses.
pub fn push_enclosed(
    text: &mut Vec<u8>,
    packages: &ObjectNames<'_>,
    types: &[GoType],
) -> Result<(), AllocError>
    ensures { OnOk result (text.new.items ≡ text.old.items ++ type_list (type_in packages.now) (map type_of types.now)) }
{
    push_word(text, b"(")?;
    push_types(text, packages, b",", types)?;
    push_word(text, b")")
}

/// Adds a space, and the types of parameters or results in parentheses.
pub fn push_type_list(
    text: &mut Vec<u8>,
    packages: &ObjectNames<'_>,
    types: &[GoType],
) -> Result<(), AllocError>
    ensures { OnOk result (text.new.items ≡ text.old.items ++ (codes " " ++ type_list (type_in packages.now) (map type_of types.now))) }
{
    push_word(text, b" (")?;
    push_types(text, packages, b",", types)?;
    push_word(text, b")")
}

/// A digit of base 16, in lower case.
fn hex_digit(digit: u8) -> u8
    requires { digit < 16 }
    ensures { result ≡ hex_digit digit }
{
    if digit < 10 { b'0' + digit } else { 87 + digit }
}

/// Adds the two digits of a byte.
fn push_hex_byte(text: &mut Vec<u8>, byte: u8) -> Result<(), AllocError>
    ensures { OnOk result (text.new.items ≡ text.old.items ++ hex_byte byte) }
{
    push_word(text, &[hex_digit(byte / 16), hex_digit(byte % 16)])
}

/// Adds two digits for each byte.
fn push_hex(text: &mut Vec<u8>, bytes: &[u8]) -> Result<(), AllocError>
    ensures { OnOk result (text.new.items ≡ text.old.items ++ flat_map hex_byte bytes.now) }
{
    for byte in bytes {
        push_hex_byte(text, *byte)?;
    }
    Ok(())
}

/// The text of a binary operator, as in Go.
#[tactic(auto, unfolding(crate::specs::Text::operator_text))]
fn operator_text(op: BinaryOp) -> &'static [u8]
    ensures { result.now ≡ operator_text op }
{
    match op {
        BinaryOp::Multiply => b"*",
        BinaryOp::Divide => b"/",
        BinaryOp::Remainder => b"%",
        BinaryOp::Add => b"+",
        BinaryOp::Subtract => b"-",
        BinaryOp::Equal => b"==",
        BinaryOp::NotEqual => b"!=",
        BinaryOp::Less => b"<",
        BinaryOp::LessEqual => b"<=",
        BinaryOp::Greater => b">",
        BinaryOp::GreaterEqual => b">=",
        BinaryOp::And => b"&&",
        BinaryOp::Or => b"||",
    }
}

/// Adds a word and the name of a package-level declaration.
pub fn push_word_global(
    text: &mut Vec<u8>,
    word: &[u8],
    name: GlobalName<'_>,
) -> Result<(), AllocError>
    ensures { OnOk result (text.new.items ≡ text.old.items ++ (word.now ++ global_text (global_of name.entry))) }
{
    push_word(text, word)?;
    push_global(text, name)
}

/// Adds a word and the name of a function.
#[tactic(auto, unfolding(crate::specs::LineView::function_of, crate::specs::Text::function_text))]
pub fn push_word_function(
    text: &mut Vec<u8>,
    word: &[u8],
    name: FunctionName<'_>,
) -> Result<(), AllocError>
    ensures { OnOk result (text.new.items ≡ text.old.items ++ (word.now ++ function_text (function_of name.entry))) }
{
    match name {
        FunctionName::Plain(name) => push_word_global(text, word, name),
        FunctionName::Method { receiver, name } => {
            push_word_global(text, word, receiver)?;
            push_words(text, b"#", name)
        }
        FunctionName::Initializer { path, number } => {
            push_words(text, word, path)?;
            push_numbered(text, b"#init.", number)
        }
    }
}

/// Adds the words of a call of a function.
fn push_call(
    text: &mut Vec<u8>,
    function: FunctionName<'_>,
    arguments: usize,
) -> Result<(), AllocError>
    ensures { OnOk result (text.new.items ≡ text.old.items ++ (codes "call " ++ (function_text (function_of function.entry) ++ with_number (codes " ") arguments))) }
{
    push_word_function(text, b"call ", function)?;
    push_numbered(text, b" ", arguments)
}

/// Adds the words of a call of a method that an interface asks for.
fn push_asked_call(
    text: &mut Vec<u8>,
    function: FunctionName<'_>,
    arguments: usize,
) -> Result<(), AllocError>
    ensures { OnOk result (text.new.items ≡ text.old.items ++ (codes "icall " ++ (function_text (function_of function.entry) ++ with_number (codes " ") arguments))) }
{
    push_word_function(text, b"icall ", function)?;
    push_numbered(text, b" ", arguments)
}

/// Adds the words of a call of a predeclared function.
fn push_builtin(text: &mut Vec<u8>, builtin: Builtin, arguments: usize) -> Result<(), AllocError>
    ensures { OnOk result (text.new.items ≡ text.old.items ++ (codes "builtin " ++ (builtin_name builtin ++ with_number (codes " ") arguments))) }
{
    push_words(text, b"builtin ", builtin_name(builtin))?;
    push_numbered(text, b" ", arguments)
}

/// Adds a word and the bytes of a string.
pub fn push_word_bytes(text: &mut Vec<u8>, word: &[u8], bytes: &[u8]) -> Result<(), AllocError>
    ensures { OnOk result (text.new.items ≡ text.old.items ++ (word.now ++ bytes_text bytes.now)) }
{
    push_words(text, word, b"x")?;
    push_hex(text, bytes)
}

/// Adds the words of a line of code.
#[tactic(auto, unfolding(crate::specs::LineView::line_of, crate::specs::Text::words_of))]
fn push_line_words(
    text: &mut Vec<u8>,
    packages: &ObjectNames<'_>,
    line: &Instruction<'_>,
) -> Result<(), AllocError>
    ensures { OnOk result (text.new.items ≡ text.old.items ++ words_of (type_in packages.now) (line_of line.now)) }
{
    match line {
        Instruction::Integer(n) => push_word_integer(text, b"int ", *n),
        Instruction::Text(bytes) => push_word_bytes(text, b"str ", *bytes),
        Instruction::Truth(true) => push_word(text, b"bool 1"),
        Instruction::Truth(false) => push_word(text, b"bool 0"),
        Instruction::Nil => push_word(text, b"nil"),
        Instruction::Local(slot) => push_numbered(text, b"local ", *slot),
        Instruction::Global(name) => push_word_global(text, b"global ", *name),
        Instruction::Field(position) => push_numbered(text, b"field ", *position),
        Instruction::FieldThrough(position) => push_numbered(text, b"ptrfield ", *position),
        Instruction::Index => push_word(text, b"index"),
        Instruction::Load => push_word(text, b"load"),
        Instruction::Negate => push_word(text, b"neg"),
        Instruction::Not => push_word(text, b"not"),
        Instruction::Operate(op) => push_words(text, b"op ", operator_text(*op)),
        Instruction::Duplicate => push_word(text, b"dup"),
        Instruction::Pop => push_word(text, b"pop"),
        Instruction::JumpUnless(lines) => push_numbered(text, b"jz ", *lines),
        Instruction::JumpIf(lines) => push_numbered(text, b"jnz ", *lines),
        Instruction::Jump(lines) => push_numbered(text, b"jump ", *lines),
        Instruction::JumpBack(lines) => push_numbered(text, b"jump -", *lines),
        Instruction::Call {
            function,
            arguments,
        } => push_call(text, *function, *arguments),
        Instruction::CallBuiltin { builtin, arguments } => {
            push_builtin(text, *builtin, *arguments)
        }
        Instruction::CallAsked {
            function,
            arguments,
        } => push_asked_call(text, *function, *arguments),
        Instruction::Enter(own) => push_word_type(text, packages, b"iface ", own),
        Instruction::Zero(own) => push_word_type(text, packages, b"zero ", own),
        Instruction::With(position) => push_numbered(text, b"with ", *position),
        Instruction::MakeSlice(count) => push_numbered(text, b"slice ", *count),
        Instruction::New => push_word(text, b"new"),
        Instruction::LocalAddress(slot) => push_numbered(text, b"addrlocal ", *slot),
        Instruction::GlobalAddress(name) => push_word_global(text, b"addrglobal ", *name),
        Instruction::FieldAddress(position) => push_numbered(text, b"addrfield ", *position),
        Instruction::IndexAddress => push_word(text, b"addrindex"),
        Instruction::BlankAddress => push_word(text, b"blank"),
        Instruction::Set(slot) => push_numbered(text, b"set ", *slot),
        Instruction::Assign(count) => push_numbered(text, b"assign ", *count),
        Instruction::Return(count) => push_numbered(text, b"ret ", *count),
        Instruction::End => push_word(text, b"end"),
    }
}

/// Adds a line of code.
fn push_line(
    text: &mut Vec<u8>,
    packages: &ObjectNames<'_>,
    line: &Instruction<'_>,
) -> Result<(), AllocError>
    ensures { OnOk result (text.new.items ≡ text.old.items ++ ended (words_of (type_in packages.now) (line_of line.now))) }
{
    push_line_words(text, packages, line)?;
    push_word(text, b"\n")
}

/// Adds lines of code, of which the last is the first in the list.
pub fn push_lines(
    text: &mut Vec<u8>,
    packages: &ObjectNames<'_>,
    lines: &[Instruction<'_>],
) -> Result<(), AllocError>
    ensures { OnOk result (text.new.items ≡ text.old.items ++ code_text (type_in packages.now) (reverse (map line_of lines.now))) }
{
    for i in (0..lines.len()).rev() {
        push_line(text, packages, &lines[i])?;
    }
    Ok(())
}
