//! The source of the code of a file: all that the code depends on beside the file's tree.
ghost use Rattle.std.specs.Prelude.{◌≡◌, option_map};
ghost use Rattle.types_expr.specs.View.{type_of};
ghost use Rattle.build_object.specs.LineView.{global_of, function_of};
ghost use Rattle.go_scope.specs.Named.{name_value};
ghost use Rattle.build_object.specs.SourceView.{source_of};

use crate::instructions::{FunctionName, GlobalName};
use crate::numbered::NumberedPlaces;
use crate::packages::ObjectNames;
use go_scanner::integer_value;
use types_expr::found::{Entering, MemberUse};
use types_expr::types::GoType;
use types_expr::world::World;

/// The mark of the name at a token: the package-level declaration to which it is bound, and whether this is the predeclared `true`.
#[derive(Clone, Copy)]
pub struct Mark<'a> {
    pub global: Option<GlobalName<'a>>,
    pub truth: bool,
}

/// A method that an interface asks for: the token of its name in the interface, and its name in objects.
#[derive(Clone, Copy)]
pub struct NamedMethod<'a> {
    pub place: usize,
    pub name: FunctionName<'a>,
}

/// The source of the code of a file. `world` has the meanings of names, and `uses` the uses of members, at the tokens `used`. `enterings` are
/// the values that enter interfaces, at the tokens `entered`, and `asked` the methods that its interfaces ask for, at the tokens `asked_at`.
/// `marks` and `texts` have the marks of names and the values of string literals, by tokens. `packages` has the names of declarations.
#[derive(Drop)]
pub struct Source<'a> {
    pub world: World<'a>,
    pub uses: &'a [MemberUse],
    pub used: NumberedPlaces,
    pub enterings: &'a [Entering],
    pub entered: NumberedPlaces,
    pub asked: Vec<NamedMethod<'a>>,
    pub asked_at: NumberedPlaces,
    pub marks: Vec<Mark<'a>>,
    pub texts: Vec<Option<Vec<u8>>>,
    pub packages: &'a ObjectNames<'a>,
}

impl<'a> Source<'a> {
    /// The type before the selector at a token, or of the composite literal around the key at a token.
    pub fn before(&self, token: usize) -> Option<&GoType>
        ensures { option_map (λ t. type_of t.now) result ≡ (source_of self.now).before token }
    {
        match self.used.get(token) {
            None => None,
            Some(number) => match self.uses.get(number) {
                None => None,
                Some(next) => Some(&next.before),
            },
        }
    }

    /// The type of the value that enters an interface at a token, where its expression reports its faults.
    pub fn entered(&self, token: usize) -> Option<&GoType>
        ensures { option_map (λ t. type_of t.now) result ≡ (source_of self.now).entered token }
    {
        match self.entered.get(token) {
            None => None,
            Some(number) => match self.enterings.get(number) {
                None => None,
                Some(next) => Some(&next.own),
            },
        }
    }

    /// The name in objects of the method that an interface asks for at a token.
    pub fn asks(&self, token: usize) -> Option<FunctionName<'a>>
        ensures { option_map function_of result ≡ (source_of self.now).asks token }
    {
        match self.asked_at.get(token) {
            None => None,
            Some(number) => match self.asked.get(number) {
                None => None,
                Some(next) => Some(next.name),
            },
        }
    }

    /// The package-level declaration to which the name at a token is bound.
    pub fn global(&self, token: usize) -> Option<GlobalName<'a>>
        ensures { option_map global_of result ≡ (source_of self.now).global token }
    {
        match self.marks.get(token) {
            None => None,
            Some(mark) => mark.global,
        }
    }

    /// Whether the name at a token is the predeclared `true`.
    pub fn truth(&self, token: usize) -> bool
        ensures { result ≡ (source_of self.now).truth token }
    {
        match self.marks.get(token) {
            None => false,
            Some(mark) => mark.truth,
        }
    }

    /// The value of the integer literal at a token.
    pub fn number(&self, token: usize) -> Option<u64>
        ensures { result ≡ (source_of self.now).number token }
    {
        integer_value(self.world.spelling(token))
    }

    /// The value of the string literal at a token.
    pub fn text(&self, token: usize) -> Option<&[u8]>
        ensures { name_value result ≡ (source_of self.now).text token }
    {
        match self.texts.get(token) {
            None => None,
            Some(None) => None,
            Some(Some(text)) => Some(text),
        }
    }
}
