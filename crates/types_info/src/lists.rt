//! Lists of positions under the paths of imports: one list for each import, found by the number of the import's declaration.
ghost use Rattle.std.specs.Prelude.{ℕ, ◌≡◌, ◌<◌, List, None, length, slice_index_or, IfOk, OnOk};
ghost use Rattle.go_scope.specs.Named.{name_value};
ghost use Rattle.go_scope.specs.declared.model.Position.{Position as Place};
ghost use Rattle.types_info.specs.Lists.{IsListedUnder, path_for, AreWithin, AddsDeclaration, AddsList, AddsUnder, AddsPlace};

use go_scope::model::Position;
use std::alloc::{AllocError, Global};

/// The path of an import, and the positions of the names that it qualifies, in order.
#[derive(Drop)]
pub struct Qualified {
    pub path: Vec<u8>,
    pub places: Vec<Position>,
}

/// A list for each import, and for each declaration, by number, the index of its list if it is an import.
#[derive(Drop)]
pub(crate) struct Lists {
    pub(crate) all: Vec<Qualified>,
    pub(crate) numbers: Vec<Option<usize>>,
}

/// Appends an empty list for a path.
fn add_list(alloc: Global, all: &mut Vec<Qualified>, path: &[u8]) -> Result<(), AllocError>
    ensures { OnOk result (AddsList all.old.items all.new.items path.now) }
{
    let path = Vec::from_slice(alloc, path)?;
    all.push(Qualified {
        path,
        places: Vec::new(alloc),
    })?;
    Ok(())
}

/// Appends a position to the list at an index.
fn add_place(all: &mut Vec<Qualified>, number: usize, at: Position) -> Result<(), AllocError>
    requires { number < length all.old.items }
    ensures { OnOk result (AddsPlace all.old.items all.new.items number at) }
{
    all[number].places.push(at)?;
    Ok(())
}

impl Lists {
    /// No list and no declaration, with room for so many declarations.
    pub(crate) fn with_room(alloc: Global, declarations: usize) -> Result<Lists, AllocError>
        ensures within { IfOk result AreWithin }
        ensures size { IfOk result (λ lists. length lists.numbers.items ≡ 0) }
        ensures listed { IfOk result (λ lists. (path : List ℕ) → (at : Place) → IsListedUnder lists.all.items path at → ⊥) }
    {
        Ok(Lists {
            all: Vec::new(alloc),
            numbers: Vec::with_capacity(alloc, declarations)?,
        })
    }

    /// Appends the next declaration, with an empty list if it has a path.
    pub(crate) fn add(&mut self, alloc: Global, path: Option<&[u8]>) -> Result<(), AllocError>
        requires { AreWithin self.old }
        ensures { OnOk result (AddsDeclaration self.old self.new (name_value path.entry)) }
    {
        match path {
            None => self.numbers.push(None)?,
            Some(path) => {
                let number = self.all.len();
                add_list(alloc, &mut self.all, path)?;
                self.numbers.push(Some(number))?;
            }
        }
        Ok(())
    }

    /// The index of the list of a declaration; none where it is no import.
    fn number(&self, d: usize) -> Option<usize>
        ensures { result ≡ slice_index_or self.now.numbers.items d None }
    {
        *self.numbers.get(d)?
    }

    /// Appends a position to the list of a declaration, if it has one.
    pub(crate) fn list(&mut self, d: usize, at: Position) -> Result<(), AllocError>
        requires { AreWithin self.old }
        ensures within { OnOk result (AreWithin self.new) }
        ensures kept { OnOk result ((e : ℕ) → path_for self.new e ≡ path_for self.old e) }
        ensures listed { OnOk result (AddsUnder self.old.all.items self.new.all.items (path_for self.old d) at) }
    {
        match self.number(d) {
            None => Ok(()),
            Some(number) => add_place(&mut self.all, number, at),
        }
    }
}
