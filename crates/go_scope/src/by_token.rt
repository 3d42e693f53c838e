//! A table of numbers by file and token: each number is found in one step.
ghost use Rattle.std.specs.Prelude.{◌≡◌, ◌<◌, ◌≤◌, ◌+◌, ℕ, None, max, vec_capacity, length, slice_get, IfOk, OnOk};
ghost use Rattle.go_scope.specs.ByToken.{numbers_in, row_number, row_at, Sets, SetsToken, SetsIfUnset, EntersIdentifier, AreIdentifiers};
ghost use Rattle.go_scope.specs.Packages.{layout_in};

use crate::identifiers::Identifiers;
use crate::model::Position;
use base_files::list_as_long;
use go_ast::FileTree;
use std::alloc::{AllocError, Global};

/// A number, or none, for each token of each file of a package.
#[derive(Drop)]
pub struct ByToken {
    rows: Vec<Vec<Option<usize>>>,
}

/// Makes room in a row for the tokens up to this one.
fn make_room(row: &mut Vec<Option<usize>>, token: usize) -> Result<(), AllocError>
    ensures items { row.new.items ≡ row.old.items }
    ensures room { vec_capacity row.new ≤ max (vec_capacity row.old) (token + 1) }
{
    if row.len() <= token {
        row.reserve_exact((token - row.len()).saturating_add(1))?;
    }
    Ok(())
}

/// Extends a row so that it includes a token.
fn reach(row: &mut Vec<Option<usize>>, token: usize) -> Result<(), AllocError>
    ensures kept { OnOk result ((t : ℕ) → row_number row.new.items t ≡ row_number row.old.items t) }
    ensures reached { OnOk result (token < length row.new.items) }
{
    make_room(row, token)?;
    while row.len() <= token {
        row.push(None)?;
    }
    Ok(())
}

/// Sets the number of a token in one file's row.
fn set_token(row: &mut Vec<Option<usize>>, token: usize, number: usize) -> Result<(), AllocError>
    ensures { OnOk result (SetsToken (row_number row.old.items) (row_number row.new.items) token number) }
{
    reach(row, token)?;
    row[token] = Some(number);
    Ok(())
}

/// A row without numbers, as long as the file has tokens.
fn row_of(alloc: Global, file: &FileTree) -> Result<Vec<Option<usize>>, AllocError>
    ensures { IfOk result (λ row. (t : ℕ) → row_number row.items t ≡ None) }
{
    vec![in alloc; None; file.pieces().tokens().len()]
}

impl ByToken {
    /// The empty table, with room for the tokens of these files.
    fn over(alloc: Global, files: &[FileTree]) -> Result<ByToken, AllocError>
        ensures { IfOk result (λ found. (file token : ℕ) → numbers_in found file token ≡ None) }
    {
        let mut rows = list_as_long(alloc, files)?;
        for file in files {
            rows.push(row_of(alloc, file)?)?;
        }
        Ok(ByToken { rows })
    }

    /// The number of a token, if it has one.
    pub fn get(&self, place: Position) -> Option<usize>
        ensures { result ≡ numbers_in self.now place.file place.index }
    {
        let row = self.rows.get(place.file)?;
        *row.get(place.index)?
    }

    /// The numbers of a file's tokens; tokens beyond the slice have none.
    fn row(&self, file: usize) -> &[Option<usize>]
        ensures { result.now ≡ row_at (slice_get self.now.rows.items file) }
    {
        match self.rows.get(file) {
            None => &[],
            Some(row) => row,
        }
    }

    /// A token index of a file from which on no token has a number.
    pub fn width(&self, file: usize) -> usize
        ensures { (token : ℕ) → result ≤ token → numbers_in self.now file token ≡ None }
    {
        self.row(file).len()
    }

    /// Extends the table so that it includes a file.
    fn reach_file(&mut self, alloc: Global, file: usize) -> Result<(), AllocError>
        ensures kept { OnOk result ((f t : ℕ) → numbers_in self.new f t ≡ numbers_in self.old f t) }
        ensures reached { OnOk result (file < length self.new.rows.items) }
    {
        while self.rows.len() <= file {
            self.rows.push(Vec::new(alloc))?;
        }
        Ok(())
    }

    /// Sets the number of a token.
    fn set(&mut self, alloc: Global, place: Position, number: usize) -> Result<(), AllocError>
        ensures { OnOk result (Sets (numbers_in self.old) (numbers_in self.new) place number) }
    {
        self.reach_file(alloc, place.file)?;
        set_token(&mut self.rows[place.file], place.index, number)
    }

    /// Sets the number of a token, unless it has one.
    fn note(&mut self, alloc: Global, place: Position, number: usize) -> Result<(), AllocError>
        ensures { OnOk result (SetsIfUnset (numbers_in self.old) (numbers_in self.new) place number) }
    {
        match self.get(place) {
            Some(_) => Ok(()),
            None => self.set(alloc, place, number),
        }
    }
}

/// Enters an identifier at its token. A predeclared name has none.
fn enter_identifier(
    alloc: Global,
    found: &mut ByToken,
    identifiers: &Identifiers,
    u: usize,
) -> Result<(), AllocError>
    requires { u < length identifiers.now.sites }
    ensures { OnOk result (EntersIdentifier (layout_in identifiers.now) u (numbers_in found.old) (numbers_in found.new)) }
{
    if identifiers.role(u).is_implied() {
        return Ok(());
    }
    found.note(alloc, identifiers.place(u), u)
}

/// The identifier of each token of a package.
pub fn identifiers_by_token(alloc: Global, identifiers: &Identifiers) -> Result<ByToken, AllocError>
    ensures { IfOk result (λ found. AreIdentifiers (layout_in identifiers.now) (length identifiers.now.sites) (numbers_in found)) }
{
    let mut found = ByToken::over(alloc, identifiers.files())?;
    for u in 0..identifiers.len() {
        enter_identifier(alloc, &mut found, identifiers, u)?;
    }
    Ok(found)
}
