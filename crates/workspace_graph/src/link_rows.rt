//! Links in two lists: the rows of all packages one behind another, and the bounds of the rows.
ghost use Rattle.std.specs.Prelude.{◌≡◌, ◌<◌, ◌≤◌, ◌+◌, ◌-◌, ◌^◌, ◌++◌, ℕ, [], ◌∷◌, length, map, take, drop, sum_by, slice_index_or, slice_range, IfOk, IsTrue, OnOk};
ghost use Rattle.std.specs.List.{All, insert};
ghost use Rattle.workspace_graph.specs.Imports.{row_of};
ghost use Rattle.workspace_graph.specs.LinkRows.{last_bound};
ghost use Rattle.workspace_graph.specs.Shifts.{row_shifted, shifted};

use std::alloc::{AllocError, Global};
use std::marker::Model;

/// For each package, a row of numbers of packages. Row `i` has the numbers from bound `i` to before bound `i + 1`. Numbers behind the last
/// bound are in no row.
#[derive(Drop)]
pub(crate) struct LinkRows {
    bounds: Vec<usize>,
    numbers: Vec<usize>,
}

impl Model for LinkRows {
    ghost use Rattle.workspace_graph.specs.Imports.{LinkTable};
    ghost use Rattle.workspace_graph.specs.LinkRows.{rows_of, AreBounds};

    ghost Value = { LinkTable };

    ghost view = { λ a. rows_of a.bounds.items a.numbers.items };

    ghost invariant = { λ a. AreBounds a.bounds.items a.numbers.items };
}

/// The numbers between bound `number` and the next bound.
fn part_at<'a>(bounds: &[usize], numbers: &'a [usize], number: usize) -> &'a [usize]
    requires number { number + 1 < length bounds.now }
    requires rising { slice_index_or bounds.now number 0 ≤ slice_index_or bounds.now (number + 1) 0 }
    requires within { slice_index_or bounds.now (number + 1) 0 ≤ length numbers.now }
    ensures { result.now ≡ slice_range numbers.now (slice_index_or bounds.now number 0) (slice_index_or bounds.now (number + 1) 0) }
{
    &numbers[bounds[number]..bounds[number + 1]]
}

/// The items of a list from index `from` to before index `to`.
fn part_of<'a>(list: &'a [usize], from: usize, to: usize) -> &'a [usize]
    requires rising { from ≤ to }
    requires within { to ≤ length list.now }
    ensures { result.now ≡ slice_range list.now from to }
{
    &list[from..to]
}

/// The last bound.
fn last_of(bounds: &[usize]) -> usize
    requires { 0 < length bounds.now }
    ensures { result ≡ last_bound bounds.now }
{
    bounds[bounds.len() - 1]
}

/// Whether both lists are equal.
fn are_same(one: &[usize], other: &[usize]) -> bool
    ensures { IsTrue result → one.now ≡ other.now }
{
    one == other
}

/// Appends the numbers of a row.
fn push_all(numbers: &mut Vec<usize>, row: &[usize]) -> Result<(), AllocError>
    ensures longer { length numbers.old.items ≤ length numbers.new.items }
    ensures added { OnOk result (numbers.new.items ≡ numbers.old.items ++ row.now) }
{
    for number in row {
        numbers.push(*number)?;
    }
    Ok(())
}

/// The number, after a package was inserted at `place`, of the package that had `number` before.
fn shifted(number: usize, place: usize) -> usize
    requires { number + 1 < 2 ^ 64 }
    ensures { result ≡ shifted place number }
{
    if number < place { number } else { number + 1 }
}

/// Shifts the numbers from index `begin` on, as `shifted` does.
fn shift_from(numbers: &mut Vec<usize>, begin: usize, place: usize)
    requires begin { begin ≤ length numbers.old.items }
    requires small { All (λ number. number + 1 < 2 ^ 64) (drop begin numbers.old.items) }
    ensures { numbers.new.items ≡ take begin numbers.old.items ++ row_shifted place (drop begin numbers.old.items) }
{
    for index in begin..numbers.len() {
        let number = numbers[index];
        numbers[index] = shifted(number, place);
    }
}

/// Appends the shifted numbers of a row.
fn push_shifted(numbers: &mut Vec<usize>, row: &[usize], place: usize) -> Result<(), AllocError>
    requires { All (λ number. number + 1 < 2 ^ 64) row.now }
    ensures longer { length numbers.old.items ≤ length numbers.new.items }
    ensures added { OnOk result (numbers.new.items ≡ numbers.old.items ++ row_shifted place row.now) }
{
    let begin = numbers.len();
    numbers.extend_from_slice(row)?;
    shift_from(numbers, begin, place);
    Ok(())
}

/// Appends the shifted numbers of a row, with `place` itself inserted behind the first `below` of them.
fn push_shifted_around(
    numbers: &mut Vec<usize>,
    row: &[usize],
    place: usize,
    below: usize,
) -> Result<(), AllocError>
    requires below { below ≤ length row.now }
    requires small { All (λ number. number + 1 < 2 ^ 64) row.now }
    ensures longer { length numbers.old.items ≤ length numbers.new.items }
    ensures added { OnOk result (numbers.new.items ≡ numbers.old.items ++ insert (row_shifted place row.now) below place) }
{
    let (first, rest) = row.split_at(below);
    push_shifted(numbers, first, place)?;
    numbers.push(place)?;
    push_shifted(numbers, rest, place)
}

/// Moves the bounds from index `begin` on: lower by `down`, and higher by `up`.
fn move_from(bounds: &mut Vec<usize>, begin: usize, down: usize, up: usize)
    requires begin { begin ≤ length bounds.old.items }
    requires fits { All (λ end. (down ≤ end) × (end - down + up < 2 ^ 64)) (drop begin bounds.old.items) }
    ensures { bounds.new.items ≡ take begin bounds.old.items ++ map (λ end. end - down + up) (drop begin bounds.old.items) }
{
    for index in begin..bounds.len() {
        let end = bounds[index];
        bounds[index] = end - down + up;
    }
}

/// Appends the bounds `ends`, moved lower by `down` and higher by `up`.
fn push_moved(
    bounds: &mut Vec<usize>,
    ends: &[usize],
    down: usize,
    up: usize,
) -> Result<(), AllocError>
    requires { All (λ end. (down ≤ end) × (end - down + up < 2 ^ 64)) ends.now }
    ensures some { (k : ℕ) × (k ≤ length ends.now) × (bounds.new.items ≡ bounds.old.items ++ map (λ end. end - down + up) (take k ends.now)) }
    ensures all { OnOk result (bounds.new.items ≡ bounds.old.items ++ map (λ end. end - down + up) ends.now) }
{
    let begin = bounds.len();
    bounds.extend_from_slice(ends)?;
    move_from(bounds, begin, down, up);
    Ok(())
}

/// The rows from number `from` to before number `to`.
#[derive(Clone, Copy)]
pub(crate) struct RowRun<'a> {
    pub(crate) rows: &'a LinkRows,
    pub(crate) from: usize,
    pub(crate) to: usize,
}

impl LinkRows {
    /// No rows, with room for `rows` rows that have `numbers` numbers together.
    pub(crate) fn with_capacity(
        alloc: Global,
        rows: usize,
        numbers: usize,
    ) -> Result<LinkRows, AllocError>
        ensures { IfOk result (λ rows. rows ≡ []) }
    {
        let mut bounds = Vec::with_capacity(alloc, rows.saturating_add(1))?;
        bounds.push(0)?;
        let numbers = Vec::with_capacity(alloc, numbers)?;
        Ok(LinkRows { bounds, numbers })
    }

    /// The number of numbers in all rows.
    pub(crate) fn number_count(&self) -> usize
        ensures { result ≡ sum_by (λ row. length row) self.now }
    {
        last_of(&self.bounds) - self.bounds[0]
    }

    /// The number of rows.
    pub(crate) fn len(&self) -> usize
        ensures { result ≡ length self.now }
    {
        self.bounds.len() - 1
    }

    /// The number of rows, plus one.
    pub(crate) fn one_more(&self) -> usize
        ensures { result ≡ length self.now + 1 }
    {
        self.bounds.len()
    }

    /// The row of a package.
    pub(crate) fn row(&self, number: usize) -> &[usize]
        requires { number < length self.now }
        ensures { result.now ≡ row_of self.now number }
    {
        part_at(&self.bounds, &self.numbers, number)
    }

    /// Adds a row at the end.
    pub(crate) fn add_row(&mut self, row: &[usize]) -> Result<(), AllocError>
        ensures { OnOk result (self.new ≡ self.old ++ row.now ∷ []) }
    {
        self.numbers.truncate(last_of(&self.bounds));
        push_all(&mut self.numbers, row)?;
        self.bounds.push(self.numbers.len())?;
        Ok(())
    }

    /// Adds the rows of a run, with their numbers shifted as after a package was inserted at `place`.
    pub(crate) fn add_shifted_rows(
        &mut self,
        run: RowRun<'_>,
        place: usize,
    ) -> Result<(), AllocError>
        requires from { run.from ≤ run.to }
        requires to { run.to ≤ length run.rows.now }
        requires small { All (All (λ number. number + 1 < 2 ^ 64)) run.rows.now }
        ensures { OnOk result (self.new ≡ self.old ++ map (row_shifted place) (slice_range run.entry.rows.now run.entry.from run.entry.to)) }
    {
        let last = last_of(&self.bounds);
        self.numbers.truncate(last);
        let others = run.rows;
        let start = others.bounds[run.from];
        let end = others.bounds[run.to];
        let part = part_of(&others.numbers, start, end);
        push_shifted(&mut self.numbers, part, place)?;
        let ends = part_of(&others.bounds, run.from + 1, run.to + 1);
        push_moved(&mut self.bounds, ends, start, last)
    }

    /// Adds a row with its numbers shifted, and with `place` itself inserted behind the first `below` of them.
    pub(crate) fn add_shifted_around(
        &mut self,
        row: &[usize],
        place: usize,
        below: usize,
    ) -> Result<(), AllocError>
        requires below { below ≤ length row.now }
        requires small { All (λ number. number + 1 < 2 ^ 64) row.now }
        ensures { OnOk result (self.new ≡ self.old ++ insert (row_shifted place row.now) below place ∷ []) }
    {
        self.numbers.truncate(last_of(&self.bounds));
        push_shifted_around(&mut self.numbers, row, place, below)?;
        self.bounds.push(self.numbers.len())?;
        Ok(())
    }

    /// Whether both store the same bounds and numbers, so that the rows are equal.
    pub(crate) fn are(&self, others: &LinkRows) -> bool
        ensures { IsTrue result → self.now ≡ others.now }
    {
        are_same(&self.bounds, &others.bounds) && are_same(&self.numbers, &others.numbers)
    }
}
