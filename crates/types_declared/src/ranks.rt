//! The ranks of a package's declarations, by the numbers of their declaring identifiers in a scope table.
ghost use Rattle.std.specs.Prelude.{◌≡◌, ◌<◌, length, map, IfOk};
ghost use Rattle.go_scope.specs.Packages.{layout_in};
ghost use Rattle.types_declared.specs.Package.{variable_place, type_place, function_place};
ghost use Rattle.types_declared.specs.DeclaredView.{variable_of, type_of, function_of};
ghost use Rattle.go_scope.specs.ByToken.{row_number};
ghost use Rattle.types_declared.specs.RanksView.{AreRanks, NotesRank, RanksIfFree};

use crate::declared::{Declared, Function, TypeDef, Variable};
use go_scope::model::Position;
use go_scope::table::ScopeTable;
use std::alloc::{AllocError, Global};

/// For each identifier of a scope table, the rank of the variable, type definition or function that it declares.
#[derive(Drop)]
pub struct Ranks {
    variables: Vec<Option<usize>>,
    types: Vec<Option<usize>>,
    functions: Vec<Option<usize>>,
}

/// The rank of an identifier, if it has one.
fn rank_at(ranks: &[Option<usize>], u: usize) -> Option<usize>
    ensures { result ≡ row_number ranks.now u }
{
    *ranks.get(u)?
}

/// Gives a rank to an identifier, unless it has one.
fn note_free(ranks: &mut Vec<Option<usize>>, u: usize, rank: usize)
    requires { u < length ranks.old.items }
    ensures { RanksIfFree ranks.old.items ranks.new.items u rank }
{
    match rank_at(ranks, u) {
        Some(_) => {}
        None => ranks[u] = Some(rank),
    }
}

/// Gives a rank to the identifier at a position, unless it has one.
fn note_rank(ranks: &mut Vec<Option<usize>>, table: &ScopeTable, place: Position, rank: usize)
    requires { length ranks.old.items ≡ length table.now.sites }
    ensures { NotesRank (layout_in table.now) (length table.now.sites) place rank ranks.old.items ranks.new.items }
{
    table.are_apart();
    match table.identifier_at(place) {
        None => {}
        Some(u) => note_free(ranks, u, rank),
    }
}

/// Returns for each identifier of a scope table the rank of its position in a list of positions.
fn ranks_of(
    alloc: Global,
    table: &ScopeTable,
    places: &[Position],
) -> Result<Vec<Option<usize>>, AllocError>
    ensures { IfOk result (λ ranks. AreRanks (λ p. p) places.now (layout_in table.now) (length table.now.sites) ranks.items) }
{
    let mut ranks = vec![in alloc; None; table.len()]?;
    for rank in 0..places.len() {
        note_rank(&mut ranks, table, places[rank], rank);
    }
    Ok(ranks)
}

/// The positions of the variables' names.
fn variable_places(alloc: Global, variables: &[Variable<'_>]) -> Result<Vec<Position>, AllocError>
    ensures { IfOk result (λ places. places.items ≡ map variable_place (map variable_of variables.now)) }
{
    let mut places = Vec::with_capacity(alloc, variables.len())?;
    for variable in variables {
        places.push(Position {
            file: variable.file,
            index: variable.name,
        })?;
    }
    Ok(places)
}

/// The positions of the type definitions' names.
#[tactic(auto, unfolding(go_ast::specs::FileView::type_spec_view))]
fn type_places(alloc: Global, types: &[TypeDef<'_>]) -> Result<Vec<Position>, AllocError>
    ensures { IfOk result (λ places. places.items ≡ map type_place (map type_of types.now)) }
{
    let mut places = Vec::with_capacity(alloc, types.len())?;
    for definition in types {
        places.push(Position {
            file: definition.file,
            index: definition.spec.name as usize,
        })?;
    }
    Ok(places)
}

/// The positions of the functions' names.
#[tactic(auto, unfolding(go_ast::specs::FileView::func_view))]
fn function_places(alloc: Global, functions: &[Function<'_>]) -> Result<Vec<Position>, AllocError>
    ensures { IfOk result (λ places. places.items ≡ map function_place (map function_of functions.now)) }
{
    let mut places = Vec::with_capacity(alloc, functions.len())?;
    for function in functions {
        places.push(Position {
            file: function.file,
            index: function.func.name as usize,
        })?;
    }
    Ok(places)
}

impl Ranks {
    /// Computes the ranks of a package's declarations.
    pub fn of(
        alloc: Global,
        table: &ScopeTable,
        declared: &Declared<'_>,
    ) -> Result<Ranks, AllocError>
        ensures variables { IfOk result (λ r. AreRanks variable_place (map variable_of declared.now.variables.items) (layout_in table.now) (length table.now.sites) r.variables.items) }
        ensures types { IfOk result (λ r. AreRanks type_place (map type_of declared.now.types.items) (layout_in table.now) (length table.now.sites) r.types.items) }
        ensures functions { IfOk result (λ r. AreRanks function_place (map function_of declared.now.functions.items) (layout_in table.now) (length table.now.sites) r.functions.items) }
    {
        let variables = variable_places(alloc, &declared.variables)?;
        let types = type_places(alloc, &declared.types)?;
        let functions = function_places(alloc, &declared.functions)?;
        Ok(Ranks {
            variables: ranks_of(alloc, table, &variables)?,
            types: ranks_of(alloc, table, &types)?,
            functions: ranks_of(alloc, table, &functions)?,
        })
    }

    /// The rank of the variable that `d` declares; none where it declares none.
    pub fn variable(&self, d: usize) -> Option<usize>
        ensures { result ≡ row_number self.now.variables.items d }
    {
        *self.variables.get(d)?
    }

    /// The rank of the type definition that `d` declares; none where it declares none.
    pub fn definition(&self, d: usize) -> Option<usize>
        ensures { result ≡ row_number self.now.types.items d }
    {
        *self.types.get(d)?
    }

    /// The rank of the function that `d` declares; none where it declares none.
    pub fn function(&self, d: usize) -> Option<usize>
        ensures { result ≡ row_number self.now.functions.items d }
    {
        *self.functions.get(d)?
    }
}
