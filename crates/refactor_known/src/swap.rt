//! The paths of packages after a move: the folder that moves and the folder to which it moves are swapped.
ghost use Rattle.std.specs.Prelude.{◌≡◌, ◌↔◌, ◌++◌, [], ◌∷◌, ◌⊎◌, ℕ, List, IfOk, IsTrue, MatchOption};
ghost use Rattle.law_changed_types.specs.Moved.{moved_symbol};
ghost use Rattle.refactor_known.specs.Swaps.{IsBehind, map_of};

use std::alloc::{AllocError, Global};
use types_expr::symbol::{SharedPath, Symbol};

/// The folder of the package that moves, and the folder to which it moves.
#[derive(Drop)]
pub struct Swap {
    pub from: SharedPath,
    pub to: SharedPath,
}

/// Whether a rest is empty or begins with a slash.
fn is_rest(rest: &[u8]) -> bool
    ensures { IsTrue result ↔ ((rest.now ≡ []) ⊎ ((more : List ℕ) × (rest.now ≡ 47 ∷ more))) }
{
    match rest.first() {
        None => true,
        Some(byte) => *byte == b'/',
    }
}

/// The rest of a path behind a folder: empty for the folder itself. `None` for a path outside of the folder.
pub(crate) fn rest_behind<'p>(folder: &[u8], path: &'p [u8]) -> Option<&'p [u8]>
    ensures { MatchOption result ((rest : List ℕ) → IsBehind folder.now path.now rest → ⊥) (λ rest. IsBehind folder.now path.now rest.now) }
{
    if !path.starts_with(folder) {
        return None;
    }
    let (_, rest) = path.split_at(folder.len());
    if is_rest(rest) { Some(rest) } else { None }
}

/// The path of a folder with this rest. The folder's own path is shared.
fn place(alloc: Global, folder: &SharedPath, rest: &[u8]) -> Result<SharedPath, AllocError>
    ensures { IfOk result (λ path. path ≡ folder.now ++ rest.now) }
{
    if rest.is_empty() {
        return folder.clone();
    }
    let mut path = Vec::from_slice(alloc, folder.path())?;
    path.extend_from_slice(rest)?;
    SharedPath::new(alloc, &path)
}

impl Swap {
    /// The path of a package after the move. It is shared where nothing moves.
    pub fn path(&self, alloc: Global, path: &SharedPath) -> Result<SharedPath, AllocError>
        ensures { IfOk result (λ moved. moved ≡ map_of self.now path.now) }
    {
        match rest_behind(self.from.path(), path.path()) {
            Some(rest) => place(alloc, &self.to, rest),
            None => match rest_behind(self.to.path(), path.path()) {
                Some(rest) => place(alloc, &self.from, rest),
                None => path.clone(),
            },
        }
    }

    /// The bytes of the path of a package after the move.
    pub(crate) fn bytes(&self, alloc: Global, path: &[u8]) -> Result<Vec<u8>, AllocError>
        ensures { IfOk result (λ moved. moved.items ≡ map_of self.now path.now) }
    {
        let shared = SharedPath::new(alloc, path)?;
        let moved = self.path(alloc, &shared)?;
        Vec::from_slice(alloc, moved.path())
    }

    /// The symbol after the move.
    pub(crate) fn symbol(&self, alloc: Global, symbol: &Symbol) -> Result<Symbol, AllocError>
        ensures { IfOk result (λ moved. moved ≡ moved_symbol (map_of self.now) symbol.now) }
    {
        let package = self.path(alloc, &symbol.package)?;
        Ok(Symbol {
            package,
            rank: symbol.rank,
        })
    }
}
