//! Symbols: declarations as other packages know them, by package and rank.
ghost use Rattle.std.specs.Prelude.{◌≡◌, IfOk};
ghost use Rattle.types_expr.specs.Types.{same_symbol};

pub use base_files::SharedPath;
use std::alloc::AllocError;

/// A type definition, or a field or method: the package that declares it, and its rank among those of its kind there, by path and offset,
/// from 0.
#[derive(Drop)]
pub struct Symbol {
    pub package: SharedPath,
    pub rank: usize,
}

impl Symbol {
    /// Copies the symbol; the path stays shared.
    pub fn copy(&self) -> Result<Symbol, AllocError>
        ensures { IfOk result (λ copy. copy ≡ self.now) }
    {
        let package = self.package.clone()?;
        Ok(Symbol {
            package,
            rank: self.rank,
        })
    }

    /// Whether the two symbols are equal.
    pub fn same(&self, other: &Symbol) -> bool
        ensures { result ≡ same_symbol self.now other.now }
    {
        self.rank == other.rank && self.package.path() == other.package.path()
    }
}
