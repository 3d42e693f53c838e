//! The traits that keys, values and items of the collections have.
ghost use Rattle.std.specs.Prelude.{◌≡◌, ◌↔◌, IfOk, IsTrue};

use std::alloc::AllocError;

/// A value that can be copied, where a copy may run out of memory.
pub trait Share: Drop {
    /// Returns a copy, which has the same value. A counted reference shares what it points to.
    fn share(&self) -> Result<Self, AllocError>
        ensures { IfOk result (λ copy. copy ≡ self.now) };
}

/// A value that can be compared in all its parts.
pub trait Same {
    /// Whether both values are equal.
    fn same(&self, other: &Self) -> bool
        ensures { IsTrue result ↔ (self.now ≡ other.now) };
}

impl<A: Share, B: Share> Share for (A, B) {
    fn share(&self) -> Result<(A, B), AllocError> {
        let first = self.0.share()?;
        let second = self.1.share()?;
        Ok((first, second))
    }
}

impl<T: Share> Share for Option<T> {
    fn share(&self) -> Result<Option<T>, AllocError> {
        match self {
            Some(value) => Ok(Some(value.share()?)),
            None => Ok(None),
        }
    }
}
