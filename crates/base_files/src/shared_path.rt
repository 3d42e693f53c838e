//! Shared paths of packages.
ghost use Rattle.std.specs.Prelude.{◌≡◌, IfOk};

use std::alloc::{AllocError, Global};
use std::marker::Model;
use std::sync::Arc;

/// The path of a package. A clone shares its bytes.
#[derive(Drop)]
pub struct SharedPath {
    path: Arc<Vec<u8>, Global>,
}

impl Model for SharedPath {
    ghost use Rattle.std.specs.Prelude.{List, ℕ};
    ghost use Rattle.std.specs.Arc.{arc_value};

    ghost Value = { List ℕ };

    ghost view = { λ a. (arc_value a.path).items };
}

impl SharedPath {
    /// The shared path with these bytes.
    pub fn new(alloc: Global, path: &[u8]) -> Result<SharedPath, AllocError>
        ensures { IfOk result (λ shared. shared ≡ path.now) }
    {
        let bytes = Vec::from_slice(alloc, path)?;
        let path = Arc::new(alloc, bytes)?;
        Ok(SharedPath { path })
    }

    /// The bytes of the path.
    pub fn path(&self) -> &[u8]
        ensures { result.now ≡ self.now }
    {
        self.path.as_slice()
    }
}

impl Clone for SharedPath {
    ghost is_clone = { λ shared copy. copy ≡ shared };

    fn clone(&self) -> Result<SharedPath, AllocError> {
        let path = Arc::try_clone(&self.path)?;
        Ok(SharedPath { path })
    }
}
