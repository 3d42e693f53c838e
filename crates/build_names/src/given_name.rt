//! A package-level declaration that gets another name.
ghost use Rattle.std.specs.Prelude.{◌≡◌, IfOk};

use std::alloc::{AllocError, Global};
use std::marker::Model;

/// The package-level declaration `old` of the package at `path` is called `new`.
#[derive(Drop)]
pub struct GivenName {
    path: Vec<u8>,
    old: Vec<u8>,
    new: Vec<u8>,
}

impl Model for GivenName {
    ghost use Rattle.std.specs.Coded.{codes};
    ghost use Rattle.build_names.specs.Words.{NameChange};

    ghost Value = { NameChange };

    ghost coded = { Prim.hlevel codes };

    ghost view = { λ a. record { path = a.path.items; old = a.old.items; new = a.new.items } };
}

impl GivenName {
    /// The declaration `old` of the package at `path` is called `new`.
    pub fn new(alloc: Global, path: &[u8], old: &[u8], new: &[u8]) -> Result<GivenName, AllocError>
        ensures { IfOk result (λ given. given ≡ record { path = path.now; old = old.now; new = new.now }) }
    {
        let path = path.to_vec(alloc)?;
        let old = old.to_vec(alloc)?;
        let new = new.to_vec(alloc)?;
        Ok(GivenName { path, old, new })
    }

    /// The path of the package.
    pub fn path(&self) -> &[u8]
        ensures { result.now ≡ self.now.path }
    {
        &self.path
    }

    /// The name that the declaration had.
    pub fn old(&self) -> &[u8]
        ensures { result.now ≡ self.now.old }
    {
        &self.old
    }

    /// The name that the declaration gets.
    pub fn name(&self) -> &[u8]
        ensures { result.now ≡ self.now.new }
    {
        &self.new
    }

    /// A copy.
    pub fn copy(&self, alloc: Global) -> Result<GivenName, AllocError>
        ensures { IfOk result (λ copy. copy ≡ self.now) }
    {
        GivenName::new(alloc, &self.path, &self.old, &self.new)
    }
}
