//! The types of parameters and local variables.
ghost use Rattle.std.specs.Prelude.{◌≡◌, OnOk, option_map};
ghost use Rattle.types_expr.specs.World.{declared, no_locals};
ghost use Rattle.types_expr.specs.View.{type_of};
ghost use Rattle.types_expr.specs.Found.{locals_of};

use crate::types::GoType;
use std::alloc::{AllocError, Global};
use std::collections::BTreeMap;

/// The types of the parameters and local variables that are declared so far and not broken, by the tokens that declare them.
#[derive(Drop)]
pub struct Locals {
    types: BTreeMap<usize, GoType>,
}

impl Locals {
    /// No locals.
    #[tactic(auto, using(crate::proofs::LocalTypes::none_there))]
    pub fn new(alloc: Global) -> Locals
        ensures { locals_of result ≡ no_locals }
    {
        Locals {
            types: BTreeMap::new(alloc),
        }
    }

    /// Returns the type of the local that the name at a token declares, none where it is broken or not declared yet.
    #[tactic(auto, unfolding(crate::specs::Found::locals_of))]
    pub fn get(&self, place: usize) -> Option<&GoType>
        ensures { option_map (λ t. type_of t.now) result ≡ locals_of self.now place }
    {
        self.types.get(&place)
    }

    /// Declares the local whose name is at a token; `own` is none where its type is broken.
    pub fn declare(&mut self, place: usize, own: Option<GoType>) -> Result<(), AllocError>
        ensures { OnOk result (locals_of self.new ≡ declared (locals_of self.old) place (option_map type_of own)) }
    {
        match own {
            Some(own) => {
                let before = self.types.insert(place, own)?;
                drop(before);
            }
            None => {
                let before = self.types.remove(&place);
                drop(before);
            }
        }
        Ok(())
    }
}
