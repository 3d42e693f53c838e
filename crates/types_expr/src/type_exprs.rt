//! The judgement of types as they are written.
ghost use Rattle.std.specs.Prelude.{◌≡◌, IfOk, option_map};
ghost use Rattle.go_ast.specs.View.{type_view};
ghost use Rattle.types_expr.specs.Judge.{judge_type, named_type, imported_type, no_type_at};
ghost use Rattle.types_expr.specs.Types.{Pointer, Slice};
ghost use Rattle.types_expr.specs.View.{type_of};
ghost use Rattle.types_expr.specs.WorldView.{world_of, bound_in};
ghost use Rattle.types_expr.specs.Found.{AddsType};

use crate::found::FoundInFile;
use crate::types::{GoType, pointer_to, slice_of};
use crate::world::{Bound, World};
use go_ast::tree::TypeExpr;
use std::alloc::{AllocError, Global};

/// Returns the type of pointers to values of `target`, if there is one.
fn pointer_if(alloc: Global, target: Option<GoType>) -> Result<Option<GoType>, AllocError>
    ensures { IfOk result (λ t. option_map type_of t ≡ option_map Pointer (option_map type_of target)) }
{
    match target {
        Some(target) => Ok(Some(pointer_to(alloc, target)?)),
        None => Ok(None),
    }
}

/// Returns the type of slices with elements of `element`, if there is one.
fn slice_if(alloc: Global, element: Option<GoType>) -> Result<Option<GoType>, AllocError>
    ensures { IfOk result (λ t. option_map type_of t ≡ option_map Slice (option_map type_of element)) }
{
    match element {
        Some(element) => Ok(Some(slice_of(alloc, element)?)),
        None => Ok(None),
    }
}

impl FoundInFile {
    /// Notes a fault at a token where no type is written.
    fn no_type(&mut self, place: usize) -> Result<Option<GoType>, AllocError>
        ensures { IfOk result (λ own. AddsType (no_type_at place) self.old self.new (option_map type_of own)) }
    {
        self.faults.push(place)?;
        Ok(None)
    }

    /// Returns the type that the name at a token denotes. A name that is bound to no type is a fault; a broken type definition is none.
    #[tactic(auto, unfolding(crate::specs::Judge::named_type, crate::specs::WorldView::bound_of))]
    pub fn named_type(
        &mut self,
        alloc: Global,
        world: &World<'_>,
        name: usize,
    ) -> Result<Option<GoType>, AllocError>
        ensures { IfOk result (λ own. AddsType (named_type (bound_in world.now name) name) self.old self.new (option_map type_of own)) }
    {
        let Some(bound) = world.bound(name) else {
            return self.no_type(name);
        };
        match bound {
            Bound::TypeName(own) => Ok(Some(own.copy(alloc)?)),
            Bound::BrokenType => Ok(None),
            Bound::Local(_) | Bound::Variable(_) | Bound::Truth | Bound::Nil => self.no_type(name),
            Bound::Function(_) | Bound::Builtin(_) | Bound::Package => self.no_type(name),
            Bound::BrokenVariable | Bound::BrokenFunction => self.no_type(name),
        }
    }

    /// Returns the type that `p.N` denotes, by the tokens of p and N.
    #[tactic(auto, unfolding(crate::specs::Judge::imported_type, crate::specs::WorldView::bound_of))]
    fn imported_type(
        &mut self,
        alloc: Global,
        world: &World<'_>,
        qualifier: usize,
        name: usize,
    ) -> Result<Option<GoType>, AllocError>
        ensures { IfOk result (λ own. AddsType (imported_type (world_of world.now) (bound_in world.now qualifier) qualifier name) self.old self.new (option_map type_of own)) }
    {
        let Some(bound) = world.bound(qualifier) else {
            return self.no_type(qualifier);
        };
        match bound {
            Bound::Package => self.named_type(alloc, world, name),
            Bound::Local(_) | Bound::Variable(_) | Bound::Truth | Bound::Nil => self.no_type(name),
            Bound::BrokenVariable => self.no_type(name),
            Bound::TypeName(_) | Bound::Function(_) | Bound::Builtin(_) => self.no_type(qualifier),
            Bound::BrokenFunction | Bound::BrokenType => self.no_type(qualifier),
        }
    }

    /// Returns the type that is written, none where it is broken.
    #[tactic(auto, unfolding(go_ast::specs::View::type_view, crate::specs::View::type_of, crate::specs::Judge::judge_type))]
    pub fn judge_type(
        &mut self,
        alloc: Global,
        world: &World<'_>,
        written: &TypeExpr,
    ) -> Result<Option<GoType>, AllocError>
        ensures { IfOk result (λ own. AddsType (judge_type (world_of world.now) (type_view written.now)) self.old self.new (option_map type_of own)) }
    {
        match written {
            TypeExpr::Local(name) => self.named_type(alloc, world, *name as usize),
            TypeExpr::Imported { package, name, .. } => {
                self.imported_type(alloc, world, *package as usize, *name as usize)
            }
            TypeExpr::Pointer { target, .. } => {
                let target = self.judge_type(alloc, world, target)?;
                pointer_if(alloc, target)
            }
            TypeExpr::Slice { element, .. } => {
                let element = self.judge_type(alloc, world, element)?;
                slice_if(alloc, element)
            }
        }
    }
}
