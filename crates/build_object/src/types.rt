//! The types in code.
ghost use Rattle.std.specs.Prelude.{◌≡◌, [], IfOk, option_map};
ghost use Rattle.go_ast.specs.View.{type_view};
ghost use Rattle.types_expr.specs.Types.{is_struct};
ghost use Rattle.types_expr.specs.World.{underlying};
ghost use Rattle.types_expr.specs.Judge.{judge_type};
ghost use Rattle.types_expr.specs.View.{type_of};
ghost use Rattle.types_expr.specs.WorldView.{world_of};

use go_ast::tree::TypeExpr;
use std::alloc::{AllocError, Global};
use types_expr::found::FoundInFile;
use types_expr::types::GoType;
use types_expr::world::{Shape, World};

/// An empty list of faults and uses of members.
pub fn nothing(alloc: Global) -> FoundInFile
    ensures faults { result.faults.items ≡ [] }
    ensures uses { result.uses.items ≡ [] }
{
    FoundInFile {
        faults: Vec::new(alloc),
        uses: Vec::new(alloc),
    }
}

/// The type that is written, if it is not broken.
pub fn written_type(
    alloc: Global,
    world: &World<'_>,
    written: &TypeExpr,
) -> Result<Option<GoType>, AllocError>
    ensures { IfOk result (λ t. option_map type_of t ≡ (judge_type (world_of world.now) (type_view written.now)).type_of) }
{
    nothing(alloc).judge_type(alloc, world, written)
}

/// Whether the underlying type of a type is a struct.
#[tactic(auto, unfolding(types_expr::specs::WorldView::shape_of))]
pub fn is_struct(world: &World<'_>, own: &GoType) -> bool
    ensures { result ≡ is_struct (underlying (world_of world.now) (type_of own.now)) }
{
    matches!(world.underlying(own), Shape::Struct(_))
}
