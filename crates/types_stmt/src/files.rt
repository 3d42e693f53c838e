//! The check of whole files, declaration by declaration.
ghost use Rattle.std.specs.Prelude.{◌≡◌, [], IfOk, OnOk};
ghost use Rattle.go_ast.specs.FileView.{decl_view, file_view};
ghost use Rattle.types_expr.specs.World.{no_locals};
ghost use Rattle.types_expr.specs.WorldView.{world_of};
ghost use Rattle.types_stmt.specs.Declarations.{check_decl, check_file};
ghost use Rattle.types_stmt.specs.View.{checked_of, is_init_in};

use crate::checked::CheckedBody;
use go_ast::tree::{Decl, File};
use std::alloc::{AllocError, Global};
use types_expr::found::FoundInFile;
use types_expr::locals::Locals;
use types_expr::world::World;

/// Whether the name at a token is `init`.
fn is_init(world: &World<'_>, place: usize) -> bool
    ensures { result ≡ is_init_in world.now place }
{
    world.spelling(place) == b"init".as_slice()
}

impl CheckedBody {
    /// Nothing found yet.
    fn new(alloc: Global) -> CheckedBody
        ensures { checked_of result ≡ record { locals = no_locals; faults = []; uses = [] } }
    {
        let found = FoundInFile {
            faults: Vec::new(alloc),
            uses: Vec::new(alloc),
        };
        CheckedBody {
            locals: Locals::new(alloc),
            found,
        }
    }

    /// Checks a declaration.
    fn check_decl(
        &mut self,
        alloc: Global,
        world: &World<'_>,
        decl: &Decl,
    ) -> Result<(), AllocError>
        ensures { OnOk result (checked_of self.new ≡ check_decl (world_of world.now) (is_init_in world.now) (checked_of self.old) (decl_view decl.now)) }
    {
        match decl {
            Decl::Var { group, .. } => self.check_globals(alloc, world, group),
            Decl::Type { group, .. } => self.check_types(alloc, world, group),
            Decl::Func { func, .. } => {
                let named_init = is_init(world, func.name as usize);
                self.check_function(alloc, world, named_init, func)
            }
        }
    }
}

/// Checks a file. Returns the types of its locals, its type faults and its member uses.
pub fn check_file(alloc: Global, world: &World<'_>, file: &File) -> Result<CheckedBody, AllocError>
    ensures { IfOk result (λ checked. checked_of checked ≡ check_file (world_of world.now) (is_init_in world.now) (file_view file.now)) }
{
    let mut checked = CheckedBody::new(alloc);
    for decl in &file.decls {
        checked.check_decl(alloc, world, decl)?;
    }
    Ok(checked)
}
