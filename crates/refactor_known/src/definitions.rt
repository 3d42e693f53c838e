//! Type definitions after a move.
ghost use Rattle.std.specs.Prelude.{◌≡◌, IfOk, map};
ghost use Rattle.types_expr.specs.WorldView.{definition_of, field_of, plain_method_of};
ghost use Rattle.law_changed_types.specs.MovedPackage.{moved_definition, moved_field, moved_method};
ghost use Rattle.refactor_known.specs.Swaps.{map_of};

use crate::swap::Swap;
use crate::tables::{Movable, moved_table};
use std::alloc::{AllocError, Global};
use types_expr::world::{Definition, Field, Method};

impl Movable for Field {
    ghost moves = { λ swap old new. field_of new ≡ moved_field (map_of swap) (field_of old) };

    fn moved(&self, alloc: Global, swap: &Swap) -> Result<Field, AllocError> {
        let symbol = swap.symbol(alloc, &self.symbol)?;
        let form = swap.form(alloc, &self.form)?;
        Ok(Field {
            symbol,
            exported: self.exported,
            form,
        })
    }
}

impl Movable for Method {
    ghost moves = { λ swap old new. plain_method_of new ≡ moved_method (map_of swap) (plain_method_of old) };

    fn moved(&self, alloc: Global, swap: &Swap) -> Result<Method, AllocError> {
        let symbol = swap.symbol(alloc, &self.symbol)?;
        let signature = swap.signature_if(alloc, &self.signature)?;
        Ok(Method {
            symbol,
            exported: self.exported,
            on_pointer: self.on_pointer,
            signature,
        })
    }
}

impl Swap {
    /// A type definition after the move.
    fn definition(&self, alloc: Global, definition: &Definition) -> Result<Definition, AllocError>
        ensures { IfOk result (λ moved. definition_of moved ≡ moved_definition (map_of self.now) (definition_of definition.now)) }
    {
        let underlying = self.underlying(alloc, &definition.underlying)?;
        let fields = moved_table(alloc, self, &definition.fields)?;
        let methods = moved_table(alloc, self, &definition.methods)?;
        Ok(Definition {
            underlying,
            fields,
            methods,
        })
    }

    /// A list of type definitions after the move.
    pub(crate) fn definitions(
        &self,
        alloc: Global,
        definitions: &[Definition],
    ) -> Result<Vec<Definition>, AllocError>
        ensures { IfOk result (λ moved. map definition_of moved.items ≡ map (moved_definition (map_of self.now)) (map definition_of definitions.now)) }
    {
        let mut moved = Vec::with_capacity(alloc, definitions.len())?;
        for definition in definitions {
            moved.push(self.definition(alloc, definition)?)?;
        }
        Ok(moved)
    }
}
