//! Types, signatures and underlying types after a move.
ghost use Rattle.std.specs.Prelude.{◌≡◌, IfOk, map, option_map};
ghost use Rattle.types_expr.specs.Types.{Defined};
ghost use Rattle.types_expr.specs.View.{form_of, signature_of, type_of};
ghost use Rattle.types_expr.specs.WorldView.{underlying_of};
ghost use Rattle.law_changed_types.specs.Moved.{moved_form, moved_signature, moved_symbol, moved_type, moved_underlying};
ghost use Rattle.refactor_known.specs.Swaps.{map_of};

use crate::swap::Swap;
use std::alloc::{AllocError, Global};
use types_expr::symbol::Symbol;
use types_expr::types::{GoType, Signature, WrittenAs};
use types_expr::world::Underlying;

/// The type of pointers to this type.
#[tactic(auto, unfolding(types_expr::specs::View::type_of))]
fn pointer_to(alloc: Global, target: GoType) -> Result<GoType, AllocError>
    ensures { IfOk result (λ t. type_of t ≡ Rattle.types_expr.specs.Types.Pointer (type_of target)) }
{
    let target = Box::new(alloc, target)?;
    Ok(GoType::Pointer(target))
}

/// The type of slices with elements of this type.
#[tactic(auto, unfolding(types_expr::specs::View::type_of))]
fn slice_of(alloc: Global, element: GoType) -> Result<GoType, AllocError>
    ensures { IfOk result (λ t. type_of t ≡ Rattle.types_expr.specs.Types.Slice (type_of element)) }
{
    let element = Box::new(alloc, element)?;
    Ok(GoType::Slice(element))
}

impl Swap {
    /// The type of a definition after the move.
    #[tactic(auto, unfolding(types_expr::specs::View::type_of))]
    fn defined(&self, alloc: Global, symbol: &Symbol) -> Result<GoType, AllocError>
        ensures { IfOk result (λ t. type_of t ≡ Defined (moved_symbol (map_of self.now) symbol.now)) }
    {
        let symbol = self.symbol(alloc, symbol)?;
        Ok(GoType::Defined(symbol))
    }

    /// The type after the move.
    #[tactic(auto, unfolding(types_expr::specs::View::type_of))]
    pub(crate) fn go_type(&self, alloc: Global, own: &GoType) -> Result<GoType, AllocError>
        ensures { IfOk result (λ t. type_of t ≡ moved_type (map_of self.now) (type_of own.now)) }
    {
        match own {
            GoType::Basic(basic) => Ok(GoType::Basic(*basic)),
            GoType::Defined(symbol) => self.defined(alloc, symbol),
            GoType::Pointer(target) => pointer_to(alloc, self.go_type(alloc, target)?),
            GoType::Slice(element) => slice_of(alloc, self.go_type(alloc, element)?),
        }
    }

    /// A list of types after the move.
    fn types(&self, alloc: Global, types: &[GoType]) -> Result<Vec<GoType>, AllocError>
        ensures { IfOk result (λ moved. map type_of moved.items ≡ map (moved_type (map_of self.now)) (map type_of types.now)) }
    {
        let mut moved = Vec::with_capacity(alloc, types.len())?;
        for own in types {
            moved.push(self.go_type(alloc, own)?)?;
        }
        Ok(moved)
    }

    /// A signature after the move.
    pub(crate) fn signature(
        &self,
        alloc: Global,
        signature: &Signature,
    ) -> Result<Signature, AllocError>
        ensures { IfOk result (λ moved. signature_of moved ≡ moved_signature (map_of self.now) (signature_of signature.now)) }
    {
        let parameters = self.types(alloc, &signature.parameters)?;
        let results = self.types(alloc, &signature.results)?;
        Ok(Signature {
            parameters,
            results,
        })
    }

    /// The type or the signature of a written member after the move.
    #[tactic(auto, unfolding(types_expr::specs::View::form_of))]
    pub(crate) fn form(&self, alloc: Global, form: &WrittenAs) -> Result<WrittenAs, AllocError>
        ensures { IfOk result (λ moved. form_of moved ≡ moved_form (map_of self.now) (form_of form.now)) }
    {
        match form {
            WrittenAs::Field(own) => Ok(WrittenAs::Field(self.go_type(alloc, own)?)),
            WrittenAs::Method(signature) => Ok(WrittenAs::Method(self.signature(
                alloc, signature,
            )?)),
        }
    }

    /// A signature after the move, if there is one.
    pub(crate) fn signature_if(
        &self,
        alloc: Global,
        signature: &Option<Signature>,
    ) -> Result<Option<Signature>, AllocError>
        ensures { IfOk result (λ moved. option_map signature_of moved ≡ option_map (moved_signature (map_of self.now)) (option_map signature_of signature.now)) }
    {
        match signature {
            None => Ok(None),
            Some(signature) => Ok(Some(self.signature(alloc, signature)?)),
        }
    }

    /// The underlying type after the move.
    #[tactic(auto, unfolding(types_expr::specs::WorldView::underlying_of))]
    pub(crate) fn underlying(
        &self,
        alloc: Global,
        underlying: &Underlying,
    ) -> Result<Underlying, AllocError>
        ensures { IfOk result (λ moved. underlying_of moved ≡ moved_underlying (map_of self.now) (underlying_of underlying.now)) }
    {
        match underlying {
            Underlying::Plain(basic) => Ok(Underlying::Plain(*basic)),
            Underlying::PointerTo(target) => Ok(Underlying::PointerTo(self.go_type(
                alloc, target,
            )?)),
            Underlying::SliceOf(element) => Ok(Underlying::SliceOf(self.go_type(alloc, element)?)),
            Underlying::Struct(symbol) => Ok(Underlying::Struct(self.symbol(alloc, symbol)?)),
            Underlying::Interface(symbol) => Ok(Underlying::Interface(self.symbol(alloc, symbol)?)),
        }
    }
}
