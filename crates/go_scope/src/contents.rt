//! Finds for all identifiers of a package which of them declare, to which declaration each is bound, and which one each token is.
ghost use Rattle.std.specs.Prelude.{◌<◌, length, IfOk};
ghost use Rattle.go_scope.specs.ByToken.{numbers_in};
ghost use Rattle.go_scope.specs.Contents.{AreBindings, AreBound, AreDeclared, AreTableContents};
ghost use Rattle.go_scope.specs.Numbering.{numerals, AreBelow};
ghost use Rattle.go_scope.specs.Table.{layout_of, names_of};
ghost use Rattle.go_scope.specs.WellFormed.{IsLaidOut};

use crate::by_token::{ByToken, identifiers_by_token};
use crate::counting::bound_to;
use crate::declaring::{DeclaredIn, declared_of};
use crate::identifiers::Identifiers;
use crate::model::Identifier;
use crate::numbering::numbers_of;
use crate::table::DeclId;
use base_files::list_as_long;
use std::alloc::{AllocError, Global};

/// For each identifier whether it declares, and the declaration to which it is bound; for each token its identifier.
#[derive(Drop)]
pub struct TableContents {
    pub declaring: Vec<bool>,
    pub bindings: Vec<Option<DeclId>>,
    pub numbers: ByToken,
}

/// For each identifier whether it declares, and the declaration to which it is bound.
#[derive(Drop)]
struct BoundIdentifiers {
    declaring: Vec<bool>,
    bindings: Vec<Option<DeclId>>,
}

/// The declaration, or none, to which each identifier is bound.
fn bindings_of(
    alloc: Global,
    identifiers: &[Identifier],
    names: &[usize],
    declared: &DeclaredIn,
) -> Result<Vec<Option<DeclId>>, AllocError>
    requires laid_out { IsLaidOut (layout_of identifiers.now) (length identifiers.now) }
    requires declared { AreDeclared identifiers.now names.now declared.now }
    ensures { IfOk result (λ found. AreBindings (layout_of identifiers.now) (numerals names.now) (length identifiers.now) found.items) }
{
    let mut found = list_as_long(alloc, identifiers)?;
    for u in 0..identifiers.len() {
        found.push(bound_to(identifiers, names, declared, u))?;
    }
    Ok(found)
}

/// For identifiers whose names are given by numbers: which of them declare, and to which declaration each is bound.
fn numbered_bindings(
    alloc: Global,
    identifiers: &[Identifier],
    names: &[usize],
) -> Result<BoundIdentifiers, AllocError>
    requires laid_out { IsLaidOut (layout_of identifiers.now) (length identifiers.now) }
    requires numbered { AreBelow (length identifiers.now) names.now }
    ensures { IfOk result (λ bound. AreBound (layout_of identifiers.now) (numerals names.now) (length identifiers.now) bound.declaring.items bound.bindings.items) }
{
    let declared = declared_of(alloc, identifiers, names)?;
    let bindings = bindings_of(alloc, identifiers, names, &declared)?;
    Ok(BoundIdentifiers {
        declaring: declared.declaring,
        bindings,
    })
}

/// Which identifiers declare, and to which declaration each is bound.
fn bound_of(alloc: Global, identifiers: &[Identifier]) -> Result<BoundIdentifiers, AllocError>
    requires { IsLaidOut (layout_of identifiers.now) (length identifiers.now) }
    ensures { IfOk result (λ bound. AreBound (layout_of identifiers.now) (names_of identifiers.now) (length identifiers.now) bound.declaring.items bound.bindings.items) }
{
    let names = numbers_of(alloc, identifiers)?;
    numbered_bindings(alloc, identifiers, &names)
}

/// For a package's identifiers: which declare, to which declaration each is bound, and the identifier of each token.
pub(crate) fn table_contents(
    alloc: Global,
    identifiers: &Identifiers,
) -> Result<TableContents, AllocError>
    ensures { IfOk result (λ known. AreTableContents identifiers.now known.declaring.items known.bindings.items (numbers_in known.numbers)) }
{
    identifiers.are_laid_out();
    let bound = bound_of(alloc, identifiers.as_slice())?;
    let numbers = identifiers_by_token(alloc, identifiers)?;
    Ok(TableContents {
        declaring: bound.declaring,
        bindings: bound.bindings,
        numbers,
    })
}
