//! The values from which the object of a package is made.
use crate::instructions::FunctionName;
use crate::packages::ObjectNames;
use types_declared::{Index, Package};
use types_expr::found::{Entering, MemberUse};
use types_expr::world::Definition;

/// A package with its index, its type definitions as other packages see them, and its uses of members and its entries by files. `packages`
/// has the names of other packages' declarations, and `names` those of its own functions.
#[derive(Clone, Copy)]
pub struct Origin<'a> {
    pub unit: Package<'a>,
    pub index: &'a Index<'a>,
    pub definitions: &'a [Definition],
    pub members: &'a [Vec<MemberUse>],
    pub enterings: &'a [Vec<Entering>],
    pub packages: &'a ObjectNames<'a>,
    pub names: &'a [FunctionName<'a>],
}
