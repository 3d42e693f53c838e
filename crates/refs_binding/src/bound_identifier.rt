//! A bound identifier: its place and its declaration.
use crate::declaration::Declaration;
use crate::place_key::PlaceKey;

/// The place at which an identifier begins, and the declaration that it is bound to.
#[derive(Drop)]
pub struct BoundIdentifier {
    pub spot: PlaceKey,
    pub declaration: Declaration,
}
