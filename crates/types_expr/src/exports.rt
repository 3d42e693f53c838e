//! The export data of a package: what other packages see of it.
use crate::types::{GoType, Signature};
use crate::world::Definition;
use std::collections::BTreeMap;

/// The meaning of an exported name in other packages.
#[derive(Drop)]
pub enum ExportMeaning {
    Variable(GoType),
    TypeName(GoType),
    Function(Signature),
}

/// An exported name of a package: its meaning in other packages. The place of its declaration is left out, so that an edit inside a
/// function leaves the package's export data as it is.
#[derive(Drop)]
pub struct Export {
    pub meaning: ExportMeaning,
}

/// The name in a package's clause, and its exported package-level names.
#[derive(Drop)]
pub struct PackageScope {
    pub name: Vec<u8>,
    pub exported: BTreeMap<Vec<u8>, Export>,
}

/// The export data of a package: its scope, and its type definitions, each at its rank.
#[derive(Drop)]
pub struct ExportData {
    pub scope: PackageScope,
    pub definitions: Vec<Definition>,
}
