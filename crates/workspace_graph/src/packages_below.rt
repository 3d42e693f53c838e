//! The packages on which a package builds.
use crate::package_list::PackageList;

/// The packages that a package reaches and that do not reach it (`built_on`). `back` marks, of the packages that it reaches, those that
/// reach it.
#[derive(Drop)]
pub struct PackagesBelow {
    pub built_on: PackageList,
    pub back: Vec<bool>,
}
