//! Lists of packages by number.
ghost use Rattle.std.specs.Prelude.{◌≡◌};

use std::marker::Model;

/// The numbers of some packages.
#[derive(Drop)]
pub struct PackageList {
    numbers: Vec<usize>,
}

impl Model for PackageList {
    ghost use Rattle.std.specs.Prelude.{List, ℕ};

    ghost Value = { List ℕ };

    ghost view = { λ a. a.numbers.items };
}

impl PackageList {
    /// The list of these numbers.
    pub fn from_numbers(numbers: Vec<usize>) -> PackageList
        ensures { result ≡ numbers.items }
    {
        PackageList { numbers }
    }

    /// The numbers as a slice.
    pub fn as_slice(&self) -> &[usize]
        ensures { result.now ≡ self.now }
    {
        &self.numbers
    }
}
