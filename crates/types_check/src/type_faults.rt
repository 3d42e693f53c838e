//! Finds the faults of types in a package's files, their uses of members, and their entries of values into interfaces.
ghost use Rattle.std.specs.Prelude.{◌≡◌, ◌<◌, length, map, IfOk, OnOk};
ghost use Rattle.std.specs.List.Sorted.{IsStrictlySortedBy};
ghost use Rattle.types_declared.specs.contracts.fault.FaultOrd.TheImpl as order;
ghost use Rattle.types_declared.specs.Listing.{AddsFaults, HoldsExactly};
ghost use Rattle.types_stmt.specs.View.{checked_of};
ghost use Rattle.types_info.specs.MeaningsView.{AreMeanings};
ghost use Rattle.types_info.specs.DefinitionsView.{HaveDefinitions};
ghost use Rattle.types_check.specs.TypeFaults.{IsTypeFault};
ghost use Rattle.types_expr.specs.Found.{noted_of};
ghost use Rattle.types_expr.specs.Judge.{enterings_of, members_of};
ghost use Rattle.types_info.specs.MemberUses.{AddsFileList, AddsFileListOf, AreEnterings, AreEnteringsIn, AreMemberUses, AreUsesIn, enterings_in, uses_in};
ghost use Rattle.types_info.specs.NamesView.{AreNames};
ghost use Rattle.types_info.specs.Uniqueness.{HasOneWorld};
ghost use Rattle.types_check.specs.TypesView.{IsChecked, IsAtToken, IsTypeFaultIn};
ghost use Rattle.types_declared.specs.PackageView.{package_of, IsIndexOf};

use crate::notes::Notes;
use crate::worlds::file_world;
use base_files::FaultKind;
use std::alloc::{AllocError, Global};
use types_declared::{Fault, Index, Package, push, sort};
use types_expr::found::{Entering, FoundInFile, MemberUse};
use types_expr::world::{Bound, Definition, Name};
use types_info::{MeaningTable, file_names, has_one_world};
use types_stmt::{CheckedBody, check_file};

/// The result of checking the types of a package's files: the faults, and the uses of members and the entries of each file by rank.
#[derive(Drop)]
pub struct Typed {
    pub faults: Vec<Fault>,
    pub members: Vec<Vec<MemberUse>>,
    pub enterings: Vec<Vec<Entering>>,
}

/// Adds a fault of type at each of the tokens.
fn add_tokens(found: &mut Vec<Fault>, file: usize, tokens: &[usize]) -> Result<(), AllocError>
    ensures { OnOk result (AddsFaults found.old.items found.new.items (IsAtToken file tokens.now)) }
{
    for token in tokens {
        let fault = Fault {
            file,
            token: *token,
            kind: FaultKind::Type,
        };
        push(found, fault)?;
    }
    Ok(())
}

/// Checks the types of one file, given its names and their meanings.
fn check_names<'w>(
    alloc: Global,
    pkg: Package<'w>,
    names: &'w [Name<'w>],
    bounds: &'w [Bound],
    definitions: &'w [Definition],
    file: usize,
) -> Result<CheckedBody, AllocError>
    requires names { AreNames (package_of pkg) file bounds.now names.now }
    requires definitions { HaveDefinitions (package_of pkg) definitions.now }
    requires in_range { file < length pkg.files.now }
    ensures { IfOk result (λ c. IsChecked (package_of pkg.entry) file (checked_of c)) }
{
    let world = file_world(pkg, names, bounds, definitions, file);
    let files = pkg.files;
    let tree = files[file].file();
    check_file(alloc, &world, tree)
}

/// A package, its index, and its type definitions.
#[derive(Clone, Copy)]
struct Judging<'a> {
    pkg: Package<'a>,
    index: &'a Index<'a>,
    definitions: &'a [Definition],
}

/// Checks the types of one file.
fn check_source(
    alloc: Global,
    of: &Judging<'_>,
    bounds: &mut MeaningTable,
    file: usize,
) -> Result<CheckedBody, AllocError>
    requires index { IsIndexOf (package_of of.now.pkg) of.now.index.now }
    requires bounds { AreMeanings (package_of of.now.pkg) bounds.old.list.items bounds.old.of.items }
    requires definitions { HaveDefinitions (package_of of.now.pkg) of.now.definitions.now }
    requires in_range { file < length of.now.pkg.files.now }
    ensures checked { IfOk result (λ c. IsChecked (package_of of.now.pkg) file (checked_of c)) }
    ensures bounds { OnOk result (AreMeanings (package_of of.now.pkg) bounds.new.list.items bounds.new.of.items) }
{
    let names = file_names(alloc, of.pkg, of.index, bounds, file)?;
    check_names(alloc, of.pkg, &names, bounds.list(), of.definitions, file)
}

impl Typed {
    /// Adds the uses of members and the entries of one file.
    fn add_notes(&mut self, notes: Notes) -> Result<(), AllocError>
        ensures faults { OnOk result (self.new.faults ≡ self.old.faults) }
        ensures members { OnOk result (AddsFileList (map uses_in self.old.members.items) (map uses_in self.new.members.items) (uses_in notes.members)) }
        ensures enterings { OnOk result (AddsFileList (map enterings_in self.old.enterings.items) (map enterings_in self.new.enterings.items) (enterings_in notes.enterings)) }
    {
        let Notes { members, enterings } = notes;
        let mut members = members;
        members.shrink_to_fit();
        let mut enterings = enterings;
        enterings.shrink_to_fit();
        self.members.push(members)?;
        self.enterings.push(enterings)?;
        Ok(())
    }

    /// Adds the faults, the uses of members and the entries of one file.
    fn add(&mut self, alloc: Global, file: usize, checked: CheckedBody) -> Result<(), AllocError>
        ensures faults { OnOk result (AddsFaults self.old.faults.items self.new.faults.items (IsAtToken file checked.found.faults.items)) }
        ensures members { OnOk result (AddsFileList (map uses_in self.old.members.items) (map uses_in self.new.members.items) (members_of (map noted_of checked.found.uses.items))) }
        ensures enterings { OnOk result (AddsFileList (map enterings_in self.old.enterings.items) (map enterings_in self.new.enterings.items) (enterings_of (map noted_of checked.found.uses.items))) }
    {
        let CheckedBody { found, locals: _ } = checked;
        let FoundInFile { faults, uses } = found;
        add_tokens(&mut self.faults, file, &faults)?;
        let notes = Notes::of(alloc, uses)?;
        self.add_notes(notes)
    }
}

/// Checks the types of one file, and adds its faults, its uses of members and its entries.
fn add_file(
    alloc: Global,
    of: &Judging<'_>,
    bounds: &mut MeaningTable,
    typed: &mut Typed,
    file: usize,
) -> Result<(), AllocError>
    requires index { IsIndexOf (package_of of.now.pkg) of.now.index.now }
    requires bounds { AreMeanings (package_of of.now.pkg) bounds.old.list.items bounds.old.of.items }
    requires definitions { HaveDefinitions (package_of of.now.pkg) of.now.definitions.now }
    requires in_range { file < length of.now.pkg.files.now }
    requires one { HasOneWorld (package_of of.now.pkg) }
    ensures faults { OnOk result (AddsFaults typed.old.faults.items typed.new.faults.items (IsTypeFaultIn (package_of of.now.pkg) file)) }
    ensures members { OnOk result (AddsFileListOf (AreUsesIn (package_of of.now.pkg)) file (map uses_in typed.old.members.items) (map uses_in typed.new.members.items)) }
    ensures enterings { OnOk result (AddsFileListOf (AreEnteringsIn (package_of of.now.pkg)) file (map enterings_in typed.old.enterings.items) (map enterings_in typed.new.enterings.items)) }
    ensures bounds { OnOk result (AreMeanings (package_of of.now.pkg) bounds.new.list.items bounds.new.of.items) }
{
    let checked = check_source(alloc, of, bounds, file)?;
    typed.add(alloc, file, checked)
}

/// Checks the types of a package's files. The faults are sorted by file and token. The meanings of qualified identifiers are appended to
/// `bounds`.
pub fn type_faults(
    alloc: Global,
    pkg: Package<'_>,
    index: &Index<'_>,
    bounds: &mut MeaningTable,
    definitions: &[Definition],
) -> Result<Typed, AllocError>
    requires index { IsIndexOf (package_of pkg) index.now }
    requires bounds { AreMeanings (package_of pkg) bounds.old.list.items bounds.old.of.items }
    requires definitions { HaveDefinitions (package_of pkg) definitions.now }
    ensures listed { IfOk result (λ t. HoldsExactly (IsTypeFault (package_of pkg.entry)) t.faults.items) }
    ensures order { IfOk result (λ t. IsStrictlySortedBy order.ghosts.cmp t.faults.items) }
    ensures members { IfOk result (λ t. AreMemberUses (package_of pkg.entry) (map uses_in t.members.items)) }
    ensures enterings { IfOk result (λ t. AreEnterings (package_of pkg.entry) (map enterings_in t.enterings.items)) }
    ensures bounds { OnOk result (AreMeanings (package_of pkg.entry) bounds.new.list.items bounds.new.of.items) }
{
    has_one_world(pkg);
    let mut typed = Typed {
        faults: Vec::new(alloc),
        members: Vec::new(alloc),
        enterings: Vec::new(alloc),
    };
    let of = Judging {
        pkg,
        index,
        definitions,
    };
    for file in 0..pkg.files.len() {
        add_file(alloc, &of, bounds, &mut typed, file)?;
    }
    sort(&mut typed.faults);
    Ok(typed)
}
