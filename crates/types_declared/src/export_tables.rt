//! The export data of other packages that a package sees, and the states of its imported paths.
ghost use Rattle.std.specs.Prelude.{◌≡◌, ℕ, List, None, IsSome, option_copied, option_map, is_some, IfOk, OnOk, OnErr};
ghost use Rattle.types_declared.specs.States.{state_in};
ghost use Rattle.types_declared.specs.declared.states.ImportState.TheVariants.{Missing};
ghost use Rattle.types_expr.specs.WorldView.{known_at, shared_export_data};
ghost use Rattle.types_declared.specs.ExportTablesView.{export_of, exported_in, scope_in, export_data_in, no_export_data, name_in, SetsState, HasSameEntry, SetsKnown, AddsExportData, CopiesEntry, ComesAfterAll, EndsAt};

use crate::known_export::{KnownExportData, share_held};
use crate::{Exports, ImportState, ImportStates, PackageNames};
use base_files::{PathTable, SharedPath};
use std::alloc::{AllocError, Global};
use std::sync::Arc;
use types_expr::exports::{Export, ExportData, PackageScope};
use types_expr::world::Definitions;

/// The export data of imported packages, by path and shareable, and the state of each imported path.
pub struct ExportTable {
    definitions: Definitions,
    states: ImportStates,
}

/// Written out, so that crates above call it and don't prove again how each part is dropped.
impl Drop for ExportTable {
    fn drop(self) {
        let ExportTable {
            definitions,
            states,
        } = self;
        drop(definitions);
        drop(states);
    }
}

/// The export of a package under a name.
fn export<'a>(scope: &'a PackageScope, name: &[u8]) -> Option<&'a Export>
    ensures { option_map (λ e. export_of e.now) result ≡ exported_in scope.now name.now }
{
    scope.exported.get(name)
}

impl ExportTable {
    /// An empty table: no export data, and every path missing.
    pub fn new(alloc: Global) -> ExportTable
        ensures states { (path : List ℕ) → state_in result.states path ≡ Missing }
        ensures names { (path : List ℕ) → name_in result path ≡ None }
        ensures export_table { (path : List ℕ) → export_data_in result path ≡ no_export_data path }
        ensures behind { (path : List ℕ) → ComesAfterAll result path }
    {
        ExportTable {
            definitions: Definitions {
                packages: PathTable::new(alloc),
            },
            states: ImportStates::new(alloc),
        }
    }

    /// An empty table with room for `capacity` packages.
    pub fn with_capacity(alloc: Global, capacity: usize) -> Result<ExportTable, AllocError>
        ensures states { IfOk result (λ i. (path : List ℕ) → state_in i.states path ≡ Missing) }
        ensures names { IfOk result (λ i. (path : List ℕ) → name_in i path ≡ None) }
        ensures export_table { IfOk result (λ i. (path : List ℕ) → export_data_in i path ≡ no_export_data path) }
        ensures behind { IfOk result (λ i. (path : List ℕ) → ComesAfterAll i path) }
    {
        let packages = PathTable::with_capacity(alloc, capacity)?;
        Ok(ExportTable {
            definitions: Definitions { packages },
            states: ImportStates::new(alloc),
        })
    }

    /// The states of imported paths.
    pub fn states(&self) -> &ImportStates
        ensures { result.now ≡ self.now.states }
    {
        &self.states
    }

    /// The type definitions of imported packages.
    pub fn definitions(&self) -> &Definitions
        ensures { result.now ≡ self.now.definitions }
    {
        &self.definitions
    }

    /// The name and the exported names of the package at a path; none where its export data isn't known.
    pub fn scope(&self, path: &[u8]) -> Option<&PackageScope>
        ensures { option_copied result ≡ scope_in self.now path.now }
    {
        match self.definitions.export_data(path) {
            None => None,
            Some(export_data) => Some(&export_data.scope),
        }
    }

    /// The export that the package at a path has under a name; none where it has none or isn't known.
    pub fn export(&self, path: &[u8], name: &[u8]) -> Option<&Export>
        ensures { option_map (λ e. export_of e.now) result ≡ (export_data_in self.now path.now).exported name.now }
    {
        export(self.scope(path)?, name)
    }

    /// The export data of the package at a path, shared with the table; none where it isn't known.
    pub fn known(&self, path: &[u8]) -> Result<KnownExportData, AllocError>
        ensures { IfOk result (λ one. one ≡ known_at self.now.definitions path.now) }
    {
        match self.definitions.packages.get(path) {
            None => Ok(KnownExportData { known: None }),
            Some(held) => {
                let known = share_held(held)?;
                Ok(KnownExportData { known })
            }
        }
    }

    /// Sets the state of an imported path.
    pub fn note(&mut self, path: Vec<u8>, state: ImportState) -> Result<(), AllocError>
        ensures noted { OnOk result (SetsState (state_in self.old.states) (state_in self.new.states) path.items state) }
        ensures kept { (p : List ℕ) → export_data_in self.new p ≡ export_data_in self.old p }
        ensures names { (p : List ℕ) → name_in self.new p ≡ name_in self.old p }
        ensures refused { OnErr result ((p : List ℕ) → state_in self.new.states p ≡ state_in self.old.states p) }
    {
        self.states.states.insert(path, state)?;
        Ok(())
    }

    /// Sets the export data of the package at a path, or that it isn't known.
    fn set(
        &mut self,
        path: SharedPath,
        known: Option<Arc<ExportData, Global>>,
    ) -> Result<(), AllocError>
        ensures set { OnOk result (SetsKnown self.old self.new path (shared_export_data known)) }
        ensures refused { OnErr result ((p : List ℕ) → HasSameEntry self.old self.new p) }
    {
        self.definitions.packages.put(path, known)?;
        Ok(())
    }

    /// Sets the export data of the package at a path, in place of an earlier entry.
    pub fn add(
        &mut self,
        alloc: Global,
        path: &[u8],
        export_data: ExportData,
    ) -> Result<(), AllocError>
        ensures added { OnOk result (AddsExportData self.old self.new path.now export_data) }
        ensures refused { OnErr result ((p : List ℕ) → HasSameEntry self.old self.new p) }
    {
        let path = SharedPath::new(alloc, path)?;
        let known = Arc::new(alloc, export_data)?;
        self.set(path, Some(known))?;
        Ok(())
    }

    /// Sets the export data of the package at a path to shared data, in place of an earlier entry.
    pub fn share_known(
        &mut self,
        path: SharedPath,
        known: &KnownExportData,
    ) -> Result<(), AllocError>
        ensures set { OnOk result (SetsKnown self.old self.new path known.now) }
        ensures refused { OnErr result ((p : List ℕ) → HasSameEntry self.old self.new p) }
    {
        let held = share_held(&known.known)?;
        self.set(path, held)
    }

    /// Appends an entry for a path that comes after all paths of the table.
    fn push(
        &mut self,
        path: SharedPath,
        known: Option<Arc<ExportData, Global>>,
    ) -> Result<(), AllocError>
        requires { ComesAfterAll self.old path }
        ensures set { OnOk result (SetsKnown self.old self.new path (shared_export_data known)) }
        ensures end { OnOk result (EndsAt self.new path) }
        ensures refused { OnErr result ((p : List ℕ) → HasSameEntry self.old self.new p) }
    {
        self.definitions.packages.push(path, known)?;
        Ok(())
    }

    /// Appends shared export data for a path that comes after all paths of the table, so that no path is compared.
    pub fn push_known(
        &mut self,
        path: SharedPath,
        known: &KnownExportData,
    ) -> Result<(), AllocError>
        requires { ComesAfterAll self.old path }
        ensures set { OnOk result (SetsKnown self.old self.new path known.now) }
        ensures end { OnOk result (EndsAt self.new path) }
        ensures refused { OnErr result ((p : List ℕ) → HasSameEntry self.old self.new p) }
    {
        let held = share_held(&known.known)?;
        self.push(path, held)
    }

    /// Appends the entry that `others` has for a path, if any; the path comes after all paths of the table. The search in `others` begins
    /// at number `first`. Returns the number to begin at for the next path in order.
    pub fn share_next(
        &mut self,
        others: &ExportTable,
        path: &[u8],
        first: usize,
    ) -> Result<usize, AllocError>
        requires { ComesAfterAll self.old path.now }
        ensures shared { OnOk result (CopiesEntry others.now self.old self.new path.now) }
        ensures end { OnOk result (EndsAt self.new path.now) }
        ensures refused { OnErr result ((p : List ℕ) → HasSameEntry self.old self.new p) }
    {
        let Some(entry) = others.definitions.packages.entry_from(path, first) else {
            return Ok(first);
        };
        let known = share_held(entry.value)?;
        let own = entry.path.clone()?;
        self.push(own, known)?;
        Ok(entry.number.wrapping_add(1))
    }
}

impl Exports for ExportTable {
    ghost exported = { λ export_table path name. is_some ((export_data_in export_table path).exported name) };

    fn exports(&self, path: &[u8], name: &[u8]) -> bool {
        self.export(path, name).is_some()
    }
}

impl PackageNames for ExportTable {
    ghost name_of = { name_in };

    fn name(&self, path: &[u8]) -> Option<&[u8]> {
        match self.scope(path) {
            None => None,
            Some(scope) => Some(&scope.name),
        }
    }
}
