//! Drafts: packages of which single files are set or removed, each made from the package before.
ghost use Rattle.std.specs.Prelude.{◌≡◌, ◌∷◌, [], true, slice_get, IfOk, IsTrue, MatchOption, OnOk, Some};
ghost use Rattle.std.specs.Option.{option_copied};
ghost use Rattle.std.specs.List.{All, Contains};
ghost use Rattle.std.specs.List.Sorted.{IsStrictlySortedBy};
ghost use Rattle.base_files.specs.Packages.{is_of_package};
ghost use Rattle.base_files.specs.Workspace.{Workspace, path_cmp};
ghost use Rattle.workspace_graph.specs.Drafts.{AreDraftsAt, HasText, IsDraft, IsDraftAt, IsEmptyAt, draft_paths, packages_of};
ghost use Rattle.workspace_graph.specs.Drafts.{KnowsImports, MayKnowBefore, PutsTree, SetsFaulty, SetsTree, SetsFile, SetsFiles, SetsText, RemovesFile};
ghost use Rattle.workspace_graph.specs.Borrows.{names};
ghost use Rattle.workspace_graph.specs.Graphs.{paths_of};
ghost use Rattle.workspace_graph.specs.ChangedFiles.{CoverChanges, ArePackages};
ghost use Rattle.workspace_graph.specs.KnownEdits.{EditsMakeOf};
ghost use Rattle.workspace_graph.specs.SameGoFiles.{DiffersOnlyAt};
ghost use Rattle.workspace_graph.specs.SameImports.{HasTreeAlike};
ghost use Rattle.workspace_graph.specs.InFolder.{tree_paths};

use crate::faulty_file::FaultyFile;
use crate::file_imports::{FileImport, read_imports};
use crate::folders::folders_of;
use crate::in_folder::{fault_at, put_fault, put_tree, take_fault, take_tree, tree_at};
use crate::known_edits::{KnownEdits, behind_path, tree_by_edits};
use crate::package::ParsedPackage;
use crate::parsed::{ParsedFile, is_source_file, parse};
use crate::renewed_imports::{ImportsChange, stay};
use crate::same_imports::import_alike;
use crate::shared_package::{SharedPackage, number_of};
use base_files::{FileText, Files, Path};
use go_ast::FileTree;
use std::alloc::{AllocError, Global};
use std::collections::BTreeSet;
use std::sync::Arc;

/// A package of which files are being set. `imports` has the paths that its files import, or is `None` where they must be read again.
/// `changed` says whether a file was set.
#[derive(Drop)]
pub(crate) struct Draft {
    pub(crate) package: ParsedPackage,
    pub(crate) imports: Option<Arc<BTreeSet<Vec<u8>>, Global>>,
    pub(crate) changed: bool,
}

/// Whether the files of a package still import the paths of `draft.imports`, after one of them was set. `gone` is the removed tree, and
/// `come` has the imports of the new one.
fn keeps_imports(
    alloc: Global,
    draft: &Draft,
    gone: Option<&FileTree>,
    come: &[FileImport],
) -> Result<bool, AllocError>
    requires { MayKnowBefore draft.now (option_copied gone) come.now }
    ensures { IfOk result (λ kept. IsTrue kept → KnowsImports draft.now) }
{
    match &draft.imports {
        None => Ok(false),
        Some(imports) => {
            let change = ImportsChange {
                imports,
                gone,
                come,
                files: &draft.package.trees,
            };
            stay(alloc, change)
        }
    }
}

/// Forgets the import paths of a draft, so that they are read again, unless only one file was set and the paths stayed.
fn renew_imports(
    alloc: Global,
    draft: &mut Draft,
    gone: Option<&FileTree>,
    come: &[FileImport],
) -> Result<(), AllocError>
    requires { MayKnowBefore draft.old (option_copied gone) come.now }
    ensures package { draft.new.package ≡ draft.old.package }
    ensures imports { OnOk result (KnowsImports draft.new) }
{
    if draft.changed || !keeps_imports(alloc, draft, gone, come)? {
        draft.imports = None;
    }
    draft.changed = true;
    Ok(())
}

/// Whether there is a tree at the path of this one that imports the same paths. False may be wrong.
fn has_tree_alike(alloc: Global, trees: &[FileTree], tree: &FileTree) -> Result<bool, AllocError>
    requires { IsStrictlySortedBy path_cmp (tree_paths trees.now) }
    ensures { IfOk result (λ has. IsTrue has → HasTreeAlike trees.now tree.now) }
{
    match tree_at(trees, tree.path()) {
        Some(before) => import_alike(alloc, before, tree),
        None => Ok(false),
    }
}

/// Sets the tree at its path, where it imports the same paths as the tree before. The import paths stay.
fn put_alike(draft: &mut Draft, tree: FileTree) -> Result<(), AllocError>
    requires sorted { IsStrictlySortedBy path_cmp (tree_paths draft.old.package.trees.items) }
    requires imports { KnowsImports draft.old }
    requires alike { HasTreeAlike draft.old.package.trees.items tree }
    ensures { OnOk result (PutsTree tree draft.old draft.new) }
{
    let gone = put_tree(&mut draft.package.trees, tree)?;
    drop(gone);
    draft.changed = true;
    Ok(())
}

/// Sets the tree at its path, and forgets the import paths where they may not stay.
fn put_other(alloc: Global, draft: &mut Draft, tree: FileTree) -> Result<(), AllocError>
    requires sorted { IsStrictlySortedBy path_cmp (tree_paths draft.old.package.trees.items) }
    requires imports { KnowsImports draft.old }
    ensures { OnOk result (PutsTree tree draft.old draft.new) }
{
    let come = read_imports(alloc, &tree)?;
    let gone = put_tree(&mut draft.package.trees, tree)?;
    renew_imports(alloc, draft, gone.as_ref(), &come)
}

/// Sets the tree at its path. The import paths stay where it surely imports the same paths as the tree before.
fn place_tree(alloc: Global, draft: &mut Draft, tree: FileTree) -> Result<(), AllocError>
    requires sorted { IsStrictlySortedBy path_cmp (tree_paths draft.old.package.trees.items) }
    requires imports { KnowsImports draft.old }
    ensures { OnOk result (PutsTree tree draft.old draft.new) }
{
    if has_tree_alike(alloc, &draft.package.trees, &tree)? {
        put_alike(draft, tree)
    } else {
        put_other(alloc, draft, tree)
    }
}

/// Sets the file at the tree's path to this tree.
fn set_tree(alloc: Global, draft: &mut Draft, tree: FileTree) -> Result<(), AllocError>
    requires { IsDraft draft.old }
    ensures { OnOk result (SetsTree tree draft.old draft.new) }
{
    let _ = take_fault(&mut draft.package.faulty, tree.path());
    place_tree(alloc, draft, tree)
}

/// Sets the file at the path of `file` to this file, which has no tree.
fn set_fault(alloc: Global, draft: &mut Draft, file: FaultyFile) -> Result<(), AllocError>
    requires { IsDraft draft.old }
    ensures { OnOk result (SetsFaulty file draft.old draft.new) }
{
    let taken = take_tree(&mut draft.package.trees, file.path());
    put_fault(&mut draft.package.faulty, file)?;
    renew_imports(alloc, draft, taken.tree.as_ref(), &[])
}

/// Removes the file at a path, if there is one.
fn take_out(alloc: Global, draft: &mut Draft, path: &Path) -> Result<(), AllocError>
    requires { IsDraft draft.old }
    ensures { OnOk result (RemovesFile path.now draft.old draft.new) }
{
    let taken = take_tree(&mut draft.package.trees, path);
    let _ = take_fault(&mut draft.package.faulty, path);
    renew_imports(alloc, draft, taken.tree.as_ref(), &[])
}

/// Whether a package has a file with this path and text.
fn has_text(draft: &Draft, path: &Path, text: &FileText) -> bool
    requires { IsDraft draft.now }
    ensures { IsTrue result → HasText draft.now.package.trees.items draft.now.package.faulty.items path.now text.now }
{
    if let Some(tree) = tree_at(&draft.package.trees, path) {
        return tree.pieces().file() == text;
    }
    match fault_at(&draft.package.faulty, path) {
        Some(file) => file.text() == text,
        None => false,
    }
}

/// Sets the text of the file at a path. It is parsed, unless the file has this text already.
fn set_text(
    alloc: Global,
    draft: &mut Draft,
    path: &Path,
    text: &FileText,
) -> Result<(), AllocError>
    requires { IsDraft draft.old }
    ensures { OnOk result (SetsText path.now text.now draft.old draft.new) }
{
    if has_text(draft, path, text) {
        return Ok(());
    }
    let like = tree_at(&draft.package.trees, path);
    match parse(alloc, path, text, like)? {
        ParsedFile::Sound(tree) => set_tree(alloc, draft, tree),
        ParsedFile::Faulty(file) => set_fault(alloc, draft, file),
    }
}

/// Sets the file at the tree's path to this tree, which was parsed before.
fn set_parsed(alloc: Global, draft: &mut Draft, tree: FileTree) -> Result<(), AllocError>
    requires { IsDraft draft.old }
    ensures { OnOk result (SetsText tree.path tree.cut.text draft.old draft.new) }
{
    is_source_file(&tree);
    set_tree(alloc, draft, tree)
}

/// Sets the file at a path in the package's folder to that of a workspace. Where the workspace has none, the file is removed.
fn set_file(alloc: Global, draft: &mut Draft, files: &Files, path: &Path) -> Result<(), AllocError>
    requires draft { IsDraft draft.old }
    requires of_package { is_of_package draft.old.package.path.items path.now ≡ true }
    ensures { OnOk result (SetsFile files.now path.now draft.old draft.new) }
{
    match files.get(path) {
        Some(text) => set_text(alloc, draft, path, text),
        None => take_out(alloc, draft, path),
    }
}

/// Sets the file at a path to that after a change. Its tree is made by the edits of the change of a number, where `tree_by_edits` can do so.
fn set_path(
    alloc: Global,
    draft: &mut Draft,
    known: KnownEdits<'_>,
    change: usize,
    path: &Path,
) -> Result<(), AllocError>
    requires draft { IsDraft draft.old }
    requires of_package { is_of_package draft.old.package.path.items path.now ≡ true }
    requires before { IsStrictlySortedBy path_cmp (paths_of known.before.now) }
    requires edits { All (EditsMakeOf known.before.now known.files.now) known.changed.now }
    ensures { OnOk result (SetsFile known.entry.files.now path.now draft.old draft.new) }
{
    let made = tree_by_edits(alloc, known, change, path)?;
    match made {
        Some(tree) => set_parsed(alloc, draft, tree),
        None => set_file(alloc, draft, known.files, path),
    }
}

/// The number of the draft whose package has the path, if there is one.
fn draft_number(drafts: &[Draft], path: &[u8]) -> Option<usize>
    requires { IsStrictlySortedBy path_cmp (draft_paths drafts.now) }
    ensures { MatchOption result (Contains (draft_paths drafts.now) path.now → ⊥) (λ number. slice_get (draft_paths drafts.now) number ≡ Some path.now) }
{
    match drafts.binary_search_by(|draft| draft.package.path.as_slice().cmp(path)) {
        Ok(number) => Some(number),
        Err(_) => None,
    }
}

/// Sets the file at a path to that after a change, as `set_path` does. Other paths than those of Go files in the folders of drafts are passed
/// over.
fn set_in(
    alloc: Global,
    drafts: &mut Vec<Draft>,
    known: KnownEdits<'_>,
    change: usize,
    path: &Path,
) -> Result<(), AllocError>
    requires sorted { IsStrictlySortedBy path_cmp (draft_paths drafts.old.items) }
    requires drafts { All IsDraft drafts.old.items }
    requires before { IsStrictlySortedBy path_cmp (paths_of known.before.now) }
    requires edits { All (EditsMakeOf known.before.now known.files.now) known.changed.now }
    ensures { OnOk result (SetsFiles known.entry.files.now (path.now ∷ []) drafts.old.items drafts.new.items) }
{
    if path.is_go() {
        if let Some(number) = draft_number(drafts, path.folder()) {
            return set_path(alloc, &mut drafts[number], known, change, path);
        }
    }
    Ok(())
}

/// Sets the files at several paths to those after a change, as `set_in` does for one. Changes whose edits are known stand in the order of the
/// paths.
fn set_all(
    alloc: Global,
    drafts: &mut Vec<Draft>,
    known: KnownEdits<'_>,
    paths: &[&Path],
) -> Result<(), AllocError>
    requires sorted { IsStrictlySortedBy path_cmp (draft_paths drafts.old.items) }
    requires drafts { All IsDraft drafts.old.items }
    requires before { IsStrictlySortedBy path_cmp (paths_of known.before.now) }
    requires edits { All (EditsMakeOf known.before.now known.files.now) known.changed.now }
    ensures { OnOk result (SetsFiles known.entry.files.now (names paths.now) drafts.old.items drafts.new.items) }
{
    let mut change = 0;
    for path in paths {
        set_in(alloc, drafts, known, change, path)?;
        change = behind_path(known.changed, change, path);
    }
    Ok(())
}

/// A draft of a package without files.
fn empty_package(alloc: Global, folder: &[u8]) -> Result<Draft, AllocError>
    ensures { IfOk result (λ made. IsEmptyAt folder.now made) }
{
    let package = ParsedPackage {
        path: Vec::from_slice(alloc, folder)?,
        trees: Vec::new(alloc),
        faulty: Vec::new(alloc),
    };
    Ok(Draft {
        package,
        imports: None,
        changed: false,
    })
}

/// A draft of the package at a folder. It has no file where there is no such package.
fn draft_at(alloc: Global, before: &[SharedPackage], folder: &[u8]) -> Result<Draft, AllocError>
    requires { IsStrictlySortedBy path_cmp (paths_of before.now) }
    ensures { IfOk result (IsDraftAt before.now folder.now) }
{
    match number_of(before, folder) {
        Some(number) => before[number].to_draft(),
        None => empty_package(alloc, folder),
    }
}

/// Drafts of the packages at some folders, in order. A draft has no file where there is no package at its folder.
fn drafts_at(
    alloc: Global,
    before: &[SharedPackage],
    folders: &BTreeSet<&[u8]>,
) -> Result<Vec<Draft>, AllocError>
    requires { IsStrictlySortedBy path_cmp (paths_of before.now) }
    ensures { IfOk result (λ drafts. AreDraftsAt before.now (names folders.now.keys) drafts.items) }
{
    let mut drafts = Vec::new(alloc);
    for folder in folders.iter() {
        drafts.push(draft_at(alloc, before, folder)?)?;
    }
    Ok(drafts)
}

/// The packages of the drafts, as shared packages.
fn shared(alloc: Global, drafts: Vec<Draft>) -> Result<Vec<SharedPackage>, AllocError>
    requires { All IsDraft drafts.items }
    ensures { IfOk result (λ packages. packages.items ≡ packages_of drafts.items) }
{
    let mut packages = Vec::new(alloc);
    for draft in drafts {
        packages.push(SharedPackage::of(alloc, draft)?)?;
    }
    Ok(packages)
}

/// The packages in the folders of `paths`, with the files that they have at `paths` after a change. A package without files stands for one
/// that does not exist.
pub(crate) fn packages_with(
    alloc: Global,
    known: KnownEdits<'_>,
    paths: &[&Path],
) -> Result<Vec<SharedPackage>, AllocError>
    requires before { IsStrictlySortedBy path_cmp (paths_of known.before.now) }
    requires edits { All (EditsMakeOf known.before.now known.files.now) known.changed.now }
    ensures { IfOk result (λ fresh. (v : Workspace) → ArePackages v known.entry.before.now → DiffersOnlyAt (names paths.now) v known.entry.files.now → CoverChanges v known.entry.files.now fresh.items) }
{
    let folders = folders_of(alloc, paths)?;
    let mut drafts = drafts_at(alloc, known.before, &folders)?;
    set_all(alloc, &mut drafts, known, paths)?;
    shared(alloc, drafts)
}
