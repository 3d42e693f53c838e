//! The files of a workspace.
ghost use Rattle.std.specs.Prelude.{◌≡◌, ℕ, List, IfOk, OnOk, OnErr, IsTrue, ◌↔◌};
ghost use Rattle.std.specs.Map.Iter.{ShowsInOrder, deref_pair};
ghost use Rattle.std.specs.Option.{option_copied};
ghost use Rattle.std.specs.FinMap as map;

use crate::file_text::FileText;
use crate::path::Path;
use base_chunks::{Entries, SharedMap};
use std::alloc::{AllocError, Global};
use std::marker::Model;

/// A map from paths to texts: the files of a workspace. A copy shares them.
#[derive(Drop)]
pub struct Files {
    texts: SharedMap<Path, FileText>,
}

impl Model for Files {
    ghost use Rattle.std.specs.Prelude.{List, ℕ};
    ghost use Rattle.std.specs.Coded.{coded_ℕ, coded_list};
    ghost use Rattle.std.specs.FinMap as map;
    ghost use Rattle.base_files.specs.Workspace.{path_cmp};

    ghost Value = { map.FinMap path_cmp (List ℕ) };

    ghost coded = { map.code (coded_list coded_ℕ) (coded_list coded_ℕ) };

    ghost view = { λ a. map.from_entries a.texts };
}

impl Files {
    /// A workspace without files.
    pub fn new(alloc: Global) -> Files
        ensures { result ≡ map.empty }
    {
        Files {
            texts: SharedMap::new(alloc),
        }
    }

    /// The text at a path, or `None` where there is no file.
    pub fn get(&self, path: &Path) -> Option<&FileText>
        ensures { option_copied result ≡ map.get self.now path.now }
    {
        self.texts.get(path)
    }

    /// Sets the text at a path.
    pub fn insert(&mut self, path: Path, text: FileText) -> Result<(), AllocError>
        ensures ok { OnOk result (self.new ≡ map.insert self.old path text) }
        ensures err { OnErr result (self.new ≡ self.old) }
    {
        self.texts.insert(path, text)?;
        Ok(())
    }

    /// Removes the file at a path, if there is one.
    pub fn remove(&mut self, path: &Path) -> Result<(), AllocError>
        ensures ok { OnOk result (self.new ≡ map.remove self.old path.now) }
        ensures err { OnErr result (self.new ≡ self.old) }
    {
        self.texts.remove(path)?;
        Ok(())
    }

    /// The number of files.
    pub fn len(&self) -> usize
        ensures { result ≡ map.len self.now }
    {
        self.texts.len()
    }

    /// The files in the order of the bytes of their paths.
    pub fn iter(&self) -> Entries<'_, Path, FileText>
        ensures files { result ≡ map.entries self.now }
        ensures runs { ShowsInOrder (deref_pair {K = List ℕ} {X = List ℕ}) }
    {
        self.texts.iter()
    }

    /// A copy of the map, which shares the texts.
    pub fn copy(&self) -> Result<Files, AllocError>
        ensures { IfOk result (λ copy. copy ≡ self.now) }
    {
        let texts = self.texts.copy()?;
        Ok(Files { texts })
    }

    /// Whether both have equal texts at equal paths.
    pub fn same(&self, other: &Files) -> bool
        ensures { IsTrue result ↔ (self.now ≡ other.now) }
    {
        other.texts.len() == self.texts.len() && self.texts.same(&other.texts)
    }
}
