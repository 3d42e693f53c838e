//! Links that several graphs share.
ghost use Rattle.std.specs.Prelude.{◌≡◌, IfOk};
ghost use Rattle.workspace_graph.specs.Imports.{AreLinked};

use crate::import_links::ImportLinks;
use crate::link_rows::LinkRows;
use std::alloc::{AllocError, Global};
use std::marker::Model;
use std::sync::Arc;

/// Links behind a counted reference, which do not change. A clone shares them.
#[derive(Drop)]
pub(crate) struct SharedLinks {
    links: Arc<ImportLinks, Global>,
}

impl Model for SharedLinks {
    ghost use Rattle.std.specs.Arc.{arc_value};
    ghost use Rattle.workspace_graph.specs.Imports.{LinkTable};

    ghost Value = { LinkTable };

    ghost view = { λ a. arc_value a.links };
}

impl SharedLinks {
    /// The links with these imports. Shares `before` where it has equal imports, and otherwise finds the importers.
    pub(crate) fn of(
        alloc: Global,
        before: Option<&SharedLinks>,
        rows: LinkRows,
    ) -> Result<SharedLinks, AllocError>
        requires { AreLinked rows }
        ensures { IfOk result (λ shared. shared ≡ rows) }
    {
        if let Some(before) = before {
            if before.links().are(&rows) {
                return before.clone();
            }
        }
        let links = ImportLinks::new(alloc, rows)?;
        SharedLinks::new(alloc, links)
    }

    /// The shared links.
    pub(crate) fn new(alloc: Global, links: ImportLinks) -> Result<SharedLinks, AllocError>
        ensures { IfOk result (λ shared. shared ≡ links) }
    {
        let links = Arc::new(alloc, links)?;
        Ok(SharedLinks { links })
    }

    /// The links.
    pub(crate) fn links(&self) -> &ImportLinks
        ensures { result.now ≡ self.now }
    {
        &self.links
    }
}

impl Clone for SharedLinks {
    ghost is_clone = { λ links copy. copy ≡ links };

    fn clone(&self) -> Result<SharedLinks, AllocError> {
        let links = Arc::try_clone(&self.links)?;
        Ok(SharedLinks { links })
    }
}
