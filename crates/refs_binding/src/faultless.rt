//! A workspace without faults.
ghost use Rattle.std.specs.Prelude.{◌≡◌, ◌<◌, Some, Contains, MatchOption, length, slice_get};
ghost use Rattle.std.specs.List.Sorted.{IsStrictlyIncreasing};
ghost use Rattle.base_files.specs.Packages.{package_paths};
ghost use Rattle.workspace_graph.specs.Graphs.{ListsPackages, OfPackage};
ghost use Rattle.workspace_graph.specs.Packages.{PackageImports};
ghost use Rattle.refs_binding.specs.Workspaces.{IsFaultless};

use std::marker::Model;
use workspace_check::Findings;
use workspace_graph::Graph;

/// A workspace without faults: its graph, and the findings of its packages.
#[derive(Drop)]
pub struct FaultlessWorkspace<'a> {
    pub graph: &'a Graph,
    pub findings: &'a Findings,
}

impl<'a> Model for FaultlessWorkspace<'a> {
    ghost use Rattle.refs_binding.specs.WorkspaceFindings.{WorkspaceFindings, findings_code};
    ghost use Rattle.refs_binding.specs.Workspaces.{IsFaultless};

    ghost Value = { WorkspaceFindings };

    ghost coded = { findings_code };

    ghost view = { λ a. record { graph = a.graph.now; findings = a.findings.now } };

    ghost invariant = { λ a. IsFaultless a.graph.now a.findings.now };
}

impl FaultlessWorkspace<'_> {
    /// A law: the findings are those of the workspace, and none has a fault.
    pub fn has_no_faults(&self)
        ensures { IsFaultless self.now.graph self.now.findings }
    {
        let _ = &self.graph;
    }

    /// The number of packages.
    pub fn len(&self) -> usize
        ensures { result ≡ length (package_paths self.now.graph) }
    {
        self.graph.len()
    }

    /// The number of the package at a path, or `None` where there is no such package.
    pub fn number_of(&self, path: &[u8]) -> Option<usize>
        ensures { MatchOption result (Contains (package_paths self.now.graph) path.now → ⊥) (λ number. slice_get (package_paths self.now.graph) number ≡ Some path.now) }
    {
        self.graph.number_of(path)
    }

    /// The packages that a package imports directly, in increasing order.
    pub fn imports(&self, number: usize) -> &[usize]
        requires { number < length (package_paths self.now.graph) }
        ensures imports { OfPackage self.now.graph number (λ p. ListsPackages self.now.graph (PackageImports self.now.graph p) result.now) }
        ensures rising { IsStrictlyIncreasing result.now }
    {
        self.graph.imports(number)
    }
}
