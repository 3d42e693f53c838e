//! Laws of the packages of a workspace without faults.
ghost use Rattle.std.specs.Prelude.{ℕ, ◌<◌, length};
ghost use Rattle.base_files.specs.Packages.{package_paths};
ghost use Rattle.base_files.specs.Workspace.{Workspace};
ghost use Rattle.types_declared.specs.Package.{Package};
ghost use Rattle.workspace_check.specs.declared.findings.Findings.{Findings};
ghost use Rattle.refs_binding.specs.Workspaces.{IsFaultless, IsPackageAt, known_in};

/// Each number below the count of packages is that of a checked package.
pub fn numbers_have_packages()
    ensures { (w : Workspace) → (found : Findings) → IsFaultless w found → (n : ℕ) → n < length (package_paths w) → (p : Package) × IsPackageAt w (known_in found) n p }
{}
