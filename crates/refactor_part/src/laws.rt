//! Laws of the part of a workspace whose packages are those without faults.
ghost use Rattle.std.specs.Prelude.{ℕ, ◌≡◌, ◌↔◌, [], false, List, Contains};
ghost use Rattle.base_files.specs.Packages.{package_paths};
ghost use Rattle.base_files.specs.Workspace.{Workspace};
ghost use Rattle.workspace_check.specs.Closures.{HasSameClosure};
ghost use Rattle.workspace_check.specs.FaultLists.{ListsFaults};
ghost use Rattle.workspace_check.specs.Verdicts.{Verdicts, AreVerdicts};
ghost use Rattle.refactor_part.specs.FaultlessPart.{faultless_part};

/// The part has no fault, and the verdicts on the packages of the workspace are right of it. A workspace without faults is its own part.
pub fn parts_are_faultless()
    ensures sound { (w : Workspace) → (known : Verdicts) → AreVerdicts w known → ListsFaults (faultless_part w known) [] }
    ensures right { (w : Workspace) → (known : Verdicts) → AreVerdicts w known → AreVerdicts (faultless_part w known) known }
    ensures whole { (w : Workspace) → (known : Verdicts) → AreVerdicts w known → ListsFaults w [] → faultless_part w known ≡ w }
{}

/// The packages of the part are those of the workspace without faults. The closure of each has the same texts in both.
pub fn parts_keep_closures()
    ensures packages { (w : Workspace) → (known : Verdicts) → AreVerdicts w known → (p : List ℕ) →
        Contains (package_paths (faultless_part w known)) p ↔ (Contains (package_paths w) p × ((known p).faulty ≡ false)) }
    ensures closures { (w : Workspace) → (known : Verdicts) → AreVerdicts w known → (p : List ℕ) → (known p).faulty ≡ false →
        HasSameClosure w (faultless_part w known) p }
{}
