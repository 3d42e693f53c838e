//! The laws of export data: a package exports only what it declares.
ghost use Rattle.std.specs.Prelude.{ℕ, List};
ghost use Rattle.base_files.specs.Workspace.{Workspace};
ghost use Rattle.types_declared.specs.Package.{ExportData};
ghost use Rattle.workspace_check.specs.Verdicts.{Verdicts, HasExportData};
ghost use Rattle.build_unit.specs.Units.{IsUnitValue, Done};
ghost use Rattle.refactor_plan.specs.OwnExports.{AreOwnExports};

/// The export data of a package is its own: the package declares each exported name, and each field and method has a symbol of the package.
pub fn export_data_is_own()
    ensures { (w : Workspace) → (known : Verdicts) → (p : List ℕ) → (i : ExportData) → HasExportData w known p i → AreOwnExports w known p i }
{}

/// The export data in the unit of a package is its own.
pub fn export_data_of_units_is_own()
    ensures { (w : Workspace) → (p : List ℕ) → (i : ExportData) → (object : List ℕ) → IsUnitValue w p (Done i object) → (known : Verdicts) × AreOwnExports w known p i }
{}
