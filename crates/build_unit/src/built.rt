//! Builds a Job: the unit of its package, and the verdicts that were found on the way.
ghost use Rattle.std.specs.Prelude.{◌≡◌, IfOk};
ghost use Rattle.workspace_check.specs.Found.{AreVerdictsOf};
ghost use Rattle.build_unit.specs.Builds.{IsBuiltOf};
ghost use Rattle.build_unit.specs.Units.{IsUnitIn};

use crate::compiling::MadeUnit;
use crate::inputs::PackageInputs;
use crate::job::Job;
use crate::unit::Unit;
use std::alloc::{AllocError, Global};
use std::marker::Model;
use types_expr::symbol::SharedPath;
use workspace_check::KnownVerdict;

/// The answer to a Job: the unit of its package, the inputs that it was built from, and the number of the state that these are of. It has
/// the verdicts on packages of the inputs that the build found.
#[derive(Drop)]
pub struct Built {
    number: u64,
    package: SharedPath,
    inputs: PackageInputs,
    unit: Unit,
    found: Vec<KnownVerdict>,
}

impl Model for Built {
    ghost use Rattle.std.specs.Coded.{codes};
    ghost use Rattle.workspace_check.specs.Found.{AreVerdictsOf};
    ghost use Rattle.build_unit.specs.BuiltUnits.{BuiltUnit};
    ghost use Rattle.build_unit.specs.Codes.{unit_code, workspace_code};
    ghost use Rattle.build_unit.specs.Units.{IsUnitIn};

    ghost Value = { BuiltUnit };

    ghost coded = { Prim.hlevel (codes, unit_code, workspace_code) };

    ghost view = { λ a. record { number = a.number; «package» = a.package; inputs = a.inputs; unit = a.unit } };

    ghost invariant = { λ a. IsUnitIn a.inputs a.package a.unit × AreVerdictsOf a.inputs a.found.items };
}

impl Built {
    /// The number of the state that the inputs are of.
    pub fn number(&self) -> u64
        ensures { result ≡ self.now.number }
    {
        self.number
    }

    /// The path of the package that was built.
    pub fn package(&self) -> &SharedPath
        ensures { result.now ≡ self.now.package }
    {
        &self.package
    }

    /// The inputs from which the unit was built.
    pub fn inputs(&self) -> &PackageInputs
        ensures { result.now ≡ self.now.inputs }
    {
        &self.inputs
    }

    /// The unit of the package in the inputs, if it is one of their packages.
    pub fn unit(&self) -> &Unit
        ensures { result.now ≡ self.now.unit }
    {
        &self.unit
    }

    /// The verdicts on packages of the inputs that the build found: those that the Job did not bring.
    pub fn found(&self) -> &[KnownVerdict]
        ensures { AreVerdictsOf self.now.inputs result.now }
    {
        &self.found
    }

    /// Shows that the unit is that of the package in the inputs.
    pub fn is_right(&self)
        ensures { IsUnitIn self.now.inputs self.now.package self.now.unit }
    {
        let _unit = &self.unit;
    }
}

/// Builds the unit of a Job's package, or answers it where the inputs bring it. It checks only packages on which the Job brings no verdict.
/// The answer for a path that is no package of the inputs may be any unit.
pub fn build(alloc: Global, job: &Job) -> Result<Built, AllocError>
    ensures { IfOk result (IsBuiltOf job.now) }
{
    let package = job.package().clone()?;
    let inputs = job.inputs().clone()?;
    let MadeUnit { unit, found } = inputs.made(alloc, &package)?;
    Ok(Built {
        number: job.number(),
        package,
        inputs,
        unit,
        found,
    })
}
