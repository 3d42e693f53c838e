//! A Job: a package that is handed out to be built, with the texts of its closure.
ghost use Rattle.std.specs.Prelude.{◌≡◌};

use crate::inputs::PackageInputs;
use std::marker::Model;
use types_expr::symbol::SharedPath;

/// The contents of a Job: the package and the texts of its closure. `number` is that of the state that they are of. `visit` is that of this
/// state in which the Job was taken.
#[derive(Drop)]
pub struct JobRecord {
    pub ticket: u64,
    pub number: u64,
    pub visit: u64,
    pub package: SharedPath,
    pub inputs: PackageInputs,
}

/// A package to be built. Only `Out::hand_out` makes one. It cannot be dropped: it ends in `Out::take_back` or in `retire`.
#[must_use]
pub struct Job {
    record: JobRecord,
}

impl Model for Job {
    ghost use Rattle.std.specs.Coded.{codes};
    ghost use Rattle.build_unit.specs.Codes.{workspace_code};
    ghost use Rattle.build_unit.specs.declared.job.JobRecord.{JobRecord};

    ghost Value = { JobRecord };

    ghost coded = { Prim.hlevel (codes, workspace_code) };

    ghost view = { λ a. a.record };
}

impl Job {
    /// Makes a Job of its record.
    pub(crate) fn new(of: JobRecord) -> Job
        ensures { result ≡ of }
    {
        Job { record: of }
    }

    /// The ticket of the Job, by which it is handed out.
    pub fn ticket(&self) -> u64
        ensures { result ≡ self.now.ticket }
    {
        self.record.ticket
    }

    /// The number of the state that the inputs are of.
    pub fn number(&self) -> u64
        ensures { result ≡ self.now.number }
    {
        self.record.number
    }

    /// The visit of the state in which the Job was taken.
    pub fn visit(&self) -> u64
        ensures { result ≡ self.now.visit }
    {
        self.record.visit
    }

    /// The path of the package to be built.
    pub fn package(&self) -> &SharedPath
        ensures { result.now ≡ self.now.package }
    {
        &self.record.package
    }

    /// The files from which the package is built: those of its closure.
    pub fn inputs(&self) -> &PackageInputs
        ensures { result.now ≡ self.now.inputs }
    {
        &self.record.inputs
    }

    /// Ends the Job, and returns its record.
    pub fn retire(self) -> JobRecord
        ensures { result ≡ self }
    {
        let Job { record } = self;
        record
    }
}
