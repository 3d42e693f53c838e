//! The Jobs that are out: handed out, and not yet taken back.
ghost use Rattle.std.specs.Prelude.{◌≡◌, ◌↔◌, ◌<◌, [], IsTrue, MatchOption, Some, length, slice_get};
ghost use Rattle.build_unit.specs.Jobs.{HandsOut, IsOut, IsTakenInVisit, TakesBack, label_of};

use crate::inputs::PackageInputs;
use crate::job::{Job, JobRecord};
use std::alloc::{AllocError, Global};
use std::marker::Model;
use types_expr::symbol::SharedPath;

/// The label by which a Job is recognized.
#[derive(Drop)]
pub struct JobLabel {
    pub ticket: u64,
    pub number: u64,
    pub visit: u64,
    pub package: SharedPath,
}

impl JobLabel {
    /// Whether this is the label of the Job.
    fn is_of(&self, job: &Job) -> bool
        ensures { IsTrue result ↔ (self.now ≡ label_of job.now) }
    {
        self.ticket == job.ticket()
            && self.number == job.number()
            && self.visit == job.visit()
            && self.package.path() == job.package().path()
    }

    /// Whether this is the label of a Job of the package at `path` that was taken in this visit.
    fn is_of_visit(&self, visit: u64, path: &[u8]) -> bool
        ensures { IsTrue result ↔ ((self.now.visit ≡ visit) × (self.now.package ≡ path.now)) }
    {
        self.visit == visit && self.package.path() == path
    }
}

/// Hands Jobs out, and takes them back.
#[derive(Drop)]
pub struct Out {
    next: u64,
    labels: Vec<JobLabel>,
}

impl Model for Out {
    ghost use Rattle.build_unit.specs.Jobs.{JobsOut};

    ghost Value = { JobsOut };

    ghost view = { λ a. record { ticket = a.next; jobs = a.labels.items } };
}

impl Out {
    /// Begins with no Job out.
    pub fn new(alloc: Global) -> Out
        ensures { result ≡ record { ticket = 0; jobs = [] } }
    {
        Out {
            next: 0,
            labels: Vec::new(alloc),
        }
    }

    /// The number of Jobs that are out.
    pub fn len(&self) -> usize
        ensures { result ≡ length self.now.jobs }
    {
        self.labels.len()
    }

    /// The place of the Job among those that are out, if it is out.
    fn place_of(&self, job: &Job) -> Option<usize>
        ensures { MatchOption result (IsOut self.now job.now → ⊥) (λ place. slice_get self.now.jobs place ≡ Some (label_of job.now)) }
    {
        for place in 0..self.labels.len() {
            if self.labels[place].is_of(job) {
                return Some(place);
            }
        }
        None
    }

    /// Whether the Job is out.
    pub fn is_out(&self, job: &Job) -> bool
        ensures { IsTrue result ↔ IsOut self.now job.now }
    {
        self.place_of(job).is_some()
    }

    /// Whether a Job of the package at `path` is out that was taken in this visit.
    pub fn is_taken(&self, visit: u64, path: &[u8]) -> bool
        ensures { IsTrue result ↔ IsTakenInVisit self.now visit path.now }
    {
        for label in &self.labels {
            if label.is_of_visit(visit, path) {
                return true;
            }
        }
        false
    }

    /// Hands out a Job with the next ticket. The caller makes sure that `path` is that of a package of the inputs. For another path any
    /// unit may be built.
    pub fn hand_out(
        &mut self,
        number: u64,
        visit: u64,
        path: SharedPath,
        inputs: PackageInputs,
    ) -> Result<Job, AllocError>
        requires { self.old.ticket < u64.MAX }
        ensures { HandsOut self.old number visit path inputs result self.new }
    {
        let ticket = self.next;
        let label = JobLabel {
            ticket,
            number,
            visit,
            package: path.clone()?,
        };
        self.labels.push(label)?;
        self.next += 1;
        let record = JobRecord {
            ticket,
            number,
            visit,
            package: path,
            inputs,
        };
        Ok(Job::new(record))
    }

    /// Takes back a Job that is out, and returns its record. A Job that is not out is returned. It takes no memory.
    pub fn take_back(&mut self, job: Job) -> Result<JobRecord, Job>
        ensures { TakesBack self.old job result self.new }
    {
        match self.place_of(&job) {
            Some(place) => {
                drop(self.labels.remove(place));
                Ok(job.retire())
            }
            None => Err(job),
        }
    }
}
