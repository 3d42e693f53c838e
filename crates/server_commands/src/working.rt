//! The command `work`: builds one package in this session.
ghost use Rattle.std.specs.Prelude.{◌≡◌, IfOk};
ghost use Rattle.build_unit.specs.Builds.{IsBuiltOf};
ghost use Rattle.server_commands.specs.Work.{Builds, Delivers, GivesBack, Works};

use crate::desk::Desk;
use crate::response::Response;
use base_files::Refusal;
use build_unit::{Built, Job, build};
use history_book::{Handed, HandingIn};
use std::alloc::{AllocError, Global};
use types_expr::symbol::SharedPath;

/// Gives a Job back. If the desk refuses it, the Job is retired.
fn give_back<D: Desk>(desk: &mut D, job: Job)
    ensures { GivesBack D.steps desk.old job desk.new }
{
    match desk.step(HandingIn::GiveBack(job)) {
        Handed::Done(_) => {}
        Handed::Refused(_refusal) => {}
        Handed::Back(refusal, job, built) => {
            drop(refusal);
            drop(built);
            drop(job.retire());
        }
    }
}

/// Builds a Job. Returns what was built, and the package's path, which is shared before anything is delivered.
fn build_job(alloc: Global, job: &Job) -> Result<(Built, SharedPath), AllocError>
    ensures { IfOk result (λ made. IsBuiltOf job.now made.0 × (made.1 ≡ job.now.package)) }
{
    let path = job.package().clone()?;
    let built = build(alloc, job)?;
    Ok((built, path))
}

/// Delivers what was built for a Job, and answers. A Job that the desk refuses is given back.
fn deliver<D: Desk>(desk: &mut D, job: Job, built: Built, path: SharedPath) -> Response
    requires brings { D.brings desk.old job }
    requires built { IsBuiltOf job built }
    requires path { path ≡ job.package }
    ensures { Delivers D.steps desk.old job built result desk.new }
{
    match desk.deliver(job, built) {
        Handed::Done(number) => Response::Built {
            number,
            package: path,
        },
        Handed::Refused(refusal) => Response::Refused { refusal },
        Handed::Back(refusal, job, built) => {
            drop(built);
            give_back(desk, job);
            Response::Refused { refusal }
        }
    }
}

/// Builds a Job and delivers it. For want of memory the Job is given back.
fn build_in<D: Desk>(alloc: Global, desk: &mut D, job: Job) -> Response
    requires { D.brings desk.old job }
    ensures { Builds D.steps desk.old job result desk.new }
{
    match build_job(alloc, &job) {
        Ok((built, path)) => deliver(desk, job, built, path),
        Err(_) => {
            give_back(desk, job);
            Response::Refused {
                refusal: Refusal::Memory,
            }
        }
    }
}

/// Takes a Job, builds it, and delivers what was built.
pub(crate) fn work<D: Desk>(alloc: Global, desk: &mut D) -> Response
    ensures { Works D.steps desk.old result desk.new }
{
    match desk.take() {
        Ok(job) => build_in(alloc, desk, job),
        Err(refusal) => Response::Refused { refusal },
    }
}
