//! A Job in a worker's hand, until it is handed in. Only here is a Job retired, and only where giving it back failed.
ghost use Rattle.std.specs.Prelude.{◌≡◌, IfOk, MatchResult};
ghost use Rattle.build_unit.specs.Builds.{IsBuiltOf};
ghost use Rattle.history_machine.specs.declared.event.Event.TheVariants.{Deliver, GiveBack};
ghost use Rattle.history_machine.specs.declared.event.Reply.{Reply};
ghost use Rattle.server_shared.specs.Working.{ComesBack, CallsEvent};

use crate::caller::Caller;
use build_unit::{Built, Job, build};
use history_book::{Handed, HandingIn};
use std::alloc::{AllocError, Global};

/// A Job that its worker must hand in, by `deliver` or `give_back`.
#[must_use]
pub(crate) struct InHand {
    job: Job,
}

impl InHand {
    /// A Job that was taken.
    pub fn new(job: Job) -> InHand
        ensures { result.job ≡ job }
    {
        InHand { job }
    }

    /// The Job's ticket.
    pub fn ticket(&self) -> u64
        ensures { result ≡ self.now.job.ticket }
    {
        self.job.ticket()
    }

    /// Builds the Job's package.
    pub fn build(&self, alloc: Global) -> Result<Built, AllocError>
        ensures { IfOk result (IsBuiltOf self.now.job) }
    {
        build(alloc, &self.job)
    }

    /// Delivers what was built for the Job. The Job comes back where the book doesn't take it.
    pub fn deliver<C: Caller>(self, caller: &mut C, built: Built) -> Result<(), InHand>
        requires brings { C.brings caller.old self.job }
        requires built { IsBuiltOf self.job built }
        ensures { (reply : Reply) × C.steps caller.old (Deliver self.job built) reply caller.new × MatchResult result (λ _. ¬ (ComesBack reply)) (λ hand. ComesBack reply × (hand.job ≡ self.job)) }
    {
        let InHand { job } = self;
        match caller.deliver(job, built) {
            Handed::Done(_) => Ok(()),
            Handed::Refused(_refusal) => Ok(()),
            Handed::Back(_refusal, job, built) => {
                drop(built);
                Err(InHand { job })
            }
        }
    }

    /// Gives the Job back. Where the book doesn't take it, it is retired.
    pub fn give_back<C: Caller>(self, caller: &mut C)
        ensures { CallsEvent C.steps caller.old (GiveBack self.job) caller.new }
    {
        let InHand { job } = self;
        match caller.call(HandingIn::GiveBack(job)) {
            Handed::Done(_) => {}
            Handed::Refused(_refusal) => {}
            Handed::Back(_refusal, job, built) => {
                drop(built);
                drop(job.retire());
            }
        }
    }
}
