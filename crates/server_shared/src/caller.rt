//! Who makes events of a book, one after another. A worker is proved for every caller: it can show a step only where it made the call.
ghost use Rattle.std.specs.Prelude.{IfOk, IfSome, MatchOption};
ghost use Rattle.build_unit.specs.Builds.{IsBuiltOf};
ghost use Rattle.build_unit.specs.declared.job.JobRecord.{JobRecord};
ghost use Rattle.history_book.specs.Handed.{handed};
ghost use Rattle.history_machine.specs.MayReply.{MayReply};
ghost use Rattle.history_machine.specs.declared.event.Event.{Event};
ghost use Rattle.history_machine.specs.Step.{taken};
ghost use Rattle.history_machine.specs.declared.event.Event.TheVariants.{Deliver, Take};
ghost use Rattle.history_machine.specs.declared.event.Reply.{Reply};
ghost use Rattle.server_shared.specs.Working.{LacksOnly};

use crate::opening::Opening;
use crate::seat::Seat;
use crate::shared::Shared;
use base_files::Refusal;
use build_unit::{Built, Job};
use history_book::{Handed, Question};
use server_versions::Versions;
use std::sync::Wait;
use workspace_graph::Graph;

/// One who makes events of a book, refused ones too, and waits for packages to build.
pub trait Caller {
    /// The steps of an event: the caller before it, the event, its reply, and the caller after it.
    ghost steps: { Self → Event → Reply → Self → Type 0 };

    /// The caller before and after it learned that no more is to be built. It made no event.
    ghost rests: { Self → Self → Type 0 };

    /// What the caller knows of a Job that it took, until its next event.
    ghost brings: { Self → JobRecord → Type 0 };

    /// Makes one event, and returns the answer.
    fn call<Q: Question>(&mut self, question: Q) -> Q::Answer
        ensures step { steps self.old (Q.event question) (Q.reply result) self.new }
        ensures kind { MayReply (Q.event question) (Q.reply result) };

    /// Waits until a package waits to be built, and takes a Job of it. The Take is refused only for want of memory. Returns `None` where no
    /// more is to be built.
    fn take(&mut self) -> Option<Result<Job, Refusal>>
        ensures took { MatchOption result (rests self.old self.new) (λ answer. steps self.old Take (taken answer) self.new × LacksOnly answer) }
        ensures brings { IfSome result (λ answer. IfOk answer (λ job. brings self.new job)) };

    /// Delivers what was built for a Job that was taken here.
    fn deliver(&mut self, job: Job, built: Built) -> Handed
        requires brings { brings self.old job }
        requires built { IsBuiltOf job built }
        ensures step { steps self.old (Deliver job built) (handed result) self.new }
        ensures kind { MayReply (Deliver job built) (handed result) };
}

/// A caller at a seat of a shared book. It borrows the seat, and what was seen of the log of files where it took its Job.
#[derive(Drop)]
pub struct AtSeat<'a, L: Opening, R: Wait> {
    pub rt: &'a R,
    pub shared: &'a Shared<L>,
    pub seat: &'a mut Seat<L>,
    pub seen: &'a mut Option<Versions<Graph, L>>,
}

impl<'a, L: Opening, R: Wait> Caller for AtSeat<'a, L, R> {
    ghost use Rattle.std.specs.Prelude.{◌≡◌, IfSome};
    ghost use Rattle.server_shared.specs.Call.{CallsWith};
    ghost use Rattle.server_shared.specs.SeenFiles.{BringsInputs};

    // The caller keeps its seat.
    ghost steps = { λ old event reply new. (new.seat.ghost_name ≡ old.seat.ghost_name) × CallsWith L.most old.seat.now event reply new.seat.now };

    ghost rests = { λ old new. (new.seat.ghost_name ≡ old.seat.ghost_name) × (new.seat.now ≡ old.seat.now) };

    // Where the Job was taken, it had the inputs of its package in the last files that were seen.
    ghost brings = { λ caller job. IfSome caller.seen.now (λ v. BringsInputs v job) };

    fn call<Q: Question>(&mut self, question: Q) -> Q::Answer {
        self.shared.send(self.rt, self.seat, question)
    }

    fn take(&mut self) -> Option<Result<Job, Refusal>> {
        self.shared.take(self.rt, self.seat, self.seen)
    }

    fn deliver(&mut self, job: Job, built: Built) -> Handed {
        let shared = self.shared;
        let (answer, _index) = shared.deliver(self.rt, self.seat, job, built, self.seen);
        answer
    }
}
