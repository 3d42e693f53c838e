//! The workers, which build packages.
ghost use Rattle.std.specs.Prelude.{◌≡◌, ◌++◌, List, [], MatchOption};
ghost use Rattle.server_shared.specs.Call.{CallsWith, Gains};
ghost use Rattle.server_shared.specs.Held.{IsRested};
ghost use Rattle.server_shared.specs.declared.receipt.Receipt.{Receipt as HeldReceipt};
ghost use Rattle.build_unit.specs.Builds.{IsBuiltOf};
ghost use Rattle.server_shared.specs.Working.{AccountsForTurns, HandsIn, IsWork, TakesTurn, WorksOn};

use crate::caller::{AtSeat, Caller};
use crate::gate::Gate;
use crate::in_hand::InHand;
use crate::opening::Opening;
use crate::seat::Seat;
use crate::shared::Shared;
use crate::work_turn::{WorkTurn, wait_for_memory};
use build_unit::Built;
use std::alloc::Global;
use std::sync::Wait;

/// Takes, builds and delivers Jobs until the shared book is stopped. Before a Job it judges packages that the Job needs, which is no event.
/// Behind each turn the seat hands its receipts in. Where nothing is to be built it sleeps, and makes no event. Where memory is wanting it takes
/// a few turns more. Then it waits for a change or a delivery, so that its turns don't fill the journal.
pub fn worker<L: Opening, R: Wait, G: Gate>(
    rt: &R,
    alloc: Global,
    shared: &Shared<L>,
    seat: &mut Seat<L>,
    gate: &G,
)
    requires fresh { AccountsForTurns L.accounts L.most [] }
    requires here { AccountsForTurns L.accounts L.most seat.old }
    ensures here { AccountsForTurns L.accounts L.most seat.new }
    ensures works { WorksOn L.most seat.old seat.new }
    ensures gains { (past : List HeldReceipt) × Gains IsWork seat.old (past ++ seat.new) }
{
    shared.join(rt);
    let mut lacks = 0;
    for _ in rt.forever() {
        shared.judge_ahead(rt, alloc);
        let Some(news) = shared.news_unless_stopped(rt) else {
            return;
        };
        match turn_and_rest(rt, alloc, shared, seat, gate) {
            None => return,
            Some(WorkTurn::HandedIn) => lacks = 0,
            Some(WorkTurn::Lacking) => lacks = wait_for_memory(rt, shared, news, lacks),
        }
    }
}

/// Takes a turn at a seat, which then hands its receipts in. Or finds that no more is to be built.
fn turn_and_rest<L: Opening, R: Wait, G: Gate>(
    rt: &R,
    alloc: Global,
    shared: &Shared<L>,
    seat: &mut Seat<L>,
    gate: &G,
) -> Option<WorkTurn>
    requires fresh { AccountsForTurns L.accounts L.most [] }
    requires here { AccountsForTurns L.accounts L.most seat.old }
    ensures here { AccountsForTurns L.accounts L.most seat.new }
    ensures turn { MatchOption result (seat.new ≡ seat.old) (λ turn. (mid : List HeldReceipt) × TakesTurn (CallsWith L.most) seat.old turn mid × IsRested mid seat.new) }
{
    let turn = turn_at_seat(rt, alloc, shared, seat, gate)?;
    shared.hand_in(rt, seat);
    Some(turn)
}

/// Takes a turn at a seat, or finds that no more is to be built.
fn turn_at_seat<L: Opening, R: Wait, G: Gate>(
    rt: &R,
    alloc: Global,
    shared: &Shared<L>,
    seat: &mut Seat<L>,
    gate: &G,
) -> Option<WorkTurn>
    ensures { MatchOption result (seat.new ≡ seat.old) (λ turn. TakesTurn (CallsWith L.most) seat.old turn seat.new) }
{
    let mut seen = None;
    let mut caller = AtSeat {
        rt,
        shared,
        seat,
        seen: &mut seen,
    };
    turn(alloc, &mut caller, gate)
}

/// Takes a Job and hands it in, or finds that no more is to be built.
pub fn turn<C: Caller, G: Gate>(alloc: Global, caller: &mut C, gate: &G) -> Option<WorkTurn>
    ensures { MatchOption result (C.rests caller.old caller.new) (λ turn. TakesTurn C.steps caller.old turn caller.new) }
{
    match caller.take() {
        None => None,
        Some(Ok(job)) => Some(hand_in(alloc, caller, gate, InHand::new(job))),
        Some(Err(_)) => Some(WorkTurn::Lacking),
    }
}

/// Builds a Job with no lock held, and delivers it. For want of memory the Job is given back.
fn hand_in<C: Caller, G: Gate>(alloc: Global, caller: &mut C, gate: &G, hand: InHand) -> WorkTurn
    requires { C.brings caller.old hand.job }
    ensures { HandsIn C.steps caller.old hand.job result caller.new }
{
    gate.taken(hand.ticket());
    match hand.build(alloc) {
        Ok(built) => {
            gate.built(hand.ticket());
            deliver(caller, hand, built)
        }
        Err(_) => {
            hand.give_back(caller);
            WorkTurn::Lacking
        }
    }
}

/// Delivers what was built for a Job. A Job that the book doesn't take is given back.
fn deliver<C: Caller>(caller: &mut C, hand: InHand, built: Built) -> WorkTurn
    requires brings { C.brings caller.old hand.job }
    requires built { IsBuiltOf hand.job built }
    ensures { HandsIn C.steps caller.old hand.job result caller.new }
{
    match hand.deliver(caller, built) {
        Ok(()) => WorkTurn::HandedIn,
        Err(back) => {
            back.give_back(caller);
            WorkTurn::Lacking
        }
    }
}
