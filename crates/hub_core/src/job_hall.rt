//! The hub as its loops and workers ask it.

ghost use Rattle.std.specs.Prelude.{◌≡◌, ◌/◌};
ghost use Rattle.hub_model.specs.HubMay.{share};

use crate::hub::Hub;
use crate::operation::HubOp;
use call_rules::{Call, Handler, Journal, Key};
use hall_core::HallReply;
use job_halls::{
    AppliedCall, JobHall, Side, TakenJob, TakenOutcome, drop_reply, taken_by, took_job, tried_by,
};
use limits::MOST_CONNECTIONS;
use streams::{Bytes, Settled};

/// The number that a connection has on its own links. Where there are no loops there is no such connection.
#[inline(always)]
fn number_in_loop(c: u32, loops: u32) -> u32
    ensures { result ≡ c / loops }
{
    if loops == 0 {
        return 0;
    }
    c / loops
}

/// How many keys each of so many loops may have.
#[inline(always)]
fn share_among(loops: u32) -> usize
    ensures { result ≡ share loops }
{
    if loops == 0 {
        return 0;
    }
    MOST_CONNECTIONS / loops as usize
}

impl<H: Handler, J: Journal> JobHall for Hub<H, J> {
    ghost use Rattle.std.specs.Prelude.{refl};
    ghost use Rattle.hub_core.specs.declared.operation.HubOp.TheVariants as ops;
    ghost use Rattle.job_halls.specs.HallLoop.{took_reply};
    ghost use Rattle.job_halls.specs.HallWork.{taken_reply, tried_reply};
    ghost use Rattle.hub_core.specs.HubCalls.{IsNewlyOpen};
    ghost use Rattle.hub_core.specs.HubLoop.{IsOpenedHubAt, share_of, loop_asks, FitsLoop, NamesKey, hub_submit, hub_come, may_submit_hub, may_collect_hub, its_own_hub, submits_at_hub, collects_at_hub, closes_at_hub};
    ghost use Rattle.hub_core.specs.HubWork.{hub_asked_in, hub_slots, may_take_hub, may_close_hub, takes_hub, applies_hub, still_hub, puts_hub, stops_hub};

    ghost opened = { IsNewlyOpen };

    ghost opened_for = { IsOpenedHubAt };

    ghost slots = { hub_slots };

    ghost share = { share_of };

    ghost asks = { loop_asks };

    ghost fits = { FitsLoop };

    ghost worker_asks = { hub_asked_in };

    ghost names = { NamesKey };

    ghost the_submit = { hub_submit };

    ghost the_collect = { λ side. ops.CollectFor side.number };

    ghost the_take = { ops.Take };

    ghost the_apply = { λ key call. ops.Apply key call };

    ghost the_put = { λ key settled. ops.Put key settled };

    ghost the_close = { ops.Close };

    ghost took_so = { took_reply };

    ghost come_of = { hub_come };

    ghost taken_of = { taken_reply };

    ghost tried_of = { tried_reply };

    #[inline(always)]
    fn most_keys(side: Side) -> usize {
        share_among(side.loops)
    }

    #[inline(always)]
    fn submit_op(side: Side, key: Key, payload: Bytes) -> HubOp {
        let whole = Key {
            c: key.c * side.loops + side.number,
            i: key.i,
        };
        HubOp::SubmitFrom(side.number, whole, payload)
    }

    #[inline(always)]
    fn collect_op(side: Side) -> HubOp {
        HubOp::CollectFor(side.number)
    }

    #[inline(always)]
    fn take_op() -> HubOp {
        HubOp::Take
    }

    #[inline(always)]
    fn apply_op(key: Key, call: Call) -> HubOp {
        HubOp::Apply(key, call)
    }

    #[inline(always)]
    fn put_op(key: Key, settled: Settled) -> HubOp {
        HubOp::Put(key, settled)
    }

    #[inline(always)]
    fn close_op() -> HubOp {
        HubOp::Close
    }

    #[inline(always)]
    fn took(reply: HallReply) -> bool {
        took_job(reply)
    }

    #[inline(always)]
    fn collected(side: Side, reply: HallReply) -> TakenOutcome {
        match reply {
            HallReply::Settled(key, settled) => {
                let own = Key {
                    c: number_in_loop(key.c, side.loops),
                    i: key.i,
                };
                TakenOutcome::Outcome(own, settled)
            }
            HallReply::Closed => TakenOutcome::Closed,
            other => {
                drop_reply(other);
                TakenOutcome::Empty
            }
        }
    }

    #[inline(always)]
    fn taken(reply: HallReply) -> TakenJob {
        taken_by(reply)
    }

    #[inline(always)]
    fn tried(reply: HallReply) -> AppliedCall {
        tried_by(reply)
    }

    #[inline(always)]
    fn let_go(reply: HallReply) {
        drop_reply(reply)
    }

    ghost opens = { λ side first opened. opened.hub };

    ghost may_submit = { may_submit_hub };

    ghost may_collect = { may_collect_hub };

    ghost may_take = { may_take_hub };

    ghost may_close = { may_close_hub };

    ghost submits = { λ side booth old new key payload found opened is fits m. submits_at_hub side booth old new opened is key payload found fits m };

    ghost collects = { λ side booth old new found opened is fits m. collects_at_hub side booth old new opened is found fits m };

    ghost closes = { λ side booth old new found opened is fits m. closes_at_hub side booth old new opened is found fits m };

    ghost loop_begins = { λ side. (refl, record { submits = tt; asks = tt }) };

    ghost its_own = { λ side booth old new op found opened is m. its_own_hub side booth old new op found opened is m };

    ghost worker_begins = { refl };

    ghost takes = { λ booth old new found opened m. takes_hub booth old new found opened m };

    ghost applies = { λ booth old new key call found m. applies_hub booth old new key call found m };

    ghost still_held = { λ booth old new key call found held settled m may. still_hub booth old new key call found held settled m may };

    ghost puts = { λ booth old new key settled found m. puts_hub booth old new key settled found m };

    ghost stops = { λ booth old new found m. stops_hub booth old new found m };
}
