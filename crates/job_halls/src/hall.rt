//! A hall as such an object: of one loop, which has number 0.

use crate::job_hall::{AppliedCall, JobHall, Side, TakenJob, TakenOutcome};
use crate::replies::{drop_reply, taken_by, took_job, tried_by};
use call_rules::{Call, Handler, Journal, Key};
use hall_core::{Hall, HallOp, HallReply};
use limits::MOST_CONNECTIONS;
use streams::{Bytes, Settled};

impl<H: Handler, J: Journal> JobHall for Hall<H, J> {
    ghost use Rattle.std.specs.Prelude.{refl};
    ghost use Rattle.hall_core.specs.declared.operation.HallOp.TheVariants as ops;
    ghost use Rattle.job_halls.specs.HallCalls.{asks_at_hall, IsOpenedHall};
    ghost use Rattle.job_halls.specs.HallLoop.{IsOpenedAt, most_keys, took_reply, outcome_reply, may_submit_there, may_collect_there, its_own_there, submits_there, collects_there, closes_there};
    ghost use Rattle.job_halls.specs.HallWork.{worker_asks_at_hall, slots_of, taken_reply, tried_reply, may_take_there, may_close_there, takes_there, applies_there, still_there, puts_there, stops_there};

    ghost opened = { IsOpenedHall };

    ghost opened_for = { IsOpenedAt };

    ghost slots = { slots_of };

    ghost share = { λ side. most_keys };

    ghost asks = { λ side own. asks_at_hall own };

    ghost fits = { λ side own. Unit {0} };

    ghost worker_asks = { worker_asks_at_hall };

    ghost names = { λ side key. Unit {0} };

    ghost the_submit = { λ side key payload. ops.Submit key payload };

    ghost the_collect = { λ side. ops.Collect };

    ghost the_take = { ops.Take };

    ghost the_apply = { λ key call. ops.Apply key call };

    ghost the_put = { λ key settled. ops.Put key settled };

    ghost the_close = { ops.Close };

    ghost took_so = { took_reply };

    ghost come_of = { λ side reply. outcome_reply reply };

    ghost taken_of = { taken_reply };

    ghost tried_of = { tried_reply };

    #[inline(always)]
    fn most_keys(_side: Side) -> usize {
        MOST_CONNECTIONS
    }

    #[inline(always)]
    fn submit_op(_side: Side, key: Key, payload: Bytes) -> HallOp {
        HallOp::Submit(key, payload)
    }

    #[inline(always)]
    fn collect_op(_side: Side) -> HallOp {
        HallOp::Collect
    }

    #[inline(always)]
    fn take_op() -> HallOp {
        HallOp::Take
    }

    #[inline(always)]
    fn apply_op(key: Key, call: Call) -> HallOp {
        HallOp::Apply(key, call)
    }

    #[inline(always)]
    fn put_op(key: Key, settled: Settled) -> HallOp {
        HallOp::Put(key, settled)
    }

    #[inline(always)]
    fn close_op() -> HallOp {
        HallOp::Close
    }

    #[inline(always)]
    fn took(reply: HallReply) -> bool {
        took_job(reply)
    }

    #[inline(always)]
    fn collected(_side: Side, reply: HallReply) -> TakenOutcome {
        match reply {
            HallReply::Settled(key, settled) => TakenOutcome::Outcome(key, settled),
            HallReply::Closed => TakenOutcome::Closed,
            other => {
                drop_reply(other);
                TakenOutcome::Empty
            }
        }
    }

    #[inline(always)]
    fn taken(reply: HallReply) -> TakenJob {
        taken_by(reply)
    }

    #[inline(always)]
    fn tried(reply: HallReply) -> AppliedCall {
        tried_by(reply)
    }

    #[inline(always)]
    fn let_go(reply: HallReply) {
        drop_reply(reply)
    }

    ghost opens = { λ side first opened. opened.hall };

    ghost may_submit = { λ side first own key payload opened fits may. may_submit_there side first own key payload opened may };

    ghost may_collect = { may_collect_there };

    ghost may_take = { may_take_there };

    ghost may_close = { may_close_there };

    ghost submits = { λ side booth old new key payload found opened is fits m. (submits_there side booth old new opened is key payload found m, tt) };

    ghost collects = { λ side booth old new found opened is fits m. (collects_there side booth old new opened is found m, tt) };

    ghost closes = { λ side booth old new found opened is fits m. (closes_there side booth old new opened is found m, tt) };

    ghost loop_begins = { λ side. (refl, tt) };

    ghost its_own = { λ side booth old new op found opened is m. its_own_there side booth old new opened is op found m };

    ghost worker_begins = { refl };

    ghost takes = { λ booth old new found opened m. takes_there booth old new found opened m };

    ghost applies = { λ booth old new key call found m. applies_there booth old new key call found m };

    ghost still_held = { λ booth old new key call found held settled m may. still_there booth old new key call found held settled m may };

    ghost puts = { λ booth old new key settled found m. puts_there booth old new key settled found m };

    ghost stops = { λ booth old new found m. stops_there booth old new found m };
}
