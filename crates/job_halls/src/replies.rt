//! What a hall's replies mean, for each object that replies so.

ghost use Rattle.std.specs.Prelude.{◌≡◌};
ghost use Rattle.job_halls.specs.HallLoop.{took_reply};
ghost use Rattle.job_halls.specs.HallWork.{taken_reply, tried_reply};

use crate::job_hall::{AppliedCall, TakenJob};
use hall_core::{HallReply, Job};

/// Lets a reply go, of whichever kind it is.
pub fn drop_reply(_reply: HallReply) {}

/// Whether a reply says that a job was taken in.
#[inline(always)]
pub fn took_job(reply: HallReply) -> bool
    ensures { result ≡ took_reply reply }
{
    let is_done = matches!(&reply, HallReply::Done);
    drop_reply(reply);
    is_done
}

/// What a reply to Take means.
#[inline(always)]
pub fn taken_by(reply: HallReply) -> TakenJob
    ensures { result ≡ taken_reply reply }
{
    match reply {
        HallReply::Job(key, payload) => TakenJob::Found(Job { key, payload }),
        HallReply::Closed => TakenJob::Closed,
        other => {
            drop_reply(other);
            TakenJob::Empty
        }
    }
}

/// What a reply to Apply means.
#[inline(always)]
pub fn tried_by(reply: HallReply) -> AppliedCall
    ensures { result ≡ tried_reply reply }
{
    match reply {
        HallReply::Applied(answer) => AppliedCall::Answered(answer),
        HallReply::NoMemory => AppliedCall::Unanswered,
        other => {
            drop_reply(other);
            AppliedCall::Failed
        }
    }
}
