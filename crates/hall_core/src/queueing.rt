//! The steps of a hall that its services have no part in. None takes memory. Each is a part of its caller, so that no reply is stored to be read again.

ghost use Rattle.std.specs.Prelude.{◌≡◌, ◌<◌, true};
ghost use Rattle.call_rules.specs.Handling.{handler_rules};
ghost use Rattle.machine_model.specs.HallState.{has_key};
ghost use Rattle.machine_model.specs.HallRule as rule;
ghost use Rattle.machine_model.specs.OwnCalls.{most_connections};
ghost use Rattle.machine_model.specs.SeenHall.{SeenGives};
ghost use Rattle.hall_core.specs.Queues.{keys_held};
ghost use Rattle.hall_core.specs.Meant.{ServedHall, with_queue};
ghost use Rattle.hall_core.specs.Asked.{answer_of};

use crate::job::Job;
use crate::operation::HallReply;
use crate::queue::Queue;
use call_rules::Key;
use streams::{Bytes, Settled};

/// Submits a job.
#[inline(always)]
pub(crate) fn submit(queue: &mut Queue, closed: bool, key: Key, payload: Bytes) -> HallReply
    requires { keys_held queue.old < most_connections }
    ensures { (hall : ServedHall) → hall.closed ≡ closed → SeenGives handler_rules (with_queue hall queue.old) (rule.submit key payload) (answer_of result) (with_queue hall queue.new) }
{
    if closed {
        return HallReply::Closed;
    }
    queue.submit(key, payload);
    HallReply::Done
}

/// Takes the oldest job.
#[inline(always)]
pub(crate) fn take(queue: &mut Queue, closed: bool) -> HallReply
    ensures { (hall : ServedHall) → hall.closed ≡ closed → SeenGives handler_rules (with_queue hall queue.old) rule.take_job (answer_of result) (with_queue hall queue.new) }
{
    if let Some(Job { key, payload }) = queue.take() {
        return HallReply::Job(key, payload);
    }
    if closed {
        return HallReply::Closed;
    }
    HallReply::Empty
}

/// Puts the outcome of a job.
#[inline(always)]
pub(crate) fn put(queue: &mut Queue, key: Key, settled: Settled) -> HallReply
    requires { has_key key queue.old.taken ≡ true }
    ensures { (hall : ServedHall) → SeenGives handler_rules (with_queue hall queue.old) (rule.put key settled) (answer_of result) (with_queue hall queue.new) }
{
    queue.put(key, settled);
    HallReply::Done
}

/// Collects the oldest outcome.
#[inline(always)]
pub(crate) fn collect(queue: &mut Queue, closed: bool) -> HallReply
    ensures { (hall : ServedHall) → hall.closed ≡ closed → SeenGives handler_rules (with_queue hall queue.old) rule.collect (answer_of result) (with_queue hall queue.new) }
{
    if let Some((key, settled)) = queue.collect() {
        return HallReply::Settled(key, settled);
    }
    if closed {
        return HallReply::Closed;
    }
    HallReply::Empty
}
