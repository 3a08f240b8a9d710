//! The steps of a hub, over a hall whose own outcomes are always none.

ghost use Rattle.std.specs.Prelude.{◌≡◌, ◌%◌, ◌≤◌, ◌<◌, [], length};
ghost use Rattle.hall_core.specs.Meant.{ServedHall};
ghost use Rattle.hall_core.specs.Asked.{answer_of};
ghost use Rattle.hub_core.specs.Hub.{served_hub, HubStepGives, HubStepCan, HubCollects};

use crate::operation::HubOp;
use crate::outcome_lists::{OutcomeList, put_at, take_at};
use hall_core::{HallOp, HallReply, HallSteps};

/// The place of a connection's loop.
fn place_of(c: u32, loops: usize) -> usize
    requires { 1 ≤ loops }
    ensures within { result < loops }
    ensures place { result ≡ c % loops }
{
    c as usize % loops
}

/// The oldest outcome of a loop, or what there is in its place.
fn collect_for(lists: &mut [OutcomeList], closed: bool, place: usize) -> HallReply
    requires within { place < length lists.old }
    ensures { (hall : ServedHall) → hall.closed ≡ closed → HubCollects lists.old lists.new place hall (answer_of result) }
{
    if let Some((key, settled)) = take_at(lists, place) {
        return HallReply::Settled(key, settled);
    }
    if closed {
        return HallReply::Closed;
    }
    HallReply::Empty
}

/// One step of a hub over this hall and these lists. Put lets the key go, and adds the outcome to its loop's list: so the hall has
/// no outcomes.
#[inline(always)]
pub(crate) fn step_with<I: HallSteps>(
    hall: &mut I,
    lists: &mut [OutcomeList],
    op: HubOp,
) -> HallReply
    requires some { 1 ≤ length lists.old }
    requires empty { (I.seen hall.old).outcomes ≡ [] }
    requires can { HubStepCan (length lists.old) (served_hub (I.seen hall.old) lists.old) op }
    ensures empty { (I.seen hall.new).outcomes ≡ [] }
    ensures count { length lists.new ≡ length lists.old }
    ensures gives { HubStepGives (length lists.old) (served_hub (I.seen hall.old) lists.old) op result (served_hub (I.seen hall.new) lists.new) }
{
    match op {
        HubOp::SubmitFrom(_, key, payload) => hall.step_op(HallOp::Submit(key, payload)),
        HubOp::Take => hall.step_op(HallOp::Take),
        HubOp::Apply(key, call) => hall.step_op(HallOp::Apply(key, call)),
        HubOp::Put(key, settled) => {
            hall.free(key);
            let place = place_of(key.c, lists.len());
            put_at(lists, place, key, settled);
            HallReply::Done
        }
        HubOp::CollectFor(l) => {
            let closed = hall.is_closed();
            collect_for(lists, closed, l as usize)
        }
        HubOp::Close => hall.step_op(HallOp::Close),
    }
}
