//! The hub.

ghost use Rattle.std.specs.Prelude.{◌≡◌, ◌≤◌, ◌<◌, ◌^◌, [], length, map, false, IfOk, IfErr};
ghost use Rattle.machine_model.specs.SeenHall.{MayHave};
ghost use Rattle.hub_core.specs.Hub.{opened_hub};

use crate::operation::HubOp;
use crate::outcome_lists::{OutcomeList, empty_lists};
use crate::stepping::step_with;
use call_rules::{Handler, Journal};
use hall_core::{Hall, HallReply, NoHall};
use seat_booth::Object;
use std::alloc::Global;
use std::marker::Model;

/// A hall, into which no outcome is put, and the outcomes of each loop.
#[derive(Drop)]
pub struct Hub<H: Handler, J: Journal> {
    hall: Hall<H, J>,
    /// One a loop.
    lists: Vec<OutcomeList>,
}

impl<H: Handler, J: Journal> Model for Hub<H, J> {
    ghost use Rattle.std.specs.Prelude.{◌≡◌, ◌≤◌, [], length};
    ghost use Rattle.std.specs.Coded.{codes};
    ghost use Rattle.thrift_value.specs.Codes.{tree_code};
    ghost use Rattle.call_rules.specs.PlainCalls.{plain_call_code, plain_answer_code};
    ghost use Rattle.hub_core.specs.Hub.{ServedHub, served_hub};

    ghost Value = { ServedHub };

    ghost coded = { Prim.hlevel (codes, tree_code, plain_call_code, plain_answer_code) };

    ghost view = { λ h. served_hub h.hall h.lists.items };

    ghost invariant = { λ h. (h.hall.outcomes ≡ []) × (1 ≤ length h.lists.items) };
}

/// What contracts see of a hub: no value of it is made.
pub struct HubMeaning {}

impl Model for HubMeaning {
    ghost use Rattle.std.specs.Prelude.{[], None};
    ghost use Rattle.std.specs.Coded.{codes};
    ghost use Rattle.thrift_value.specs.Codes.{tree_code};
    ghost use Rattle.call_rules.specs.PlainCalls.{plain_call_code, plain_answer_code};
    ghost use Rattle.hub_core.specs.Hub.{ServedHub, opened_hub};

    ghost Value = { ServedHub };

    ghost coded = { Prim.hlevel (codes, tree_code, plain_call_code, plain_answer_code) };

    ghost view = { λ _. opened_hub [] None 0 0 };
}

impl<H: Handler, J: Journal> Hub<H, J> {
    /// A newly opened hub of 1 to 8 loops, with a slot a handler, room for 1,024 jobs and taken keys, and room for 1,024 outcomes
    /// of each loop.
    pub fn new(
        alloc: Global,
        handlers: Vec<H>,
        journal: J,
        loops: u32,
    ) -> Result<Hub<H, J>, NoHall<H, J>>
        requires some { 1 ≤ loops }
        requires most { loops ≤ 8 }
        requires few { length handlers.items < 2 ^ 32 }
        requires whole { J.torn journal ≡ false }
        requires empty { MayHave (J.told journal) [] }
        ensures hub { IfOk result (λ hub. hub ≡ opened_hub (map H.service handlers.items) (J.told journal) (J.faults journal) loops) }
        ensures empty { IfOk result (λ hub. MayHave hub.hall.told []) }
        ensures err { IfErr result (λ no. (no.handlers ≡ handlers) × (no.journal ≡ journal)) }
    {
        let Ok(lists) = empty_lists(alloc, loops) else {
            return Err(NoHall { handlers, journal });
        };
        match Hall::new(alloc, handlers, journal) {
            Ok(hall) => Ok(Hub { hall, lists }),
            Err(no) => Err(no),
        }
    }

    /// Gives the handlers, which are the hub's services, and its journal; takes no memory.
    pub fn into_parts(self) -> (Vec<H>, J)
        ensures services { map H.service result.0.items ≡ self.hall.memories }
        ensures told { J.told result.1 ≡ self.hall.told }
        ensures faults { J.faults result.1 ≡ self.hall.faults }
        ensures torn { J.torn result.1 ≡ self.hall.broken }
    {
        let Hub { hall, lists: _ } = self;
        hall.into_parts()
    }
}

impl<H: Handler, J: Journal> Object for Hub<H, J> {
    ghost use Rattle.hub_core.specs.Following.{ObjectGives, ObjectCan, ObjectMay, hub_follows};

    type Op = HubOp;

    type Reply = HallReply;

    type Meaning = HubMeaning;

    ghost meaning = { λ hub. hub };

    ghost gives = { ObjectGives };

    ghost can = { ObjectCan };

    ghost may = { ObjectMay };

    /// Makes one step. Only what is applied may take memory, as at a hall.
    #[inline(always)]
    fn step(&mut self, op: HubOp) -> HallReply {
        step_with(&mut self.hall, self.lists.as_mut_slice(), op)
    }

    ghost follows = { hub_follows };
}
