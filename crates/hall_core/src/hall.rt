//! The hall.

ghost use Rattle.std.specs.Prelude.{◌≡◌, ◌<◌, ◌^◌, [], length, map, false, IfOk, IfErr};
ghost use Rattle.machine_model.specs.SeenHall.{MayHave};
ghost use Rattle.hall_core.specs.Meant.{opened_hall};

use crate::answering::apply_with;
use crate::hall_steps::HallSteps;
use crate::operation::{HallOp, HallReply};
use crate::queue::Queue;
use crate::queueing::{collect, put, submit, take};
use call_rules::{Handler, Journal, Key};
use seat_booth::Object;
use std::alloc::Global;
use std::marker::Model;
use streams::{Bytes, Settled};

/// A queue of jobs with the services that answer their calls, and the journal of these calls.
#[derive(Drop)]
pub struct Hall<H: Handler, J: Journal> {
    alloc: Global,
    queue: Queue,
    /// The handlers, one a slot.
    handlers: Vec<H>,
    journal: J,
    closed: bool,
    /// Whether the journal has failed, so that a handler is a call ahead of it.
    broken: bool,
}

impl<H: Handler, J: Journal> Model for Hall<H, J> {
    ghost use Rattle.std.specs.Prelude.{◌≡◌, map};
    ghost use Rattle.std.specs.Coded.{codes};
    ghost use Rattle.thrift_value.specs.Codes.{tree_code};
    ghost use Rattle.call_rules.specs.PlainCalls.{plain_call_code, plain_answer_code};
    ghost use Rattle.hall_core.specs.Meant.{ServedHall};

    ghost Value = { ServedHall };

    ghost coded = { Prim.hlevel (codes, tree_code, plain_call_code, plain_answer_code) };

    ghost view = { λ h. record { jobs = h.queue.jobs; taken = h.queue.taken; outcomes = h.queue.outcomes; memories = map H.service h.handlers.items; told = J.told h.journal; faults = J.faults h.journal; closed = h.closed; broken = h.broken } };

    ghost invariant = { λ h. h.broken ≡ J.torn h.journal };
}

/// What contracts see of a hall: no value of it is made.
pub struct HallMeaning {}

impl Model for HallMeaning {
    ghost use Rattle.std.specs.Prelude.{[], None};
    ghost use Rattle.std.specs.Coded.{codes};
    ghost use Rattle.thrift_value.specs.Codes.{tree_code};
    ghost use Rattle.call_rules.specs.PlainCalls.{plain_call_code, plain_answer_code};
    ghost use Rattle.hall_core.specs.Meant.{ServedHall, opened_hall};

    ghost Value = { ServedHall };

    ghost coded = { Prim.hlevel (codes, tree_code, plain_call_code, plain_answer_code) };

    ghost view = { λ _. opened_hall [] None 0 };
}

/// There was no memory for a hall. What it was to be made of comes back.
#[derive(Drop)]
pub struct NoHall<H, J> {
    pub handlers: Vec<H>,
    pub journal: J,
}

impl<H: Handler, J: Journal> Hall<H, J> {
    /// A newly opened hall, with a slot a handler and room for 1,024 jobs, taken keys and outcomes.
    pub fn new(alloc: Global, handlers: Vec<H>, journal: J) -> Result<Hall<H, J>, NoHall<H, J>>
        requires few { length handlers.items < 2 ^ 32 }
        requires whole { J.torn journal ≡ false }
        requires empty { MayHave (J.told journal) [] }
        ensures hall { IfOk result (λ hall. hall ≡ opened_hall (map H.service handlers.items) (J.told journal) (J.faults journal)) }
        ensures empty { IfOk result (λ hall. MayHave hall.told []) }
        ensures err { IfErr result (λ no. (no.handlers ≡ handlers) × (no.journal ≡ journal)) }
    {
        let Ok(queue) = Queue::new(alloc) else {
            return Err(NoHall { handlers, journal });
        };
        Ok(Hall {
            alloc,
            queue,
            handlers,
            journal,
            closed: false,
            broken: false,
        })
    }

    /// Gives the handlers, which are the hall's services, and its journal; takes no memory.
    pub fn into_parts(self) -> (Vec<H>, J)
        ensures services { map H.service result.0.items ≡ self.memories }
        ensures told { J.told result.1 ≡ self.told }
        ensures faults { J.faults result.1 ≡ self.faults }
        ensures torn { J.torn result.1 ≡ self.broken }
    {
        let Hall {
            alloc: _,
            queue: _,
            handlers,
            journal,
            closed: _,
            broken: _,
        } = self;
        (handlers, journal)
    }
}

/// Operations that take no memory, each as its `step` is. Who knows which one it asks for stores neither the operation nor the reply.
impl<H: Handler, J: Journal> Hall<H, J> {
    ghost use Rattle.hall_core.specs.declared.operation.HallOp.TheVariants as op;
    ghost use Rattle.hall_core.specs.Asked.{StepGives, StepCan};

    /// Adds the job of this payload, as the newest.
    pub fn submit(&mut self, key: Key, payload: Bytes) -> HallReply
        requires { StepCan self.old (op.Submit key payload) }
        ensures { StepGives self.old (op.Submit key payload) result self.new }
    {
        submit(&mut self.queue, self.closed, key, payload)
    }

    /// Takes the oldest job.
    pub fn take(&mut self) -> HallReply
        ensures { StepGives self.old op.Take result self.new }
    {
        take(&mut self.queue, self.closed)
    }

    /// Adds what a job came to, as the newest outcome.
    pub fn put(&mut self, key: Key, settled: Settled) -> HallReply
        requires { StepCan self.old (op.Put key settled) }
        ensures { StepGives self.old (op.Put key settled) result self.new }
    {
        put(&mut self.queue, key, settled)
    }

    /// Collects the oldest outcome.
    pub fn collect(&mut self) -> HallReply
        ensures { StepGives self.old op.Collect result self.new }
    {
        collect(&mut self.queue, self.closed)
    }
}

impl<H: Handler, J: Journal> Object for Hall<H, J> {
    ghost use Rattle.hall_core.specs.Asked.{StepGives, StepCan, StepMay};
    ghost use Rattle.hall_core.specs.Following.{steps_follow};

    type Op = HallOp;

    type Reply = HallReply;

    type Meaning = HallMeaning;

    ghost meaning = { λ hall. hall };

    ghost gives = { StepGives };

    ghost can = { StepCan };

    ghost may = { StepMay };

    /// Makes one step. Only what is applied may take memory: the handler's answer, a copy of it, and the journal's entry.
    #[inline(always)]
    fn step(&mut self, op: HallOp) -> HallReply {
        match op {
            HallOp::Submit(key, payload) => submit(&mut self.queue, self.closed, key, payload),
            HallOp::Take => take(&mut self.queue, self.closed),
            HallOp::Apply(key, call) => apply_with(
                self.alloc,
                &mut self.handlers,
                &mut self.journal,
                &mut self.broken,
                key,
                call,
            ),
            HallOp::Put(key, settled) => put(&mut self.queue, key, settled),
            HallOp::Collect => collect(&mut self.queue, self.closed),
            HallOp::Close => {
                self.closed = true;
                HallReply::Done
            }
        }
    }

    ghost follows = { steps_follow };
}

impl<H: Handler, J: Journal> HallSteps for Hall<H, J> {
    ghost seen = { λ hall. hall };

    #[inline(always)]
    fn step_op(&mut self, op: HallOp) -> HallReply {
        self.step(op)
    }

    #[inline(always)]
    fn free(&mut self, key: Key) {
        self.queue.free(key)
    }

    #[inline(always)]
    fn is_closed(&self) -> bool {
        self.closed
    }
}
