//! A hall, for who keeps the outcomes of its jobs elsewhere: then none is put into it, and none is collected.

ghost use Rattle.std.specs.Prelude.{◌≡◌, true};
ghost use Rattle.machine_model.specs.HallState.{has_key, without};
ghost use Rattle.hall_core.specs.Meant.{ServedHall};
ghost use Rattle.hall_core.specs.Asked.{StepGives, StepCan};

use crate::operation::{HallOp, HallReply};
use call_rules::Key;

/// What is asked of a hall whose jobs' outcomes are kept elsewhere. A hall may be sent to other threads, which its steps ask
/// nothing of.
pub trait HallSteps {
    // the hall
    ghost seen: { Self → ServedHall };

    /// One step of it.
    fn step_op(&mut self, op: HallOp) -> HallReply
        requires { StepCan (seen self.old) op }
        ensures { StepGives (seen self.old) op result (seen self.new) };

    /// Lets a key go that is taken, with no outcome of it.
    fn free(&mut self, key: Key)
        requires { has_key key (seen self.old).taken ≡ true }
        ensures { seen self.new ≡ record (seen self.old) { taken = without key (seen self.old).taken } };

    /// Whether it takes no more jobs.
    fn is_closed(&self) -> bool
        ensures { result ≡ (seen self.now).closed };
}
