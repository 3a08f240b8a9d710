//! What the end of a booth tells, the contract of a function that does nothing.

ghost use Rattle.std.specs.Prelude.{◌≡◌, ◌∷◌, List, All};
ghost use Rattle.call_rules.specs.PlainCalls.{PlainCall, PlainAnswer};
ghost use Rattle.call_rules.specs.Desks.{DeskMeaning};
ghost use Rattle.machine_model.specs.Loop.{Loop};
ghost use Rattle.machine_model.specs.Merge.{LoopItem, calls_in, no_loop, Weaves};
ghost use Rattle.seat_booth.specs.Seats.{BoothView, EndsBooth};
ghost use Rattle.hall_core.specs.Asked.{StepGives, StepMay};
ghost use Rattle.hall_core.specs.Meant.{ServedHall};
ghost use Rattle.hall_pool.specs.Turns.{asks_made};
ghost use Rattle.hall_pool.specs.Jobs.{HallSeat, IsOpenedNew};
ghost use Rattle.hall_pool.specs.Crew.{HasServed};
ghost use Rattle.hall_pool.specs.Ends.{TellsOneHistory};

/// A booth that ends with seat 0, whose calls are those of a weave of the loop, and with seats that have served, has one history
/// of the hall that the machine's laws speak of.
pub fn ends_tell_one_history()
    ensures { (desk : DeskMeaning) (booth : BoothView ServedHall) (first : HallSeat) (others : List HallSeat) (last : ServedHall) (weave : List (LoopItem PlainCall PlainAnswer)) (loop : Loop) →
        IsOpenedNew booth → EndsBooth StepGives StepMay booth (first ∷ others) last → first.number ≡ 0 → asks_made first.mine ≡ calls_in weave → All (HasServed desk booth) others →
        Weaves desk.max_frame no_loop weave loop → TellsOneHistory desk booth last weave loop }
{}
