//! Laws of connections in a table, each the contract of a function that does nothing.

ghost use Rattle.std.specs.Prelude.{◌≡◌, ℕ, ◌<◌, ◌≤◌, List, None, IsSome, length};
ghost use Rattle.conn_state.specs.Phase.{ConnView, wanted, IsReading};
ghost use Rattle.conn_state.specs.Run.{EachIsByte};
ghost use Rattle.conn_state.specs.Step.{after_took};
ghost use Rattle.conn_table.specs.declared.places.Slot.{Slot};
ghost use Rattle.conn_table.specs.Slots.{slot_in, HaveRisingNumbers};
ghost use Rattle.conn_table.specs.Table.{TableView, slot_of, with_state};
ghost use Rattle.machine_model.specs.Loop.{LoopConn};
ghost use Rattle.machine_model.specs.AtFronts.{summed};
ghost use Rattle.conn_refinement.specs.Phases.{IsOpenTied};
ghost use Rattle.conn_refinement.specs.Tables.{IsSameBut};
ghost use Rattle.conn_refinement.specs.Progress.{MakesPhase};
ghost use Rattle.conn_refinement.specs.Weights.{weight_of, table_weight};
ghost use Rattle.machine_model.specs.OwnCalls.{longest_payload};

/// As much as is asked for makes the same progress of a connection's state and of the machine's connection.
pub fn reads_make_the_same()
    ensures { (max : ℕ) (view : ConnView) (conn : LoopConn) (bytes : List ℕ) → max ≤ longest_payload → IsReading view.phase → IsOpenTied max view conn →
        length bytes ≤ wanted view.phase → EachIsByte bytes → MakesPhase max conn bytes view.phase (after_took max view bytes).frames (after_took max view bytes).phase }
{}

/// What a table keeps under rising numbers adds up to the numbers of its connections; and a state that is put leaves the other connections.
pub fn a_table_adds_up()
    ensures sum { (weight : Slot → ℕ) (slots : List Slot) (each : ℕ → ℕ) (count : ℕ) → HaveRisingNumbers slots → ((c : ℕ) → count ≤ c → slot_in c slots ≡ None) →
        ((c : ℕ) → c < count → each c ≡ weight_of weight (slot_in c slots)) → summed each count ≡ table_weight weight slots }
    ensures put { (c : ℕ) (state : ConnView) (old new : TableView) → IsSome (slot_in c old.slots) → new ≡ record old { slots = with_state c state old.slots } →
        ((slot_of c new.slots).conn ≡ state) × IsSameBut c old new }
{}
