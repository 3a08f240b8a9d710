//! Laws of the machine, each the contract of a function that does nothing.

ghost use Rattle.std.specs.Prelude.{ℕ, ◌^◌, ◌<◌, List, ◌++◌};
ghost use Rattle.conn_state.specs.Phase.{ConnView, fresh_conn, bytes_held};
ghost use Rattle.conn_state.specs.Run.{ConnCall, CallsLead, CallLeads, taken, given, took};
ghost use Rattle.conn_state.specs.Split.{Splits, StaysWithin};

/// After any calls with one largest size, the bytes taken split into the payloads handed out, the payload that is whole
/// and not handed out where there is one, and the bytes held of the size or the frame under way.
pub fn every_run_splits()
    ensures { (max : ℕ) (events : List ConnCall) (view : ConnView) → max < 2 ^ 31 → CallsLead max fresh_conn events view →
        Splits max (taken events) (given events) view }
{}

/// After any calls with one largest size, a piece that is taken never goes past the size or the frame under way.
pub fn every_piece_stays_within()
    ensures { (max : ℕ) (events : List ConnCall) (old new : ConnView) (bytes : List ℕ) → max < 2 ^ 31 →
        CallsLead max fresh_conn events old → CallLeads max old (took bytes) new →
        StaysWithin max old.frames (bytes_held old.phase ++ bytes) new.frames new.phase }
{}
