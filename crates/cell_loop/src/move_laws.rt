//! Laws of what is done with plays, each the contract of a function that does nothing.

ghost use Rattle.std.specs.Prelude.{◌≡◌, ℕ, suc, ◌<◌, true, false};
ghost use Rattle.script_model.specs.ScriptLines.{count_up};
ghost use Rattle.script_model.specs.Rehearsing.{workers_among, is_idle};
ghost use Rattle.cell_loop.specs.Settings.{CellSetting, ServedPlay};
ghost use Rattle.cell_loop.specs.Reached.{IsReached, IsReachedFrom};
ghost use Rattle.cell_loop.specs.Moving.{Doing, ComesTo, HasNoMove, followed_by, one_opening, one_of_conn, one_of_worker, one_of_outcome};
ghost use Rattle.cell_loop.specs.Moving.{all_of_conn, all_of_conns, all_of_worker, all_of_workers, all_of_outcomes, one_pass, all_passes};

use host_model::laws::less_than_a_frame;

/// What one thing comes to, and then another, both come to, the one after the other.
pub fn doings_compose()
    ensures { (one other : Doing) (old mid new : ServedPlay) → ComesTo one old mid → ComesTo other mid new → ComesTo (followed_by one other) old new }
{}

/// Moves of one kind: one and then those that are left are all of them; and where there is none, all of them leave the play as it is. A worker that finds no
/// job, or has put its own, is done.
pub fn moves_repeat()
    ensures conn { (s : CellSetting) (c : ℕ) (old mid new : ServedPlay) →
        ComesTo (one_of_conn s c) old mid → ComesTo (all_of_conn s c) mid new → ComesTo (all_of_conn s c) old new }
    ensures conn_end { (s : CellSetting) (c : ℕ) (old : ServedPlay) → HasNoMove (one_of_conn s c) old → ComesTo (all_of_conn s c) old old }
    ensures outcome { (s : CellSetting) (old mid new : ServedPlay) →
        ComesTo (one_of_outcome s) old mid → ComesTo (all_of_outcomes s) mid new → ComesTo (all_of_outcomes s) old new }
    ensures outcome_end { (s : CellSetting) (old : ServedPlay) → HasNoMove (one_of_outcome s) old → ComesTo (all_of_outcomes s) old old }
    ensures worker { (s : CellSetting) (n w : ℕ) (old mid new : ServedPlay) → is_idle (mid.cell.workers w) ≡ false →
        ComesTo (one_of_worker s w) old mid → ComesTo (all_of_worker s n w) mid new → ComesTo (all_of_worker s (suc n) w) old new }
    ensures worker_put { (s : CellSetting) (n w : ℕ) (old new : ServedPlay) → is_idle (new.cell.workers w) ≡ true →
        ComesTo (one_of_worker s w) old new → ComesTo (all_of_worker s (suc n) w) old new }
    ensures worker_end { (s : CellSetting) (n w : ℕ) (old : ServedPlay) → HasNoMove (one_of_worker s w) old →
        ComesTo (all_of_worker s (suc n) w) old old }
{}

/// Connections, workers and then outcomes are a pass. A pass that moves something, and then those that are left, are all of them; and one that moves nothing
/// is the last.
pub fn passes_repeat()
    ensures pass { (s : CellSetting) (n m : ℕ) (old new : ServedPlay) → old.cell.loop.count ≡ n → workers_among s.workers ≡ m →
        ComesTo (followed_by (followed_by (all_of_conns s (count_up 0 n)) (all_of_workers s (count_up 0 m))) (all_of_outcomes s)) old new →
        ComesTo (one_pass s) old new }
    ensures more { (s : CellSetting) (old mid new : ServedPlay) → old.moves < mid.moves →
        ComesTo (one_pass s) old mid → ComesTo (all_passes s) mid new → ComesTo (all_passes s) old new }
    ensures last { (s : CellSetting) (old new : ServedPlay) → new.moves ≡ old.moves → ComesTo (one_pass s) old new → ComesTo (all_passes s) old new }
{}

/// In a hall that isn't closed each move counts one.
pub fn moves_count()
    ensures conn { (s : CellSetting) (c : ℕ) (old new : ServedPlay) → old.cell.hall.closed ≡ false →
        ComesTo (one_of_conn s c) old new → new.moves ≡ suc old.moves }
    ensures worker { (s : CellSetting) (w : ℕ) (old new : ServedPlay) → old.cell.hall.closed ≡ false →
        ComesTo (one_of_worker s w) old new → new.moves ≡ suc old.moves }
    ensures outcome { (s : CellSetting) (old new : ServedPlay) → old.cell.hall.closed ≡ false →
        ComesTo (one_of_outcome s) old new → new.moves ≡ suc old.moves }
{}

/// A move of a play that is reached comes to one that is reached, whatever kind of move it is.
pub fn moves_are_reached()
    ensures conn { (s : CellSetting) (c : ℕ) (old new : ServedPlay) → IsReached s old →
        ComesTo (one_of_conn s c) old new → IsReachedFrom s old new }
    ensures worker { (s : CellSetting) (w : ℕ) (old new : ServedPlay) → IsReached s old →
        ComesTo (one_of_worker s w) old new → IsReachedFrom s old new }
    ensures outcome { (s : CellSetting) (old new : ServedPlay) → IsReached s old →
        ComesTo (one_of_outcome s) old new → IsReachedFrom s old new }
    ensures opening { (s : CellSetting) (old new : ServedPlay) → IsReached s old →
        ComesTo (one_opening s) old new → IsReachedFrom s old new }
{
    less_than_a_frame();
}
