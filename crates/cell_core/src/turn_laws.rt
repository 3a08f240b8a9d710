//! A law of a worker's steps, the contract of a function that does nothing.

ghost use Rattle.std.specs.Prelude.{◌≡◌, ℕ};
ghost use Rattle.hall_core.specs.Meant.{ServedHall};
ghost use Rattle.cell_core.specs.declared.worker.Holding.{Holding};
ghost use Rattle.cell_core.specs.declared.turn.Stepped.{Stepped};
ghost use Rattle.cell_loop.specs.Settings.{CellSetting, ServedPlay};
ghost use Rattle.cell_core.specs.HallTied.{IsHallTied, plain_worker};
ghost use Rattle.cell_core.specs.Turns.{IsWorkerTurn};
ghost use Rattle.cell_core.specs.TurnMoves.{TurnMakes};

/// A worker's step in memory is a move of each play that it is tied to; or there is no move, or the journal has failed.
pub fn turns_are_moves()
    ensures { (s : CellSetting) (w : ℕ) (play : ServedPlay) (old new : ServedHall) (worker next : Holding) (stepped : Stepped) →
        IsHallTied old play.cell.hall → play.cell.workers w ≡ plain_worker worker → IsWorkerTurn s.desk old new worker next stepped →
        TurnMakes s w play old new next stepped }
{}
