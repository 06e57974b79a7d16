ghost use Rattle.lx_history.specs.Laws.{HistoriesTurn};

/// What goes back comes forth again: this function does nothing, and its contract is the laws of histories.
pub fn histories_turn()
    ensures { HistoriesTurn }
{}
