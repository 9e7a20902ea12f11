//! What a seat knows, as a type, and the rule of its table.
use crate::HistoryLimits;
use atomic_table::TableRule;
use std::marker::Model;

/// What a seat knows, which contracts see as the definitions' view. No value of it is made.
pub struct View {
    _no_value: (),
}

impl Model for View {
    ghost use Rattle.vs_thread_defs.specs.Rule.{nobody};
    ghost use Rattle.vs_history.specs.Seats.{HistoryView};

    ghost Value = { HistoryView };

    ghost view = { λ _. nobody };
}

/// The rule: there is one legal history, as long as the word says, and each seat has seen a beginning of it.
pub struct Law;

impl TableRule<u8, View, HistoryLimits> for Law {
    ghost use Rattle.std.specs.Prelude.{[], true};
    ghost use Rattle.vs_thread_defs.specs.Rule.{keeper};
    ghost use Rattle.vs_history.specs.Seats.{Holds};

    ghost holds = { λ limits s. Holds limits s };

    ghost first = { λ _. keeper 0 [] true };
}
