//! The name of a table, which a type parameter carries: so the seats and the word of one table agree in every type that has a part of it.
use std::marker::{Brand, Model};

/// Names one table, and the limits under which its history is legal. A call that passes `Brand` picks both.
pub trait TableName {
    ghost use Rattle.atomic_table.specs.Seated.{TableId};
    ghost use Rattle.vs_defs.specs.Store.{Limits};

    ghost table: { TableId };

    ghost limits: { Limits };
}

impl TableName for Brand {
    ghost use Rattle.vs_defs.specs.Store.{usual_limits};
    ghost use Rattle.vs_history.specs.Name.{no_table};

    ghost table = { no_table };

    ghost limits = { usual_limits };
}

/// The limits under which a history is legal: those of its stores. Contracts see them as the definitions' limits.
#[derive(Drop)]
pub struct HistoryLimits {
    set: u32,
    keys: u32,
    all: u32,
    changes: u64,
}

impl Model for HistoryLimits {
    ghost use Rattle.vs_defs.specs.Store.{Limits};

    ghost Value = { Limits };

    ghost view = { λ l. record { set = l.set; keys = l.keys; all = l.all; changes = l.changes } };
}

impl HistoryLimits {
    ghost use Rattle.std.specs.Prelude.{◌≡◌};

    /// The most members of a set, keys, members in all, and changes.
    pub fn new(set: u32, keys: u32, all: u32, changes: u64) -> HistoryLimits
        ensures { result ≡ record { set = set; keys = keys; all = all; changes = changes } }
    {
        HistoryLimits {
            set,
            keys,
            all,
            changes,
        }
    }
}
