//! The word that counts the changes, and its seats.
ghost use Rattle.std.specs.Prelude.{◌≡◌, [], true, IfOk};
ghost use Rattle.vs_thread_defs.specs.Rule.{keeper};
ghost use Rattle.vs_history.specs.Name.{IsNamed};

use crate::view::{Law, View};
use crate::{HistoryLimits, TableName};
use std::alloc::Global;
use std::marker::{Model, PhantomData};
use vs_outside::NoMemory;

/// The table of a history, which has one word.
pub(crate) type HistoryTable = atomic_table::Table<u8, View, HistoryLimits, Law, Global>;

/// The one word: the number of changes.
#[derive(Drop)]
pub struct Word<N: TableName> {
    pub(crate) table: HistoryTable,
    name: PhantomData<N>,
    ghost named: { IsNamed N.table N.limits table.shared.table_id table.shared.key },
}

/// A seat, which steps on the word of its table. Contracts see it as its view: what it knows. It has no bytes.
#[derive(Drop)]
pub struct Seat<N: TableName> {
    pub(crate) token: atomic_table::Seat<u8, View>,
    pub(crate) name: PhantomData<N>,
}

impl<N: TableName> Model for Seat<N> {
    ghost use Rattle.vs_history.specs.Seats.{HistoryView, IsSeat};

    ghost Value = { HistoryView };

    ghost view = { λ s. s.token.me.0 };

    ghost invariant = { λ s. IsSeat N.table s.token.table_id s.token.me };
}

/// A fresh table, which has no name yet. Contracts see it as the name that it is to have.
pub struct Opened {
    table: HistoryTable,
    keeper: atomic_table::Seat<u8, View>,
}

impl Model for Opened {
    ghost use Rattle.std.specs.Prelude.{[], true};
    ghost use Rattle.vs_thread_defs.specs.Rule.{keeper};
    ghost use Rattle.vs_history.specs.Name.{Name, IsFresh};

    ghost Value = { Name };

    ghost view = { λ o. record { table = o.table.shared.table_id; limits = o.table.shared.key } };

    ghost invariant = { λ o. IsFresh o.table.shared.table_id o.keeper.table_id o.keeper.me };
}

impl Opened {
    /// A table with an empty history.
    pub fn new(alloc: Global, limits: HistoryLimits) -> Result<Opened, NoMemory>
        ensures { IfOk result (λ o. o.limits ≡ limits) }
    {
        let (table, keeper) = HistoryTable::of_words(alloc, &[0], &limits)?;
        Ok(Opened { table, keeper })
    }

    /// The word and the keeper's seat, under a name.
    pub fn named<N: TableName>(self) -> (Word<N>, Seat<N>)
        requires { self ≡ record { table = N.table; limits = N.limits } }
        ensures { result.1 ≡ keeper 0 [] true }
    {
        let Opened { table, keeper } = self;
        (
            Word {
                table,
                name: PhantomData,
            },
            Seat {
                token: keeper,
                name: PhantomData,
            },
        )
    }
}
