//! A fresh store, before the table of its history has a name.
ghost use Rattle.std.specs.Prelude.{◌≡◌, ◌≤◌, IfOk};
ghost use Rattle.vs_pass.specs.Knower.{newcomers};
ghost use Rattle.vs_store.specs.Kept.{AreUsual};
ghost use Rattle.vs_store.specs.Seen.{limits_seen};

use crate::Shared;
use crate::counted::Counted;
use std::alloc::Global;
use std::marker::Model;
use vs_history::{HistoryLimits, TableName};
use vs_outside::NoMemory;
use vs_pass::{Pass, open};
use vs_store::{Limits, Store};

/// A fresh history, which has no name yet, under the limits of its store. Contracts see it as the name that it is to have.
pub struct Opened {
    history: vs_history::Opened,
    limits: Limits,
}

impl Model for Opened {
    ghost use Rattle.std.specs.Prelude.{◌≡◌};
    ghost use Rattle.vs_history.specs.Name.{Name};
    ghost use Rattle.vs_store.specs.Kept.{AreUsual};
    ghost use Rattle.vs_store.specs.Seen.{limits_seen};

    ghost Value = { Name };

    ghost view = { λ o. o.history };

    ghost invariant = { λ o. (o.history.limits ≡ limits_seen o.limits) × AreUsual (limits_seen o.limits) };
}

impl Opened {
    /// A fresh history under these limits.
    pub fn new(alloc: Global, limits: Limits) -> Result<Opened, NoMemory>
        requires { AreUsual (limits_seen limits) }
        ensures { IfOk result (λ o. o.limits ≡ limits_seen limits) }
    {
        let history = vs_history::Opened::new(
            alloc,
            HistoryLimits::new(limits.set, limits.keys, limits.all, limits.changes),
        )?;
        Ok(Opened { history, limits })
    }

    /// The empty store behind its lock, with a pool for at most `slots` slots, and passes with the numbers from 0, none of which has seen a
    /// change. The caller picks the name. All passes are made here.
    pub fn named<N: TableName>(
        self,
        alloc: Global,
        seed: u64,
        slots: u32,
        passes: u32,
    ) -> Result<(Shared<N>, Vec<Pass<N>>), NoMemory>
        requires name { self ≡ record { table = N.table; limits = N.limits } }
        requires slots { 1 ≤ slots }
        ensures { IfOk result (λ r. r.1.items ≡ newcomers seed passes) }
    {
        let Opened { history, limits } = self;
        let (word, keeper) = history.named::<N>();
        let store = Counted {
            store: Store::new(alloc, limits),
        };
        let (desk, made) = open(alloc, &word, keeper, store, seed, passes)?;
        Ok((Shared::new(alloc, word, desk, slots)?, made))
    }
}
