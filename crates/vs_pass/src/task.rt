//! What is done on a store while a pass has the lock.
ghost use Rattle.std.specs.Prelude.{◌≡◌, length};
ghost use Rattle.vs_thread_defs.specs.Machine.{store_of};
ghost use Rattle.vs_pass.specs.Task.{Holding, MayRun, Works};

/// A store that counts its changes. Contracts see it as the definitions' store.
pub trait Stored {
    ghost use Rattle.vs_defs.specs.Store.{Store, Set};

    ghost store: { Self → Store Set };

    /// The number of changes so far.
    fn changes(&self) -> u64
        ensures { result ≡ (store self.now).changes };
}

/// What is done on a store in one hold of the lock, for a pass.
pub trait Task<S: Stored> {
    ghost use Rattle.std.specs.Prelude.{ℕ};
    ghost use Rattle.vs_defs.specs.Store.{Store, Set, Limits};
    ghost use Rattle.vs_thread_defs.specs.Machine.{GraphHistory};
    ghost use Rattle.vs_history.specs.Work.{Work};

    /// What it hands out.
    type Output;

    /// What it needs of the history that its pass had seen.
    ghost needs: { Self → Limits → GraphHistory → Type 0 };

    /// The work that it did, by the number of changes that its pass had seen, the stores before and after it, and its output.
    ghost work: { Self → ℕ → Store Set → Self.Output → Store Set → Work };

    /// What its caller then knows of the pass's call: the pass's number and its lists before and after.
    ghost call: { Self → Limits → ℕ → GraphHistory → Self.Output → GraphHistory → Type 0 };

    /// Does it. `known` is how many changes its pass had seen.
    fn run(self, store: &mut S, known: u64) -> Self::Output
        requires { MayRun (needs self) (S.store store.old) known }
        ensures { (limits : Limits) (number : ℕ) (s log : GraphHistory) → Holding limits number s log → S.store store.old ≡ store_of limits log
            → known ≡ length s → needs self limits s
            → Works limits number log (S.store store.old) (S.store store.new) (work self known (S.store store.old) result (S.store store.new))
            (λ t. call self limits number s result t) };
}
