//! What is behind the lock: a store, and the keeper's seat of its history, which is always the one that ends in this store.
ghost use Rattle.std.specs.Prelude.{◌≡◌, [], true, IfOk};
ghost use Rattle.vs_defs.specs.Store.{empty_store};
ghost use Rattle.vs_thread_defs.specs.Rule.{keeper as keeper_view};
ghost use Rattle.vs_pass.specs.Knower.{newcomers};

use crate::{Pass, Stored, Task};
use std::alloc::Global;
use std::marker::{Brand, Model};
use std::snapshot::Snapshot;
use vs_history::{Seat, TableName, Word, close, end, enter, make};
use vs_outside::NoMemory;

/// A store with the keeper's seat, for a lock. Contracts see it as the history, whose last store it has.
#[derive(Drop)]
pub struct Desk<N: TableName, S: Stored + Drop> {
    store: S,
    keeper: Seat<N>,
}

impl<N: TableName, S: Stored + Drop> Model for Desk<N, S> {
    ghost use Rattle.vs_thread_defs.specs.Machine.{GraphHistory};
    ghost use Rattle.vs_pass.specs.Knower.{IsDesk};

    ghost Value = { GraphHistory };

    ghost view = { λ d. d.keeper.seen };

    ghost invariant = { λ d. IsDesk N.limits (S.store d.store) d.keeper };
}

/// A desk over an empty store, and passes with the numbers from 0, none of which has seen a change.
pub fn open<N: TableName, S: Stored + Drop>(
    alloc: Global,
    word: &Word<N>,
    keeper: Seat<N>,
    store: S,
    seed: u64,
    passes: u32,
) -> Result<(Desk<N, S>, Vec<Pass<N>>), NoMemory>
    requires keeper { keeper ≡ keeper_view 0 [] true }
    requires store { S.store store ≡ empty_store N.limits }
    ensures desk { IfOk result (λ r. r.0 ≡ []) }
    ensures passes { IfOk result (λ r. r.1.items ≡ newcomers seed passes) }
{
    let mut keeper = keeper;
    let made = make_passes(alloc, word, &mut keeper, seed, passes)?;
    Ok((Desk { store, keeper }, made))
}

// Makes passes with the numbers from 0.
fn make_passes<N: TableName>(
    alloc: Global,
    word: &Word<N>,
    keeper: &mut Seat<N>,
    seed: u64,
    passes: u32,
) -> Result<Vec<Pass<N>>, NoMemory>
    requires { keeper.old ≡ keeper_view 0 [] true }
    ensures made { IfOk result (λ v. v.items ≡ newcomers seed passes) }
    ensures keeper { IfOk result (λ v. keeper.new ≡ keeper_view passes [] true) }
{
    let mut made = Vec::with_capacity(alloc, passes as usize)?;
    for number in 0..passes {
        let seat = make(word, keeper);
        made.push(Pass::newcomer(seat, seed, u64::from(number)))?;
    }
    Ok(made)
}

// What a task did, for the proof alone.
#[derive(Drop)]
struct Told<S, T, O> {
    task: Snapshot<T>,
    known: u64,
    old: Snapshot<S>,
    output: Snapshot<O>,
    new: Snapshot<S>,
}

impl<N: TableName, S: Stored + Drop> Desk<N, S> {
    /// Does a task on the store as one event of the history, for a pass, which has then seen all of it.
    pub fn hold<T: Task<S>>(&mut self, word: &Word<N>, pass: &mut Pass<N>, task: T) -> T::Output
        requires { T.needs task N.limits pass.old.seen }
        ensures call { T.call task N.limits pass.old.number pass.old.seen result pass.new.seen }
        ensures number { pass.new.number ≡ pass.old.number }
        ensures stream { pass.new.stream ≡ pass.old.stream }
    {
        enter(word, &mut self.keeper, &mut pass.seat);
        let before = self.store.changes();
        let (known, task_was, store_was) = (
            pass.known,
            Snapshot::of(&task),
            Snapshot::of(&self.store),
        );
        let output = task.run(&mut self.store, known);
        let after = self.store.changes();
        let told = Told {
            task: task_was,
            known,
            old: store_was,
            output: Snapshot::of(&output),
            new: Snapshot::of(&self.store),
        };
        close::<N, Brand, _>(word, &mut self.keeper, &mut pass.seat, before, after, &told);
        pass.known = after;
        output
    }

    /// Takes an ended pass in. The others are as they were.
    pub fn end(&mut self, word: &Word<N>, pass: Pass<N>)
        ensures { self.new ≡ self.old }
    {
        let Pass {
            seat,
            number: _,
            known: _,
            generator: _,
        } = pass;
        end(word, &mut self.keeper, seat);
    }
}
