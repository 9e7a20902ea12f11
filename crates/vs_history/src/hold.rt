//! One hold of the lock, on the seats: the keeper lends its lead to a pass, which has the whole history then, and takes it back.
ghost use Rattle.std.specs.Prelude.{◌≡◌, ◌<◌, ◌+◌, ◌^◌, ◌++◌, ◌∷◌, [], true, false, length};
ghost use Rattle.vs_defs.specs.History.{IsPrefix, own};
ghost use Rattle.vs_thread_defs.specs.Machine.{GraphLegal};
ghost use Rattle.vs_thread_defs.specs.Rule.{keeper as keeper_view, pass as pass_view, longer};
ghost use Rattle.vs_history.specs.Work.{entry_of, Did, Closed};

use crate::steps::{append, lend, settle, take, take_back};
use crate::{Seat, TableName, Word};
use std::marker::Brand;

/// The pass gets the lead and the whole history. What it had seen begins that history, which has no entries of its own but those it knew.
pub fn enter<N: TableName>(word: &Word<N>, keeper: &mut Seat<N>, pass: &mut Seat<N>)
    requires keeper { keeper.old ≡ keeper_view keeper.old.made keeper.old.seen true }
    requires pass { pass.old ≡ pass_view pass.old.number pass.old.seen false [] pass.old.own }
    ensures keeper { keeper.new ≡ keeper_view keeper.old.made keeper.old.seen false }
    ensures pass { pass.new ≡ pass_view pass.old.number keeper.old.seen true [] pass.old.own }
    ensures begins { IsPrefix pass.old.seen keeper.old.seen }
    ensures own { own pass.old.number keeper.old.seen ≡ pass.old.own }
    ensures legal { GraphLegal N.limits keeper.old.seen }
{
    let lent = lend(word, keeper);
    take(word, pass, lent);
    settle(word, pass);
}

/// The keeper has the lead again, and the pass's list.
pub fn leave<N: TableName>(word: &Word<N>, keeper: &mut Seat<N>, pass: &mut Seat<N>)
    requires keeper { keeper.old ≡ keeper_view keeper.old.made keeper.old.seen false }
    requires pass { pass.old ≡ pass_view pass.old.number pass.old.seen true [] pass.old.own }
    ensures keeper { keeper.new ≡ keeper_view keeper.old.made pass.old.seen true }
    ensures pass { pass.new ≡ pass_view pass.old.number pass.old.seen false [] pass.old.own }
{
    let lent = lend(word, pass);
    take_back(word, keeper, lent);
}

/// Names what a call of the store did in a hold. A call that passes `Brand` picks it.
pub trait Working {
    ghost use Rattle.vs_history.specs.Work.{Work};

    ghost work: { Work };
}

impl Working for Brand {
    ghost use Rattle.vs_history.specs.Work.{no_work};

    ghost work = { no_work };
}

// The pass puts the change that the work made at the end of the history.
fn note_change<N: TableName, W: Working>(word: &Word<N>, pass: &mut Seat<N>)
    requires pass { pass.old ≡ pass_view pass.old.number pass.old.seen true [] pass.old.own }
    requires legal { GraphLegal N.limits (pass.old.seen ++ entry_of pass.old.number W.work ∷ []) }
    requires room { length pass.old.seen + 1 < 2 ^ 64 }
    ensures { pass.new ≡ pass_view pass.old.number (pass.old.seen ++ entry_of pass.old.number W.work ∷ []) true [] (pass.old.own ++ entry_of pass.old.number W.work ∷ []) }
{
    append::<N, Brand>(word, pass);
}

/// Ends a hold in which a call of the store did the work that `W` names. `before` and `after` are the store's counts of changes. Where the
/// count moved, the change is put at the end of the history; then the keeper takes the lead back. `_told` is what a caller that passes
/// `Brand` picks the work from; it is for the proof alone.
pub fn close<N: TableName, W: Working, T>(
    word: &Word<N>,
    keeper: &mut Seat<N>,
    pass: &mut Seat<N>,
    before: u64,
    after: u64,
    _told: &T,
)
    requires keeper { keeper.old ≡ keeper_view keeper.old.made keeper.old.seen false }
    requires pass { pass.old ≡ pass_view pass.old.number pass.old.seen true [] pass.old.own }
    requires own { own pass.old.number pass.old.seen ≡ pass.old.own }
    requires legal { GraphLegal N.limits pass.old.seen }
    requires counts { (before ≡ W.work.old.changes) × (after ≡ W.work.new.changes) }
    requires did { Did N.limits pass.old.seen W.work }
    ensures keeper { keeper.new ≡ keeper_view keeper.old.made pass.new.seen true }
    ensures pass { pass.new ≡ pass_view pass.old.number pass.new.seen false [] pass.new.own }
    ensures closed { Closed N.limits pass.old.number pass.old.seen W.work pass.new.seen pass.new.own }
{
    if after == before {
        leave(word, keeper, pass);
        return;
    }
    note_change::<N, W>(word, pass);
    leave(word, keeper, pass);
}

/// Two passes meet: each has then seen the longer of their lists, which the other begins. Nobody waits.
pub fn meet<N: TableName>(word: &Word<N>, one: &mut Seat<N>, other: &mut Seat<N>)
    requires one { one.old ≡ pass_view one.old.number one.old.seen false [] one.old.own }
    requires other { other.old ≡ pass_view other.old.number other.old.seen false [] other.old.own }
    ensures one { one.new ≡ pass_view one.old.number (longer other.old.seen one.old.seen) false [] one.old.own }
    ensures other { other.new ≡ pass_view other.old.number (longer other.old.seen one.old.seen) false [] other.old.own }
    ensures begins { IsPrefix one.old.seen (longer other.old.seen one.old.seen) × IsPrefix other.old.seen (longer other.old.seen one.old.seen) }
    ensures own_one { own one.old.number (longer other.old.seen one.old.seen) ≡ one.old.own }
    ensures own_other { own other.old.number (longer other.old.seen one.old.seen) ≡ other.old.own }
    ensures legal { GraphLegal N.limits (longer other.old.seen one.old.seen) }
{
    let lent = lend(word, one);
    take(word, other, lent);
    settle(word, other);
    let lent = lend(word, other);
    take(word, one, lent);
    settle(word, one);
}
