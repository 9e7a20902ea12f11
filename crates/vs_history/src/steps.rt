//! The eight kinds of step on the word that counts the changes. Each is one call on the table, and keeps its rule.
ghost use Rattle.std.specs.Prelude.{◌≡◌, ◌<◌, ◌+◌, ◌^◌, ◌++◌, ◌∷◌, [], true, false, length};
ghost use Rattle.vs_thread_defs.specs.Machine.{Follows, GraphLegal};
ghost use Rattle.vs_thread_defs.specs.Rule.{counted, newcomer, note, unled, taken, returned, Settled, Appended};

use crate::view::View;
use crate::{Seat, TableName, Word};
use atomic_table::{Join, Play, Split};
use std::marker::{Brand, PhantomData};

struct Makes;

impl Split<View> for Makes {
    ghost use Rattle.vs_thread_defs.specs.Rule.{counted, newcomer};

    ghost left = { counted };

    ghost right = { newcomer };
}

struct Shares;

impl Split<View> for Shares {
    ghost use Rattle.vs_thread_defs.specs.Rule.{unled, note};

    ghost left = { unled };

    ghost right = { λ v. note v.seen v.lead };
}

struct Takes;

impl Join<View> for Takes {
    ghost use Rattle.vs_thread_defs.specs.Rule.{taken, nobody};

    ghost both = { taken };

    ghost spent = { nobody };
}

struct Returns;

impl Join<View> for Returns {
    ghost use Rattle.vs_thread_defs.specs.Rule.{returned, nobody};

    ghost both = { returned };

    ghost spent = { nobody };
}

struct Ends;

impl Join<View> for Ends {
    ghost use Rattle.vs_thread_defs.specs.Rule.{nobody};

    ghost both = { λ v _. v };

    ghost spent = { nobody };
}

struct Settles<N: TableName>(PhantomData<N>);

impl<N: TableName> Play<u8, View> for Settles<N> {
    ghost use Rattle.vs_history.specs.Seats.{SettledSeat};

    ghost then = { λ _ me found now. SettledSeat N.limits me found now };
}

/// Names the entry of a change. A call that passes `Brand` picks it.
pub trait Change {
    ghost use Rattle.vs_defs.specs.History.{Entry};
    ghost use Rattle.vs_defs.specs.Store.{Store, Set};

    ghost entry: { Entry (Store Set) };
}

impl Change for Brand {
    ghost use Rattle.vs_history.specs.Seats.{no_entry};

    ghost entry = { no_entry };
}

struct Appends<C: Change>(PhantomData<C>);

impl<C: Change> Play<u8, View> for Appends<C> {
    ghost use Rattle.vs_history.specs.Seats.{AppendedSeat};

    ghost then = { λ _ me found now. AppendedSeat C.entry me found now };
}

/// The keeper makes a pass, whose number is how many it had made.
pub fn make<N: TableName>(word: &Word<N>, keeper: &mut Seat<N>) -> Seat<N>
    requires { (keeper.old.keeps ≡ true) × (keeper.old.passes ≡ false) }
    ensures keeper { keeper.new ≡ counted keeper.old }
    ensures pass { result ≡ newcomer keeper.old }
{
    Seat {
        token: word.table.shared.split_seat::<Makes>(&mut keeper.token),
        name: PhantomData,
    }
}

/// The keeper takes an ended pass in, which hasn't the lead.
pub fn end<N: TableName>(word: &Word<N>, keeper: &mut Seat<N>, ended: Seat<N>)
    requires { ended.lead ≡ false }
    ensures { keeper.new ≡ keeper.old }
{
    let Seat { token, name: _ } = ended;
    word.table
        .shared
        .join_seat::<Ends>(&mut keeper.token, token);
}

/// A seat lends its list in a note, with the lead where it has it.
pub fn lend<N: TableName>(word: &Word<N>, lender: &mut Seat<N>) -> Seat<N>
    ensures lender { lender.new ≡ unled lender.old }
    ensures note { result ≡ note lender.old.seen lender.old.lead }
{
    Seat {
        token: word.table.shared.split_seat::<Shares>(&mut lender.token),
        name: PhantomData,
    }
}

/// A pass takes a note in.
pub fn take<N: TableName>(word: &Word<N>, taker: &mut Seat<N>, lent: Seat<N>)
    requires { taker.old.lead ≡ false }
    ensures { taker.new ≡ taken taker.old lent }
{
    let Seat { token, name: _ } = lent;
    word.table
        .shared
        .join_seat::<Takes>(&mut taker.token, token);
}

/// The keeper takes the lead back.
pub fn take_back<N: TableName>(word: &Word<N>, keeper: &mut Seat<N>, lent: Seat<N>)
    requires keeper { (keeper.old.passes ≡ false) × (keeper.old.olds ≡ []) }
    requires lead { lent.lead ≡ true }
    ensures { keeper.new ≡ returned keeper.old lent }
{
    let Seat { token, name: _ } = lent;
    word.table
        .shared
        .join_seat::<Returns>(&mut keeper.token, token);
}

/// A load of the word settles what was taken in.
pub fn settle<N: TableName>(word: &Word<N>, taker: &mut Seat<N>) -> u64
    ensures { Settled (Follows N.limits) taker.old result taker.new }
{
    word.table.shared.load::<Settles<N>>(&mut taker.token, 0)
}

/// One fetch and add: a pass that has the lead puts a change of its own at the end of the history.
pub fn append<N: TableName, C: Change>(word: &Word<N>, pass: &mut Seat<N>) -> u64
    requires pass { (pass.old.lead ≡ true) × (pass.old.passes ≡ true) × (pass.old.olds ≡ []) }
    requires author { C.entry.author ≡ pass.old.number }
    requires legal { GraphLegal N.limits (pass.old.seen ++ C.entry ∷ []) }
    requires room { length pass.old.seen + 1 < 2 ^ 64 }
    ensures { Appended C.entry pass.old result pass.new }
{
    word.table
        .shared
        .fetch_add::<Appends<C>>(&mut pass.token, 0, 1)
}
