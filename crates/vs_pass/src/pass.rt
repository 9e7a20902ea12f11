//! A pass: what one caller knows of the history, and the words that it draws.
ghost use Rattle.std.specs.Prelude.{◌≡◌, [], false, length, IsOk, IfOk, OnErr};
ghost use Rattle.vs_defs.specs.History.{own};
ghost use Rattle.vs_session_defs.specs.Words.{generator as generator_of, drawn, after_draws};
ghost use Rattle.vs_thread_defs.specs.Machine.{GraphLegal, IsGoodThroughout};
ghost use Rattle.vs_thread_defs.specs.Rule.{pass as pass_view};
ghost use Rattle.vs_pass.specs.Knower.{Meets};

use rand_pcg::Lcg64Xsh32;
use std::alloc::Global;
use std::marker::Model;
use vs_history::{Seat, TableName, Word, meet};
use vs_outside::NoMemory;
use vs_random_words::{draw, generator};

/// What one caller knows of the history, under a number of its own, and its stream of random words. Contracts see it as the number, the
/// list of changes that it has seen, and the generator.
#[derive(Drop)]
pub struct Pass<N: TableName> {
    pub(crate) seat: Seat<N>,
    pub(crate) number: u64,
    pub(crate) known: u64,
    pub(crate) generator: Lcg64Xsh32,
}

impl<N: TableName> Model for Pass<N> {
    ghost use Rattle.vs_pass.specs.Knower.{Knower, IsPass};

    ghost Value = { Knower };

    ghost view = { λ p. record { number = p.number; seen = p.seat.seen; stream = p.generator } };

    ghost invariant = { λ p. IsPass N.limits p.number p.known p.seat };
}

impl<N: TableName> Pass<N> {
    // A pass whose seat the keeper has made before the first change. Its words are those of its number's stream.
    pub(crate) fn newcomer(seat: Seat<N>, seed: u64, number: u64) -> Pass<N>
        requires { seat ≡ pass_view number [] false [] [] }
        ensures { result ≡ record { number = number; seen = []; stream = generator_of seed number } }
    {
        Pass {
            seat,
            number,
            known: 0,
            generator: generator(seed, number),
        }
    }

    /// Its number: that of the author of its changes.
    pub fn number(&self) -> u64
        ensures { result ≡ self.now.number }
    {
        self.number
    }

    /// How many changes it has seen.
    pub fn known(&self) -> u64
        ensures known { result ≡ length self.now.seen }
        ensures legal { GraphLegal N.limits self.now.seen }
        ensures good { IsGoodThroughout self.now.seen }
    {
        self.known
    }

    /// The next `count` words of its stream. A refusal draws nothing; to draw no words takes no memory.
    pub fn draw(&mut self, alloc: Global, count: u32) -> Result<Vec<u32>, NoMemory>
        ensures words { IfOk result (λ words. words.items ≡ drawn count self.old.stream) }
        ensures moved { IfOk result (λ words. self.new.stream ≡ after_draws count self.old.stream) }
        ensures refused { OnErr result (self.new.stream ≡ self.old.stream) }
        ensures none { count ≡ 0 → IsOk result }
        ensures rest { (self.new.number ≡ self.old.number) × (self.new.seen ≡ self.old.seen) }
    {
        draw(alloc, &mut self.generator, count)
    }

    /// Two passes meet: one of their lists begins the other, and both have then seen the longer. Nobody waits.
    pub fn meet(word: &Word<N>, one: &mut Pass<N>, other: &mut Pass<N>)
        ensures one { Meets one.old.seen other.old.seen one.new.seen }
        ensures other { Meets one.old.seen other.old.seen other.new.seen }
        ensures own_one { own one.old.number one.new.seen ≡ own one.old.number one.old.seen }
        ensures own_other { own other.old.number other.new.seen ≡ own other.old.number other.old.seen }
        ensures numbers { (one.new.number ≡ one.old.number) × (other.new.number ≡ other.old.number) }
        ensures streams { (one.new.stream ≡ one.old.stream) × (other.new.stream ≡ other.old.stream) }
    {
        meet(word, &mut one.seat, &mut other.seat);
        let known = one.known.max(other.known);
        one.known = known;
        other.known = known;
    }
}
