//! The handler of a connection's messages: words in, one reply out.
ghost use Rattle.std.specs.Prelude.{◌≡◌, ◌<◌, ◌≤◌, ℕ, None, All, length, IfOk};
ghost use Rattle.rand_pcg.specs.Lcg.{Lcg};
ghost use Rattle.vs_defs.specs.Reply as outcome;
ghost use Rattle.vs_command.specs.Outcomes.{outcome_of};
ghost use Rattle.vs_command.specs.Scores.{HasScores};
ghost use Rattle.vs_reply.specs.Replies.{short_of};
ghost use Rattle.vs_connection.specs.Served.{IsServed};
ghost use Rattle.vs_session.specs.After.{After};

use crate::Machine;
use crate::replies::Replies;
use rand_pcg::Lcg64Xsh32;
use std::alloc::Global;
use vs_command::{Answer, Refusal, draws, read_request};
use vs_connection::{Handler, Replied, draw};
use vs_outside::{Sink, Text};

/// A machine with the generator of the words to be drawn. It keeps a buffer for replies.
#[derive(Drop)]
pub struct Server<M> {
    alloc: Global,
    machine: M,
    generator: Lcg64Xsh32,
    replies: Replies,
}

impl<M: Machine> Server<M> {
    /// A server of this machine. It takes no memory.
    pub fn new(alloc: Global, machine: M, generator: Lcg64Xsh32) -> Server<M>
        ensures machine { result.machine ≡ machine }
        ensures generator { result.generator ≡ generator }
    {
        Server {
            alloc,
            machine,
            generator,
            replies: Replies::new(alloc),
        }
    }

    // Reads a request, draws its words, and carries it out.
    fn carry_out(&mut self, message: &[Text]) -> Result<Answer, Refusal>
        requires some { 0 < length message.now }
        requires few { length message.now ≤ 65536 }
        requires short { All (λ word. length word ≤ 65536) message.now }
        ensures served { (author : ℕ) (h : M.Known) (g : Lcg) → After (M.knows self.old.machine author) self.old.generator h g
            → IsServed M.call author (After (M.knows self.new.machine author) self.new.generator) (λ o. o ≡ outcome_of result) g h message.now }
        ensures long { short_of result ≡ None → (author : ℕ) (h : M.Known) (g : Lcg) → After (M.knows self.old.machine author) self.old.generator h g
            → IsServed M.call author (After (M.knows self.new.machine author) self.new.generator) (λ o. o ≡ outcome.OutOfMemory) g h message.now }
        ensures scores { IfOk result HasScores }
    {
        let request = read_request(self.alloc, message)?;
        let words = draw(self.alloc, &mut self.generator, draws(&request))?;
        self.machine.do_now(request, words.as_slice())
    }
}

impl<M: Machine> Handler for Server<M> {
    ghost Known = { M.Known };

    ghost call = { M.call };

    ghost after = { λ s k h g. After (M.knows s.machine k) s.generator h g };

    fn handle<K: Sink>(&mut self, message: &[Text], sink: &mut K) -> Replied {
        let outcome = self.carry_out(message);
        self.replies.write(&outcome, sink)
    }
}
