//! What serves the messages of a connection, one after another.
ghost use Rattle.std.specs.Prelude.{◌≡◌, ◌≢◌, ◌<◌, ◌≤◌, ℕ, length, All};
ghost use Rattle.rand_pcg.specs.Lcg.{Lcg};
ghost use Rattle.vs_defs.specs.Limits.{max_message_words, max_word_bytes};
ghost use Rattle.vs_connection.specs.Served.{IsServed, IsReplied};
ghost use Rattle.vs_connection.specs.Stage.{CallOn};

use vs_outside::{Sink, Text};

/// How a message was served.
#[derive(Clone, Copy, Debug, PartialEq, Eq)]
pub enum Replied {
    /// The reply was written whole.
    Whole,
    /// It was, and it is that of QUIT.
    Bye,
    /// The sink failed.
    Failed,
}

/// Serves messages: reads a request from the words, draws its random words, carries it out, and writes the reply.
///
/// It serves one author. Others may lengthen the history between two messages: what is known of it is known of its beginning, and each call
/// goes on from there.
pub trait Handler {
    /// What is known of a history.
    ghost Known: { Type 0 };

    /// What a call of an author does to it.
    ghost call: { CallOn Known };

    /// It serves this author, this is known of the history, and the next words are drawn from this generator.
    ghost after: { Self → ℕ → Known → Lcg → Type 0 };

    /// Serves one message of 1 to 65,536 words of at most 65,536 bytes each. The reply is written whole unless the sink fails.
    fn handle<K: Sink>(&mut self, message: &[Text], sink: &mut K) -> Replied
        requires some { 0 < length message.now }
        requires few { length message.now ≤ max_message_words }
        requires short { All (λ word. length word ≤ max_word_bytes) message.now }
        ensures served { (author : ℕ) (h : Known) (g : Lcg) → after self.old author h g
            → IsServed call author (after self.new author) (IsReplied result (K.written sink.old) (K.written sink.new)) g h message.now }
        ensures failed { result ≡ Replied.Failed → K.faults sink.old < K.faults sink.new }
        ensures unfailed { result ≢ Replied.Failed → K.faults sink.new ≡ K.faults sink.old };
}
