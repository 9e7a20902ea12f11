//! Listeners. A link is the two ends of one connection; which links a listener gave, and which were closed with it, is known where its type
//! tells it. It counts its faults.
ghost use Rattle.std.specs.Prelude.{◌≡◌, ℕ, List, Option};
ghost use Rattle.vs_outside.specs.Links.{Accepts, CountsFault, HasOpen, IsOrdered, with_link};

use crate::{Sink, Source};

/// What an accept gave.
#[derive(Drop)]
pub enum Accepted<I, O> {
    /// The two ends of a link.
    Link(I, O),
    /// Nothing, by a fault of the listener.
    Failed,
}

/// What gives links, and takes each back once it is served.
pub trait Listener {
    type Input: Source + Send;

    type Output: Sink + Send;

    /// The links given, with their ends as they then were.
    ghost given: { Self → Option (List (Self.Input × Self.Output)) };

    /// The links closed, with their ends as they then were.
    ghost closed: { Self → Option (List (Self.Input × Self.Output)) };

    /// How often an accept has failed.
    ghost faults: { Self → ℕ };

    /// Gives the next link. It may wait for one.
    fn accept(&mut self) -> Accepted<Self::Input, Self::Output>
        ensures given { Accepts result (given self.old) (given self.new) }
        ensures closed { closed self.new ≡ closed self.old }
        ensures faults { CountsFault result (faults self.old) (faults self.new) };

    /// Closes a link that was given. It takes no memory.
    fn close(&mut self, input: Self::Input, output: Self::Output)
        requires { HasOpen (given self.old) (closed self.old) }
        ensures given { given self.new ≡ given self.old }
        ensures closed { closed self.new ≡ with_link input output (closed self.old) }
        ensures faults { faults self.new ≡ faults self.old };

    /// No more are closed than were given.
    ghost ordered: { (listener : Self) → IsOrdered (given listener) (closed listener) };
}
