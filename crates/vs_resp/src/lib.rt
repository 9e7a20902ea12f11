//! The messages of a stream of requests that comes in pieces. However the stream is cut, they are those that its definitions read.
#![tactic(auto)]

ghost use Rattle.std.specs.Prelude.{true, ◌≡◌, ◌↔◌, IsTrue, ◌<◌, ◌≤◌, ◌+◌, ◌^◌, [], ◌++◌, List, length, IfNone, OnSome};
ghost use Rattle.std.specs.Option.{option_to_list};
ghost use Rattle.vs_defs.specs.Bytes.{Bytes};
ghost use Rattle.vs_defs.specs.Limits.{max_message_bytes, max_word_bytes};
ghost use Rattle.vs_defs.specs.Stream.{Message};
ghost use Rattle.vs_stream.specs.Given.{GivenAll, GivenFirst, GivenBefore};
ghost use Rattle.vs_stream.specs.Place.{IsStream};

use std::alloc::Global;
use std::collections::VecDeque;

mod bulk;
mod count;
mod limits;
mod line;
mod spare;
mod step;
#[cfg(test)]
mod tests;
mod whole;

use spare::Spare;
use vs_outside::{List, Text};

/// What is wrong with a stream, by the byte at which it ceases to begin a stream. The grammar is that of RESP; the limits
/// and the digits of a number, 1 to 7, are this project's.
#[derive(Clone, Copy, Debug, PartialEq, Eq)]
pub enum Fault {
    /// A byte that a count's line doesn't allow.
    BadCount,
    /// The digit by which a count passes 65,536.
    CountTooLarge,
    /// A byte other than `$` where a bulk begins.
    ExpectedBulk,
    /// A byte that a length's line doesn't allow.
    BadLength,
    /// The digit by which a length passes 65,536.
    LengthTooLarge,
    /// The digit by which the lengths of one message pass 4,194,304 together.
    MessageTooLarge,
    /// A byte after a bulk's own that isn't of its line end.
    BadEnd,
    /// The byte after 65,536 bytes of an inline line, if it isn't the line feed.
    InlineTooLong,
}

#[derive(Clone, Copy, Debug, PartialEq, Eq)]
pub enum FeedError {
    NoMemory,
    /// `at` is the place of the byte, counted from 0, from the connection's first byte on.
    Protocol { fault: Fault, at: u64 },
}

// A place in a message.
#[derive(Clone, Copy, Debug, PartialEq, Eq)]
enum Stage {
    Start,
    Star,
    Minus,
    MinusOne,
    Count,
    CountEnd,
    Bulk,
    Length,
    LengthEnd,
    Body,
    BodyEnd,
    Line,
    Faulty { fault: Fault, at: u64 },
    Lost,
}

/// The messages of one connection's bytes: arrays of bulks, and inline lines. A word's bytes are copied once, into the `Text` that is
/// handed out, and looked at one by one only in an inline line. Messages without a word are skipped.
///
/// After a fault each later feed answers the same, and the messages before it still come. Once a feed was out of memory each later one
/// answers that, and the messages that still come are the next of those that were fed.
#[derive(Drop)]
pub struct Decoder {
    alloc: Global,
    stage: Stage,
    fed: u64,
    digits: u8,
    value: u32,
    left: u32,
    sum: u32,
    want: u32,
    words: List<Text>,
    word: Vec<u8>,
    spare: Spare,
    ready: VecDeque<List<Text>>,
    // A count, a length and the bytes of a line have the same limit.
    ghost value_in_range: { value ≤ max_word_bytes },
    ghost sum_in_range: { sum + value ≤ max_message_bytes },
}

impl Decoder {
    ghost use Rattle.vs_resp.specs.Stands.{Stands, failure, answer_of, FeedMeans, bytes_taken, ready_count};

    /// No bytes were fed. It takes no memory.
    pub fn new(alloc: Global) -> Decoder
        ensures stands { Stands result [] [] }
        ensures taken { bytes_taken result ≡ 0 }
        ensures going { failure result ≡ None }
    {
        Decoder {
            alloc,
            stage: Stage::Start,
            fed: 0,
            digits: 0,
            value: 0,
            left: 0,
            sum: 0,
            want: 0,
            words: List::new(alloc),
            word: Vec::new(alloc),
            spare: Spare::new(alloc),
            ready: VecDeque::new(alloc),
        }
    }

    /// Takes the next piece of the stream; how the bytes are cut into pieces makes no difference.
    pub fn feed(&mut self, piece: &[u8]) -> Result<(), FeedError>
        requires room { bytes_taken self.old + length piece.now < 2 ^ 63 }
        ensures stands { (fed : Bytes) (given : List Message) → Stands self.old fed given → Stands self.new (fed ++ piece.now) given }
        ensures means { (fed : Bytes) (given : List Message) → Stands self.old fed given → FeedMeans (fed ++ piece.now) result }
        ensures answer { result ≡ answer_of (failure self.new) }
        ensures again { (error : FeedError) → failure self.old ≡ Some error → failure self.new ≡ Some error }
        ensures taken { bytes_taken self.new ≤ bytes_taken self.old + length piece.now }
    {
        if !self.is_going() {
            return self.outcome();
        }
        self.take_all(piece);
        self.outcome()
    }

    /// The next message that has a word, of those that were fed whole. It takes no memory.
    pub fn next(&mut self) -> Option<List<Text>>
        ensures stands { (fed : Bytes) (given : List Message) → Stands self.old fed given → Stands self.new fed (given ++ option_to_list result) }
        ensures first { (fed : Bytes) (given : List Message) → Stands self.old fed given → GivenFirst true fed (given ++ option_to_list result) }
        ensures all { (fed : Bytes) (given : List Message) → Stands self.old fed given → (failure self.old ≡ Some FeedError.NoMemory → ⊥) → IfNone result (GivenAll true fed given) }
        ensures before { (fed : Bytes) (given : List Message) → Stands self.old fed given → failure self.old ≡ Some FeedError.NoMemory → IfNone result (GivenBefore true fed given) }
        ensures some { OnSome result (ready_count self.new + 1 ≡ ready_count self.old) }
        ensures failure { failure self.new ≡ failure self.old }
        ensures taken { bytes_taken self.new ≡ bytes_taken self.old }
    {
        self.ready.pop_front()
    }

    /// Takes a message back that was answered: later messages use the memory of its words and of its list of words, within bounds. It
    /// takes no memory, and changes no answer.
    pub fn take_back(&mut self, message: List<Text>)
        ensures stands { (fed : Bytes) (given : List Message) → Stands self.old fed given → Stands self.new fed given }
        ensures failure { failure self.new ≡ failure self.old }
        ensures ready { ready_count self.new ≡ ready_count self.old }
        ensures taken { bytes_taken self.new ≡ bytes_taken self.old }
    {
        self.spare.keep(message);
    }

    /// Whether all that was fed is whole messages. It takes no memory.
    pub fn at_border(&self) -> bool
        ensures { (fed : Bytes) (given : List Message) → Stands self.now fed given → (failure self.now ≡ Some FeedError.NoMemory → ⊥) → IsTrue result ↔ IsStream true fed }
    {
        match self.stage {
            Stage::Start => true,
            _ => false,
        }
    }
}
