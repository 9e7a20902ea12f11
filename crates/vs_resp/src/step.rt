//! Bytes are taken: one at a time, or those of a bulk together.
ghost use Rattle.std.specs.Prelude.{true, false, ◌≡◌, ◌<◌, ◌≤◌, ◌+◌, ◌^◌, ◌++◌, List, length, take, OnSome, IfSome};
ghost use Rattle.vs_defs.specs.Bytes.{Bytes};
ghost use Rattle.vs_defs.specs.Limits.{max_message_bytes, max_word_bytes};
ghost use Rattle.vs_defs.specs.Stream.{Message};
ghost use Rattle.vs_stream.specs.Machine.{start};
ghost use Rattle.vs_stream.specs.Reader.{reading, broken, worded, reader_step};
ghost use Rattle.vs_resp.specs.Bulk.{IsBulk};
ghost use Rattle.vs_resp.specs.Stands.{fault_of, reader_of, NotLost, IsGoing, Stands, failure, answer_of};

use crate::limits::MAX_MESSAGE_BYTES;
use crate::whole::{Bulk, whole_bulk};
use crate::{Decoder, Fault, FeedError, Stage};
use std::mem;
use vs_outside::List;

impl Decoder {
    ghost use Rattle.vs_resp.specs.Stands.{fault_of, reader_of, NotLost, IsGoing, Stands, failure, answer_of, FeedMeans, bytes_taken, ready_count};

    pub(crate) fn fail(&mut self, fault: Fault)
        ensures state { reader_of self.new ≡ broken self.old.ready.items (fault_of fault) self.old.fed }
        ensures fed { self.new.fed ≡ self.old.fed }
    {
        self.stage = Stage::Faulty {
            fault,
            at: self.fed,
        };
    }

    // The message is whole.
    pub(crate) fn give(&mut self)
        ensures state { NotLost self.new → reader_of self.new ≡ reading (self.old.ready.items ++ worded self.old.words) start }
        ensures lost { self.new.stage ≡ Stage.Lost → self.new.ready.items ≡ self.old.ready.items }
        ensures fed { self.new.fed ≡ self.old.fed }
    {
        self.stage = Stage::Start;
        let words = mem::replace(&mut self.words, List::new(self.alloc));
        self.spare.lend(words.len());
        if words.len() > 0 && self.ready.push_back(words).is_err() {
            self.stage = Stage::Lost;
        }
    }

    // Takes one byte that isn't of a bulk's own.
    pub(crate) fn step(&mut self, byte: u8)
        requires going { IsGoing self.old.stage }
        requires outside { self.old.stage ≡ Stage.Body → self.old.want ≡ 0 }
        ensures state { NotLost self.new → reader_of self.new ≡ reader_step true self.old.fed (reader_of self.old) byte }
        ensures lost { self.new.stage ≡ Stage.Lost → self.new.ready.items ≡ self.old.ready.items }
        ensures fed { self.new.fed ≡ self.old.fed }
    {
        match self.stage {
            Stage::Start => self.first_byte(byte),
            Stage::Star => self.star_byte(byte),
            Stage::Minus => {
                if byte != b'1' {
                    self.fail(Fault::BadCount);
                    return;
                }
                self.stage = Stage::MinusOne;
            }
            Stage::MinusOne => {
                if byte != b'\r' {
                    self.fail(Fault::BadCount);
                    return;
                }
                self.value = 0;
                self.stage = Stage::CountEnd;
            }
            Stage::Count => self.count_byte(byte),
            Stage::CountEnd => {
                if byte != b'\n' {
                    self.fail(Fault::BadCount);
                    return;
                }
                self.begin_bulks();
            }
            Stage::Bulk => {
                if byte != b'$' {
                    self.fail(Fault::ExpectedBulk);
                    return;
                }
                self.digits = 0;
                self.value = 0;
                self.stage = Stage::Length;
            }
            Stage::Length => self.length_byte(byte),
            Stage::LengthEnd => {
                if byte != b'\n' {
                    self.fail(Fault::BadLength);
                    return;
                }
                self.begin_body();
            }
            Stage::Body => {
                if byte != b'\r' {
                    self.fail(Fault::BadEnd);
                    return;
                }
                self.stage = Stage::BodyEnd;
            }
            Stage::BodyEnd => {
                if byte != b'\n' {
                    self.fail(Fault::BadEnd);
                    return;
                }
                let word = mem::replace(&mut self.word, Vec::new(self.alloc));
                self.end_bulk(word);
            }
            Stage::Line => self.line_byte(byte),
            Stage::Faulty { .. } | Stage::Lost => {}
        }
    }

    // Whether bytes of a bulk's own are to come next.
    fn is_in_body(&self) -> bool
        ensures yes { result ≡ true → (self.now.stage ≡ Stage.Body) × (0 < self.now.want) }
        ensures no { result ≡ false → self.now.stage ≡ Stage.Body → self.now.want ≡ 0 }
    {
        match self.stage {
            Stage::Body => self.want > 0,
            _ => false,
        }
    }

    // The whole bulk that comes next, unless it makes the message too large.
    fn bulk_in<'a>(&self, rest: &'a [u8]) -> Option<Bulk<'a>>
        ensures stage { OnSome result (self.now.stage ≡ Stage.Bulk) }
        ensures bulk { IfSome result (λ b. IsBulk (take b.size rest.now) b.word.now) }
        ensures within { IfSome result (λ b. b.size ≤ length rest.now) }
        ensures some { IfSome result (λ b. 0 < b.size) }
        ensures length { IfSome result (λ b. length b.word.now ≤ max_word_bytes) }
        ensures from { IfSome result (λ b. b.word.now ≡ take (length b.word.now) b.from.now) }
        ensures sum { IfSome result (λ b. self.now.sum + length b.word.now ≤ max_message_bytes) }
    {
        if self.stage != Stage::Bulk {
            return None;
        }
        let bulk = whole_bulk(rest)?;
        if self.sum as usize + bulk.word.len() > MAX_MESSAGE_BYTES as usize {
            return None;
        }
        Some(bulk)
    }

    // Takes at least one byte: a whole bulk, as many bytes as have come of one that is cut, or else a single byte.
    fn take_some(&mut self, rest: &[u8]) -> usize
        requires going { IsGoing self.old.stage }
        requires some { 0 < length rest.now }
        requires room { self.old.fed + length rest.now < 2 ^ 63 }
        ensures stands { (fed : Bytes) (given : List Message) → Stands self.old fed given → Stands self.new (fed ++ take result rest.now) given }
        ensures some { 0 < result }
        ensures within { result ≤ length rest.now }
        ensures fed { self.new.fed ≡ self.old.fed + result }
    {
        if let Some(bulk) = self.bulk_in(rest) {
            self.take_bulk(bulk.word, bulk.from);
            self.fed += bulk.size as u64;
            return bulk.size;
        }
        if self.is_in_body() {
            return self.take_body(rest);
        }
        self.step(rest[0]);
        self.fed += 1;
        1
    }

    pub(crate) fn take_all(&mut self, piece: &[u8])
        requires going { IsGoing self.old.stage }
        requires room { self.old.fed + length piece.now < 2 ^ 63 }
        ensures stands { (fed : Bytes) (given : List Message) → Stands self.old fed given → Stands self.new (fed ++ piece.now) given }
        ensures fed { self.new.fed ≤ self.old.fed + length piece.now }
    {
        let mut at: usize = 0;
        'pieces: while at < piece.len() {
            at += self.take_some(&piece[at..]);
            if !self.is_going() {
                return;
            }
        }
    }

    pub(crate) fn is_going(&self) -> bool
        ensures yes { result ≡ true → IsGoing self.now.stage }
        ensures no { result ≡ false → IsGoing self.now.stage → ⊥ }
    {
        match self.stage {
            Stage::Faulty { .. } | Stage::Lost => false,
            _ => true,
        }
    }

    pub(crate) fn outcome(&self) -> Result<(), FeedError>
        ensures answer { result ≡ answer_of (failure self.now) }
    {
        match self.stage {
            Stage::Faulty { fault, at } => Err(FeedError::Protocol { fault, at }),
            Stage::Lost => Err(FeedError::NoMemory),
            _ => Ok(()),
        }
    }
}
