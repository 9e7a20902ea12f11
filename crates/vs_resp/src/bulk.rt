//! Bulks: byte by byte where they are cut between pieces, and whole ones at once.
ghost use Rattle.std.specs.Prelude.{◌≡◌, ◌<◌, ◌≤◌, ◌+◌, ◌-◌, ◌^◌, [], ◌∷◌, ◌++◌, length, take};
ghost use Rattle.vs_defs.specs.Limits.{max_message_bytes, max_word_bytes};
ghost use Rattle.vs_stream.specs.Machine.{body, len_step, after_bulk};
ghost use Rattle.vs_stream.specs.Reader.{reading, taken};
ghost use Rattle.vs_resp.specs.Stands.{reader_of, NotLost};

use crate::limits::{MAX_COUNT_DIGITS, MAX_MESSAGE_BYTES, MAX_WORD_BYTES};
use crate::{Decoder, Fault, Stage};
use vs_outside::Text;

impl Decoder {
    // A digit of a length, or what ends it.
    pub(crate) fn length_byte(&mut self, byte: u8)
        ensures state { reader_of self.new ≡ taken self.old.fed self.old.ready.items (len_step self.old.left self.old.sum self.old.words self.old.digits self.old.value byte) }
        ensures fed { self.new.fed ≡ self.old.fed }
    {
        if byte.is_ascii_digit() && self.digits < MAX_COUNT_DIGITS {
            let value = self.value * 10 + (byte - b'0') as u32;
            if value > MAX_WORD_BYTES {
                self.fail(Fault::LengthTooLarge);
                return;
            }
            if self.sum + value > MAX_MESSAGE_BYTES {
                self.fail(Fault::MessageTooLarge);
                return;
            }
            self.digits += 1;
            self.value = value;
            self.stage = Stage::Length;
            return;
        }
        if self.digits > 0 && byte == b'\r' {
            self.stage = Stage::LengthEnd;
            return;
        }
        self.fail(Fault::BadLength);
    }

    // The length's line is whole.
    pub(crate) fn begin_body(&mut self)
        ensures state { NotLost self.new → reader_of self.new
            ≡ reading self.old.ready.items (body self.old.left (self.old.sum + self.old.value) self.old.words self.old.value []) }
        ensures lost { self.new.stage ≡ Stage.Lost → self.new.ready.items ≡ self.old.ready.items }
        ensures fed { self.new.fed ≡ self.old.fed }
    {
        match self.spare.word(self.value as usize) {
            Ok(word) => {
                self.word = word;
                self.want = self.value;
                self.sum += self.value;
                self.value = 0;
                self.stage = Stage::Body;
            }
            Err(_) => self.stage = Stage::Lost,
        }
    }

    // Takes as many of a bulk's bytes as have come.
    pub(crate) fn take_body(&mut self, rest: &[u8]) -> usize
        requires stage { self.old.stage ≡ Stage.Body }
        requires some { 0 < length rest.now }
        requires want { 0 < self.old.want }
        requires room { self.old.fed + length rest.now < 2 ^ 63 }
        ensures state { NotLost self.new → reader_of self.new
            ≡ reading self.old.ready.items (body self.old.left self.old.sum self.old.words (self.old.want - result) (self.old.word.items ++ take result rest.now)) }
        ensures lost { self.new.stage ≡ Stage.Lost → self.new.ready.items ≡ self.old.ready.items }
        ensures some { 0 < result }
        ensures within { result ≤ length rest.now }
        ensures wanted { result ≤ self.old.want }
        ensures fed { self.new.fed ≡ self.old.fed + result }
    {
        let n = rest.len().min(self.want as usize);
        self.fed += n as u64;
        if self.word.extend_from_slice(&rest[..n]).is_err() {
            self.stage = Stage::Lost;
            return n;
        }
        self.want -= n as u32;
        n
    }

    // Takes a whole bulk with this word, with which the bytes `from` begin.
    pub(crate) fn take_bulk(&mut self, word: &[u8], from: &[u8])
        requires from { word.now ≡ take (length word.now) from.now }
        requires length { length word.now ≤ max_word_bytes }
        requires sum { self.old.sum + length word.now ≤ max_message_bytes }
        ensures state { NotLost self.new → reader_of self.new
            ≡ taken self.old.fed self.old.ready.items (after_bulk self.old.left (self.old.sum + length word.now) (self.old.words ++ word.now ∷ [])) }
        ensures lost { self.new.stage ≡ Stage.Lost → self.new.ready.items ≡ self.old.ready.items }
        ensures fed { self.new.fed ≡ self.old.fed }
    {
        self.value = 0;
        match self.spare.copy(word, from) {
            Ok(copy) => {
                self.sum += word.len() as u32;
                self.end_bulk(copy);
            }
            Err(_) => self.stage = Stage::Lost,
        }
    }

    // The bulk with this word is whole.
    pub(crate) fn end_bulk(&mut self, word: Vec<u8>)
        ensures state { NotLost self.new → reader_of self.new
            ≡ taken self.old.fed self.old.ready.items (after_bulk self.old.left self.old.sum (self.old.words ++ word.items ∷ [])) }
        ensures lost { self.new.stage ≡ Stage.Lost → self.new.ready.items ≡ self.old.ready.items }
        ensures fed { self.new.fed ≡ self.old.fed }
    {
        if self.words.push(Text::from_vec(word)).is_err() {
            self.stage = Stage::Lost;
            return;
        }
        if self.left == 0 {
            self.give();
            return;
        }
        self.left -= 1;
        self.stage = Stage::Bulk;
    }
}
