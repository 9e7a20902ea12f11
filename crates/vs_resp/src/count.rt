//! The line of an array's count.
ghost use Rattle.std.specs.Prelude.{true, ◌≡◌};
ghost use Rattle.vs_stream.specs.Machine.{star, step, begin_bulks, count_step};
ghost use Rattle.vs_stream.specs.Reader.{taken};
ghost use Rattle.vs_resp.specs.Stands.{reader_of, NotLost};

use crate::limits::{MAX_COUNT_DIGITS, MAX_MESSAGE_WORDS};
use crate::{Decoder, Fault, Stage};
use vs_outside::List;

impl Decoder {
    // The first byte after the `*`.
    pub(crate) fn star_byte(&mut self, byte: u8)
        ensures state { reader_of self.new ≡ taken self.old.fed self.old.ready.items (step true star byte) }
        ensures fed { self.new.fed ≡ self.old.fed }
    {
        if byte == b'-' {
            self.stage = Stage::Minus;
            return;
        }
        self.digits = 0;
        self.value = 0;
        self.count_byte(byte);
    }

    // A digit of a count, or what ends it.
    pub(crate) fn count_byte(&mut self, byte: u8)
        ensures state { reader_of self.new ≡ taken self.old.fed self.old.ready.items (count_step self.old.digits self.old.value byte) }
        ensures fed { self.new.fed ≡ self.old.fed }
    {
        if byte.is_ascii_digit() && self.digits < MAX_COUNT_DIGITS {
            let value = self.value * 10 + (byte - b'0') as u32;
            if value > MAX_MESSAGE_WORDS {
                self.fail(Fault::CountTooLarge);
                return;
            }
            self.digits += 1;
            self.sum = 0;
            self.value = value;
            self.stage = Stage::Count;
            return;
        }
        if self.digits > 0 && byte == b'\r' {
            self.stage = Stage::CountEnd;
            return;
        }
        self.fail(Fault::BadCount);
    }

    // The count's line is whole.
    pub(crate) fn begin_bulks(&mut self)
        ensures lost { self.new.stage ≡ Stage.Lost → self.new.ready.items ≡ self.old.ready.items }
        ensures state { NotLost self.new → reader_of self.new ≡ taken self.old.fed self.old.ready.items (begin_bulks self.old.value) }
        ensures fed { self.new.fed ≡ self.old.fed }
    {
        if self.value == 0 {
            self.stage = Stage::Start;
            return;
        }
        match self.spare.list((self.value as usize).min(1024)) {
            Ok(words) => {
                self.words = List::from_vec(words);
                self.left = self.value - 1;
                self.value = 0;
                self.sum = 0;
                self.stage = Stage::Bulk;
            }
            Err(_) => self.stage = Stage::Lost,
        }
    }
}
