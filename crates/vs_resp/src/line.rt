//! Inline lines.
ghost use Rattle.std.specs.Prelude.{true, ◌≡◌, [], ◌++◌};
ghost use Rattle.vs_defs.specs.Stream.{without_return};
ghost use Rattle.vs_stream.specs.Machine.{start, step, line_step, one_word};
ghost use Rattle.vs_stream.specs.Reader.{reading, worded, taken};
ghost use Rattle.vs_resp.specs.Stands.{reader_of, NotLost};

use crate::limits::MAX_LINE_BYTES;
use crate::{Decoder, Fault, Stage};
use std::mem;
use vs_outside::{List, Text};

impl Decoder {
    // The first byte of a message.
    pub(crate) fn first_byte(&mut self, byte: u8)
        ensures state { NotLost self.new → reader_of self.new ≡ taken self.old.fed self.old.ready.items (step true start byte) }
        ensures lost { self.new.stage ≡ Stage.Lost → self.new.ready.items ≡ self.old.ready.items }
        ensures fed { self.new.fed ≡ self.old.fed }
    {
        if byte == b'*' {
            self.stage = Stage::Star;
            return;
        }
        self.value = 0;
        self.words = List::new(self.alloc);
        self.word = Vec::new(self.alloc);
        self.line_byte(byte);
    }

    // A byte of an inline line.
    pub(crate) fn line_byte(&mut self, byte: u8)
        ensures state { NotLost self.new → reader_of self.new ≡ taken self.old.fed self.old.ready.items (line_step self.old.value self.old.words self.old.word.items byte) }
        ensures lost { self.new.stage ≡ Stage.Lost → self.new.ready.items ≡ self.old.ready.items }
        ensures fed { self.new.fed ≡ self.old.fed }
    {
        if byte == b'\n' {
            self.end_line();
            return;
        }
        if self.value >= MAX_LINE_BYTES {
            self.fail(Fault::InlineTooLong);
            return;
        }
        self.sum = 0;
        self.value += 1;
        self.stage = Stage::Line;
        if byte == b' ' {
            self.end_run();
            return;
        }
        if self.word.push(byte).is_err() {
            self.stage = Stage::Lost;
        }
    }

    // A run of an inline line is whole; an empty one is no word.
    fn end_run(&mut self)
        ensures words { NotLost self.new → self.new.words ≡ self.old.words ++ one_word self.old.word.items }
        ensures word { NotLost self.new → self.new.word.items ≡ [] }
        ensures stage { NotLost self.new → self.new.stage ≡ self.old.stage }
        ensures same { (self.new.value ≡ self.old.value) × (self.new.ready.items ≡ self.old.ready.items) × (self.new.fed ≡ self.old.fed) }
    {
        if self.word.len() == 0 {
            return;
        }
        let word = Text::from_vec(mem::replace(&mut self.word, Vec::new(self.alloc)));
        if self.words.push(word).is_err() {
            self.stage = Stage::Lost;
        }
    }

    // The inline line is whole.
    fn end_line(&mut self)
        ensures state { NotLost self.new → reader_of self.new ≡ reading (self.old.ready.items ++ worded (self.old.words ++ one_word (without_return self.old.word.items))) start }
        ensures lost { self.new.stage ≡ Stage.Lost → self.new.ready.items ≡ self.old.ready.items }
        ensures fed { self.new.fed ≡ self.old.fed }
    {
        self.drop_return();
        self.stage = Stage::Line;
        self.end_run();
        if self.stage == Stage::Lost {
            return;
        }
        self.give();
    }

    // Without one carriage return at the end.
    fn drop_return(&mut self)
        ensures word { self.new.word.items ≡ without_return self.old.word.items }
        ensures same { (self.new.words ≡ self.old.words) × (self.new.value ≡ self.old.value) × (self.new.ready.items ≡ self.old.ready.items) × (self.new.fed ≡ self.old.fed) }
    {
        let len = self.word.len();
        if len == 0 {
            return;
        }
        if self.word[len - 1] != b'\r' {
            return;
        }
        self.word.truncate(len - 1);
    }
}
