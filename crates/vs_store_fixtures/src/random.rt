//! Numbers without a pattern, the same at each run.
ghost use Rattle.std.specs.Prelude.{◌<◌};

use vs_command::place_of_word;
use vs_graph_fixtures::word_at;

/// A row of numbers, at the place where it is read next.
#[derive(Drop)]
pub struct Random {
    place: u64,
}

impl Random {
    pub fn new() -> Random {
        Random { place: 0 }
    }

    pub fn word(&mut self) -> u32 {
        let word = word_at(self.place);
        self.place = self.place.wrapping_add(1);
        (word >> 32) as u32
    }

    /// A number below this one.
    pub fn below(&mut self, count: u32) -> u32
        requires { 0 < count }
        ensures { result < count }
    {
        place_of_word(self.word(), count)
    }

    /// True once in so many times.
    pub fn is_one_in(&mut self, count: u32) -> bool
        requires { 0 < count }
    {
        self.below(count) == 0
    }
}
