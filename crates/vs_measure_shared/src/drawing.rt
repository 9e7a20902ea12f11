//! Members that are drawn from two streams of the seed: 0 has the levels, 1 the vectors, each bit drawn for itself.
ghost use Rattle.std.specs.Prelude.{IfOk};
ghost use Rattle.vs_defs.specs.Bounds.{IsInBounds};
ghost use Rattle.vs_command.specs.Requests.{request_of};

use crate::case::{Case, Way};
use crate::error::MeasureError;
use crate::requests::{push_word, request_by};
use rand_core::utils::NextWord;
use rand_pcg::Lcg64Xsh32;
use std::alloc::Global;
use vs_command::Request;
use vs_outside::{List, NoMemory, Text};

/// The streams, and how many members were drawn.
#[derive(Drop)]
pub struct Drawn {
    levels: Lcg64Xsh32,
    vectors: Lcg64Xsh32,
    count: u64,
}

/// So many components, each 1 or -1, after the words so far.
fn push_components(
    alloc: Global,
    words: &mut List<Text>,
    dim: u32,
    source: &mut Lcg64Xsh32,
) -> Result<(), NoMemory> {
    for _ in 0..dim {
        let sign = if source.next_word() >> 31 == 1 {
            "1"
        } else {
            "-1"
        };
        push_word(alloc, words, sign)?;
    }
    Ok(())
}

/// Puts a name of an option and its number last.
fn push_option(
    alloc: Global,
    words: &mut List<Text>,
    name: &str,
    number: u32,
) -> Result<(), NoMemory> {
    push_word(alloc, words, name)?;
    push_word(alloc, words, format!(in alloc; "{number}")?.as_str())
}

impl Drawn {
    /// The streams of a seed.
    pub fn new(seed: u64) -> Drawn {
        Drawn {
            levels: Lcg64Xsh32::new(seed, 0),
            vectors: Lcg64Xsh32::new(seed, 1),
            count: 0,
        }
    }

    /// The word of which a member takes its level: the next one of the stream, or the least of a level that is given.
    pub fn word(&mut self, level: Option<u8>) -> u32 {
        match level {
            None => self.levels.next_word(),
            Some(level) => 1 << (2 * u32::from(level.min(15))),
        }
    }

    /// The addition of the next member.
    pub fn addition(
        &mut self,
        alloc: Global,
        case: &Case,
        way: Way,
    ) -> Result<Request, MeasureError>
        ensures { IfOk result (λ r. IsInBounds (request_of r)) }
    {
        let mut words = List::new(alloc);
        push_word(alloc, &mut words, "VADD")?;
        push_word(alloc, &mut words, "k")?;
        push_option(alloc, &mut words, "VALUES", case.dim)?;
        push_components(alloc, &mut words, case.dim, &mut self.vectors)?;
        push_word(
            alloc,
            &mut words,
            format!(in alloc; "m{}", self.count)?.as_str(),
        )?;
        push_option(alloc, &mut words, "EF", case.ef)?;
        push_option(alloc, &mut words, "M", case.m)?;
        if way == Way::Draft {
            push_word(alloc, &mut words, "CAS")?;
        }
        self.count = self.count.saturating_add(1);
        request_by(alloc, words.as_slice())
    }
}
