//! Random words: the stream of a seed and a number, drawn in order.
#![tactic(auto)]

ghost use Rattle.std.specs.Prelude.{◌≡◌, IsOk, IfOk, OnErr};
ghost use Rattle.vs_session_defs.specs.Words.{generator as generator_of, drawn, after_draws};

use rand_core::utils::NextWord;
use rand_pcg::Lcg64Xsh32;
use std::alloc::Global;
use vs_outside::NoMemory;

/// The generator of a seed and a stream's number.
pub fn generator(seed: u64, number: u64) -> Lcg64Xsh32
    ensures { result ≡ generator_of seed number }
{
    Lcg64Xsh32::new(seed, number)
}

/// The next `count` words. A refusal draws nothing; to draw no words takes no memory.
pub fn draw(alloc: Global, generator: &mut Lcg64Xsh32, count: u32) -> Result<Vec<u32>, NoMemory>
    ensures words { IfOk result (λ words. words.items ≡ drawn count generator.old) }
    ensures moved { IfOk result (λ words. generator.new ≡ after_draws count generator.old) }
    ensures refused { OnErr result (generator.new ≡ generator.old) }
    ensures none { count ≡ 0 → IsOk result }
{
    if count == 0 {
        return Ok(Vec::new(alloc));
    }
    let mut words = Vec::with_capacity(alloc, count as usize)?;
    for _ in 0..count {
        words.push_reserved(generator.next_word());
    }
    Ok(words)
}
