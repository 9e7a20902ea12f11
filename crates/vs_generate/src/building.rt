//! The store of the generated members: each request is read from its words, and carried out with the next word of stream 0, so the members
//! stand in the set in their order.
ghost use Rattle.std.specs.Prelude.{◌≡◌, ◌≤◌, IfOk, OnOk, length, pos};
ghost use Rattle.vs_command.specs.Readings.{AreShort};
ghost use Rattle.vs_defs.specs.Bounds.{IsFrom};
ghost use Rattle.vs_defs.specs.Request as request;
ghost use Rattle.vs_session_defs.specs.Words.{drawn, after_draws};
ghost use Rattle.vs_generate.specs.Grown.{AddsOne, IsGrown};

use rand_pcg::Lcg64Xsh32;
use std::alloc::{AllocError, Global};
use vs_command::{Answer, Request, draws, read_request};
use vs_gen::generated;
use vs_outside::{List, NoMemory, Text};
use vs_random_words::{draw, generator};
use vs_slot::Slot;
use vs_store::{Limits, Store};

// Adds the member of these words. Any answer but that it is new, which none is, is taken for want of memory.
fn add_member(
    alloc: Global,
    store: &mut Store,
    words: &List<Text>,
    levels: &mut Lcg64Xsh32,
    slot: &mut Slot,
) -> Result<(), NoMemory>
    requires some { 1 ≤ length words.now }
    requires short { AreShort words.now }
    ensures added { OnOk result (AddsOne store.old words.now (drawn 1 levels.old) (request.Int (pos 1)) store.new) }
    ensures drawn { OnOk result (levels.new ≡ after_draws 1 levels.old) }
{
    let Ok(request) = read_request(alloc, words.as_slice()) else {
        return Err(AllocError);
    };
    let Request::Vadd(_) = &request else {
        return Err(AllocError);
    };
    let word = draw(alloc, levels, draws(&request))?;
    let Ok(Answer::Int(number)) = store.do_now(0, &request, word.as_slice(), slot) else {
        return Err(AllocError);
    };
    if number != 1 {
        return Err(AllocError);
    }
    Ok(())
}

/// The store of so many members.
pub fn build(
    alloc: Global,
    seed: u64,
    members: u32,
    dim: u32,
    slot: &mut Slot,
) -> Result<Store, NoMemory>
    requires { IsFrom 1 4096 dim }
    ensures { IfOk result (λ store. IsGrown seed members dim store) }
{
    let mut store = Store::new(alloc, Limits::usual());
    let mut levels = generator(seed, 0);
    let mut generator = generated(alloc, seed, members, dim);
    while let Some(words) = generator.next_words()? {
        add_member(alloc, &mut store, &words, &mut levels, slot)?;
    }
    Ok(store)
}
