//! Sets that are grown member by member.
use std::alloc::Global;
use vs_bits::Add;
use vs_graph::Nodes;
use vs_graph_fixtures::word_at;
use vs_insert_tests::{NewMember, bits_of, member};
use vs_outside::{NoMemory, Text};
use vs_set::Set;
use vs_slot::Slot;

/// The member of a number and a name, without a pattern: three of four stay at the level below.
pub fn numbered<'a>(name: &'a [u8], number: u16) -> NewMember<'a> {
    let word = word_at(u64::from(number));
    member(name, word, (word.trailing_zeros() / 2).min(15) as u8)
}

/// Adds a member without an attribute, by beams of width 8. False where its name is taken, where there is no room, or where the dimension
/// is more than 64.
pub fn add_to<N: Nodes>(
    alloc: Global,
    set: &mut Set<N>,
    one: NewMember<'_>,
    slot: &mut Slot,
) -> Result<bool, NoMemory> {
    let dim = set.dim();
    if dim == 0 || dim > 64 || set.count() >= 1_048_576 {
        return Ok(false);
    }
    let add = Add {
        key: Text::new(alloc),
        name: Text::from_slice(alloc, one.name)?,
        bits: bits_of(alloc, dim, one.word)?,
        cas: false,
        ef: 8,
        m: None,
        attr: None,
    };
    set.add(&add, one.level.min(15), 0, slot)
}
