//! Members as words of a request and of an answer.
use crate::plain::Member;
use std::alloc::Global;
use vs_outside::{List, NoMemory};

/// The components of a vector as signs.
pub fn signs_of(alloc: Global, member: &Member) -> Result<String, NoMemory> {
    let mut shown = String::new(alloc);
    let mut rest = member.vector;
    for _component in 0..member.dim {
        shown.push_str(if rest & 1 == 1 { "+" } else { "-" })?;
        rest >>= 1;
    }
    Ok(shown)
}

/// The components of a vector as words, each with a blank before it.
pub fn component_words(alloc: Global, dim: u32, vector: u32) -> Result<String, NoMemory> {
    let mut words = String::new(alloc);
    let mut rest = vector;
    for _component in 0..dim {
        words.push_str(if rest & 1 == 1 { " 0.5" } else { " -1" })?;
        rest >>= 1;
    }
    Ok(words)
}

/// The text of the attribute of a number.
pub fn attribute_of(alloc: Global, number: u8) -> Result<String, NoMemory> {
    Ok(format!(in alloc; "{{\"n\":{number}}}")?)
}

/// The least drawn word that picks a place among so many.
fn word_for(place: u32, members: u32) -> u32 {
    let members = u64::from(members).max(1);
    let word = (u64::from(place) << 32).saturating_add(members - 1) / members;
    u32::try_from(word).unwrap_or(u32::MAX)
}

/// For each place among so many a drawn word that picks it, in their order.
pub fn words_for(alloc: Global, members: u32) -> Result<List<u32>, NoMemory> {
    let mut words = List::new(alloc);
    for place in 0..members {
        words.push(word_for(place, members))?;
    }
    Ok(words)
}
