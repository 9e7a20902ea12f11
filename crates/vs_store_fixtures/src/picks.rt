//! What VRANDMEMBER picks by its drawn words, as it is shown.
use crate::plain::Member;
use std::alloc::Global;
use vs_command::place_of_word;
use vs_outside::{List, NoMemory};

/// Picks without repetition: each word takes one of those that are left, and the first of these takes its place.
pub fn picked(alloc: Global, members: &[Member], words: &[u32]) -> Result<String, NoMemory> {
    let mut rest = List::from_slice(alloc, members)?.into_vec();
    let mut shown = String::new(alloc);
    for word in words {
        let left = rest.len();
        if left > 0 {
            let place = (u64::from(*word) * (left as u64 & 0xFFFF_FFFF) >> 32) as usize;
            rest.swap(0, place.min(left - 1));
            let member = rest.remove(0);
            shown.push_str(format!(in alloc; " {}", member.name as char)?.as_str())?;
        }
    }
    Ok(shown)
}

/// Picks where each word takes one of all.
pub fn picked_again(alloc: Global, members: &[Member], words: &[u32]) -> Result<String, NoMemory> {
    let mut shown = String::new(alloc);
    for word in words {
        let count = u32::try_from(members.len()).unwrap_or(u32::MAX);
        if let Some(member) = members.get(place_of_word(*word, count) as usize) {
            shown.push_str(format!(in alloc; " {}", member.name as char)?.as_str())?;
        }
    }
    Ok(shown)
}
