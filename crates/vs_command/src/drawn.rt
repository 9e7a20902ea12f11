//! What drawn words are taken for. A word has 32 bits. The rules are this project's own.
ghost use Rattle.std.specs.Prelude.{◌≡◌, ◌<◌, ◌≤◌, ◌^◌, ℕ, List as Items, All, IfOk, length, map, drop, take, min, unsigned_abs};
ghost use Rattle.std.specs.List.{range_with_len};
ghost use Rattle.vs_defs.specs.Bytes.{Bytes};
ghost use Rattle.vs_command.specs.Requests.{request_of};
ghost use Rattle.vs_defs.specs.Read.{draws as draws_of};
ghost use Rattle.vs_defs.specs.Limits.{max_level};
ghost use Rattle.vs_defs.specs.Draws.{level_of, place_of, name_at, picks as picks_of, shuffled};

use crate::Request;
use crate::limits::MAX_LEVEL;
use std::alloc::Global;
use std::collections::BTreeMap;
use vs_outside::{List, NoMemory};

/// How many drawn words a request takes: one for a VADD and for a random pick without a count, as many as the count says
/// either way for a random pick with one, and none for any other.
pub fn draws(request: &Request) -> u32
    ensures { result ≡ draws_of (request_of request.now) }
{
    match request {
        Request::Vadd(_) | Request::Vrandmember { count: None, .. } => 1,
        Request::Vrandmember {
            count: Some(count),
            ..
        } => count.unsigned_abs(),
        Request::Ping(_)
        | Request::Quit
        | Request::Del(_)
        | Request::Exists(_)
        | Request::Vrem { .. }
        | Request::Vsim(_)
        | Request::Vcard(_)
        | Request::Vdim(_)
        | Request::Vemb { .. }
        | Request::Vlinks { .. }
        | Request::Vinfo(_)
        | Request::Vgetattr { .. }
        | Request::Vsetattr { .. }
        | Request::Vismember { .. } => 0,
    }
}

/// The level of a new member.
pub fn level_of_word(word: u32) -> u8
    ensures level { result ≡ level_of word }
    ensures bound { result ≤ max_level }
{
    (word.trailing_zeros() / 2).min(MAX_LEVEL) as u8
}

/// The place that a word picks among `members` places.
pub fn place_of_word(word: u32, members: u32) -> u32
    ensures place { result ≡ place_of members word }
    ensures within { 0 < members → result < members }
{
    ((word as u64 * members as u64) >> 32) as u32
}

// Each word in turn picks one of the places from its own turn on; what stood at the turn then stands at the picked place. A place that
// isn't among the displaced ones stands for itself.
fn picks_once(alloc: Global, members: u32, words: &[u32]) -> Result<Vec<u32>, NoMemory>
    requires { length words.now ≤ members }
    ensures { IfOk result (λ v. v.items ≡ take (length words.now) (shuffled 0 (range_with_len 0 members) words.now)) }
{
    let mut displaced = BTreeMap::new(alloc);
    let mut picked = Vec::new(alloc);
    for (turn, word) in words.iter().enumerate() {
        let first = turn as u32;
        let place = first + place_of_word(*word, members - first);
        let moved = displaced.get(&first).copied().unwrap_or(first);
        picked.push(displaced.insert(place, moved)?.unwrap_or(place))?;
    }
    Ok(picked)
}

fn picks_anew(alloc: Global, members: u32, words: &[u32]) -> Result<Vec<u32>, NoMemory>
    ensures picks { IfOk result (λ v. v.items ≡ map (place_of members) words.now) }
    ensures within { 0 < members → IfOk result (λ v. All (λ i. i < members) v.items) }
{
    words
        .iter()
        .map(|word| place_of_word(*word, members))
        .collect(alloc)
}

/// The places of the members that a random pick with a count answers, in the order of the answer: with a count of 0 or
/// more, as many different ones as there are, at most the count; with a negative one, one for each word, anew. The memory
/// it takes grows with the words, not with the members.
pub fn picks(alloc: Global, count: i32, members: u32, words: &[u32]) -> Result<List<u32>, NoMemory>
    requires { length words.now ≡ unsigned_abs count }
    ensures picks { (names : Items Bytes) → length names ≡ members → IfOk result (λ places. map (λ i. name_at i names) places ≡ picks_of count names words.now) }
    ensures within { 0 < members → IfOk result (λ places. All (λ i. i < members) places) }
{
    let places = if count < 0 {
        picks_anew(alloc, members, words)?
    } else {
        let picked = words.len().min(members as usize);
        picks_once(alloc, members, &words[..picked])?
    };
    Ok(List::from_vec(places))
}
