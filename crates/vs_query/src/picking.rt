//! Random members.
ghost use Rattle.std.specs.Prelude.{◌≡◌, ◌<◌, [], length, unsigned_abs, IfOk};
ghost use Rattle.vs_defs.specs.Draws.{name_at, picks as picks_of};
ghost use Rattle.vs_defs.specs.PlainAnswer.{random_of};
ghost use Rattle.vs_defs.specs.Read.{draws as draws_of};
ghost use Rattle.vs_defs.specs.Request as request;
ghost use Rattle.vs_defs.specs.Store.{names_of};
ghost use Rattle.vs_command.specs.Answers.{answer_of};

use std::alloc::Global;
use vs_command::{Answer, picks, place_of_word};
use vs_graph::Nodes;
use vs_outside::{List, NoMemory, Text};
use vs_set::{Set, Snap};
use vs_truth::Members;

/// A copy of the name at a place.
fn name_copy<N: Nodes>(alloc: Global, snap: &Snap<N>, place: u32) -> Result<Text, NoMemory>
    requires { place < length snap.now.contents.members }
    ensures { IfOk result (λ name. name ≡ name_at place (names_of snap.now.contents.members)) }
{
    Text::from_slice(alloc, snap.name(place))
}

/// The names that the words pick, in the order of the picks. No other name is looked at.
fn picked_names<N: Nodes>(
    alloc: Global,
    snap: &Snap<N>,
    count: i32,
    words: &[u32],
) -> Result<List<Text>, NoMemory>
    requires some { 0 < length snap.now.contents.members }
    requires drawn { length words.now ≡ unsigned_abs count }
    ensures { IfOk result (λ names. names ≡ picks_of count (names_of snap.now.contents.members) words.now) }
{
    let places = picks(alloc, count, snap.count(), words)?;
    let mut names = Vec::with_capacity(alloc, places.len())?;
    for place in places.as_slice() {
        names.push_reserved(name_copy(alloc, snap, *place)?);
    }
    Ok(List::from_vec(names))
}

/// What VRANDMEMBER answers by these drawn words: names in the order of the picks, or one name where there is no count.
pub fn random<N: Nodes>(
    alloc: Global,
    set: &Set<N>,
    count: Option<i32>,
    words: &[u32],
) -> Result<Answer, NoMemory>
    requires some { 0 < length set.now.contents.members }
    requires drawn { length words.now ≡ draws_of (request.Vrandmember [] count) }
    ensures { IfOk result (λ answer. answer_of answer ≡ random_of count words.now set.now.contents) }
{
    let snap = set.snapshot()?;
    match count {
        None => {
            let place = place_of_word(words[0], snap.count());
            Ok(Answer::Bulk(name_copy(alloc, &snap, place)?))
        }
        Some(count) => Ok(Answer::Names(picked_names(alloc, &snap, count, words)?)),
    }
}
