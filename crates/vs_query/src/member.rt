//! What a set tells of one member.
ghost use Rattle.std.specs.Prelude.{◌≡◌, ◌<◌, Some, length, slice_get, IfOk, IsSomeAnd};
ghost use Rattle.vs_defs.specs.PlainAnswer.{at_member, bulk_or_null};
ghost use Rattle.vs_defs.specs.Request as request;
ghost use Rattle.vs_command.specs.Answers.{answer_of};

use crate::vector::{bits_at, signs_of};
use std::alloc::Global;
use std::marker::Brand;
use std::sync::ledger::{Blank, Ledger};
use vs_command::Answer;
use vs_graph::{Nodes, Steps};
use vs_outside::{List, NoMemory, Text};
use vs_set::{Set, Snap};
use vs_truth::Members;

/// The signs of the vector of the member at a place. It has a counter of its own.
fn signs_at<N: Nodes, L: Ledger>(
    alloc: Global,
    snap: &Snap<N>,
    place: u32,
    blank: Blank,
) -> Result<List<bool>, NoMemory>
    requires place { place < length snap.now.contents.members }
    requires name { blank.name ≡ L.name }
    requires parts { blank.parts ≡ L.parts }
    requires some { 0 < L.parts }
    ensures { IfOk result (λ signs. IsSomeAnd (slice_get snap.now.contents.members place) (λ x. signs ≡ x.bits)) }
{
    let mut reads = Steps::<L>::new(blank);
    let bits = bits_at(alloc, snap, place, &mut reads)?;
    signs_of(alloc, &bits)
}

/// What VEMB answers: the signs of the member's vector, or a null list where the name is no member.
pub fn embedding<N: Nodes>(alloc: Global, set: &Set<N>, name: &[u8]) -> Result<Answer, NoMemory>
    ensures { IfOk result (λ answer. answer_of answer ≡ at_member (Some set.now.contents) name.now request.NullList (λ y. request.Signs y.bits)) }
{
    let Some(place) = set.place_of(name) else {
        return Ok(Answer::NullList);
    };
    let snap = set.snapshot()?;
    let signs = signs_at::<N, Brand>(alloc, &snap, place, Blank::new(1))?;
    Ok(Answer::Signs(signs))
}

/// What VGETATTR answers: the member's attribute, or a null text where it has none or the name is no member.
pub fn attribute<N: Nodes>(alloc: Global, set: &Set<N>, name: &[u8]) -> Result<Answer, NoMemory>
    ensures { IfOk result (λ answer. answer_of answer ≡ at_member (Some set.now.contents) name.now request.NullText (λ y. bulk_or_null y.attr)) }
{
    let Some(place) = set.place_of(name) else {
        return Ok(Answer::NullText);
    };
    let snap = set.snapshot()?;
    match snap.attr(place) {
        None => Ok(Answer::NullText),
        Some(text) => Ok(Answer::Bulk(Text::from_slice(alloc, text)?)),
    }
}
