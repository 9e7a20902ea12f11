//! Hits with the names of their members.
ghost use Rattle.std.specs.Prelude.{◌≡◌, ◌<◌, All, cond, None, length, map, slice_get, IfOk, IsSomeAnd};
ghost use Rattle.vs_command.specs.Answers.{hit_of, hits_of};
ghost use Rattle.vs_query.specs.Found.{hit_at};

use std::alloc::Global;
use vs_command::NamedHit;
use vs_graph::Nodes;
use vs_outside::{List, NoMemory, Text};
use vs_set::Snap;
use vs_truth::{Hit, Members};

/// The attribute of the member at a place. It isn't looked at where attributes aren't asked for.
fn shown_attr<N: Nodes>(
    alloc: Global,
    snap: &Snap<N>,
    place: u32,
    attrs: bool,
) -> Result<Option<Text>, NoMemory>
    requires { place < length snap.now.contents.members }
    ensures { IfOk result (λ shown. IsSomeAnd (slice_get snap.now.contents.members place) (λ x. shown ≡ cond attrs x.attr None)) }
{
    if !attrs {
        return Ok(None);
    }
    match snap.attr(place) {
        Some(text) => Ok(Some(Text::from_slice(alloc, text)?)),
        None => Ok(None),
    }
}

fn named_hit<N: Nodes>(
    alloc: Global,
    snap: &Snap<N>,
    hit: Hit,
    attrs: bool,
) -> Result<NamedHit, NoMemory>
    requires { hit.place < length snap.now.contents.members }
    ensures { IfOk result (λ named. hit_of named ≡ hit_at attrs snap.now.contents.members hit) }
{
    let name = Text::from_slice(alloc, snap.name(hit.place))?;
    let attr = shown_attr(alloc, snap, hit.place, attrs)?;
    Ok(NamedHit {
        name,
        dist: hit.dist,
        attr,
    })
}

/// The hits with their members' names, in their order, and with the attributes where they are asked for.
pub(crate) fn named<N: Nodes>(
    alloc: Global,
    snap: &Snap<N>,
    hits: &[Hit],
    attrs: bool,
) -> Result<List<NamedHit>, NoMemory>
    requires { All (λ hit. hit.place < length snap.now.contents.members) hits.now }
    ensures { IfOk result (λ named. hits_of named ≡ map (hit_at attrs snap.now.contents.members) hits.now) }
{
    let mut named = Vec::with_capacity(alloc, hits.len())?;
    for hit in hits {
        named.push_reserved(named_hit(alloc, snap, *hit, attrs)?);
    }
    Ok(List::from_vec(named))
}
