//! The links of a member.
ghost use Rattle.std.specs.Prelude.{◌≡◌, ◌≤◌, false, Some, map, slice_get, IfOk, IsSomeAnd};
ghost use Rattle.vs_defs.specs.Answers.{layer_hits, links_answer};
ghost use Rattle.vs_defs.specs.Beam.{layers_down};
ghost use Rattle.vs_command.specs.Answers.{answer_of, hits_of};
ghost use Rattle.vs_command.specs.Scores.{HasScores};

use crate::hits::named;
use std::alloc::Global;
use vs_command::{Answer, NamedHit};
use vs_graph::Nodes;
use vs_outside::{List, NoMemory};
use vs_set::{Set, Snap};

/// Those that the member at a place is linked to at a layer, by distance, then name.
fn layer_at<N: Nodes>(
    alloc: Global,
    snap: &Snap<N>,
    place: u32,
    layer: u8,
) -> Result<List<NamedHit>, NoMemory>
    requires { IsSomeAnd (slice_get snap.now.contents.members place) (λ x. layer ≤ x.level) }
    ensures { IfOk result (λ hits. IsSomeAnd (slice_get snap.now.contents.members place) (λ x. hits_of hits ≡ layer_hits snap.now x.name x.bits layer)) }
{
    let _dim = snap.dim();
    let hits = snap.links(place, layer)?;
    named(alloc, snap, hits.as_slice(), false)
}

/// The same at each layer, from the member's level down to 0.
fn layers_at<N: Nodes>(
    alloc: Global,
    snap: &Snap<N>,
    place: u32,
    level: u8,
) -> Result<List<List<NamedHit>>, NoMemory>
    requires { IsSomeAnd (slice_get snap.now.contents.members place) (λ x. level ≡ x.level) }
    ensures { IfOk result (λ layers. IsSomeAnd (slice_get snap.now.contents.members place) (λ x. map hits_of layers ≡ map (layer_hits snap.now x.name x.bits) (layers_down x.level 0))) }
{
    let mut layers = List::new(alloc);
    for depth in 0..=level {
        layers.push(layer_at(alloc, snap, place, level - depth)?)?;
    }
    Ok(layers)
}

/// What VLINKS answers: at each layer from the member's level down to 0 those that it is linked to, by distance, then name. A null list where
/// the name is no member.
pub fn links<N: Nodes>(
    alloc: Global,
    set: &Set<N>,
    name: &[u8],
    scores: bool,
) -> Result<Answer, NoMemory>
    ensures answer { IfOk result (λ answer. answer_of answer ≡ links_answer (Some set.now) name.now scores) }
    ensures scores { IfOk result HasScores }
{
    let Some(place) = set.place_of(name) else {
        return Ok(Answer::NullList);
    };
    let snap = set.snapshot()?;
    let dim = snap.dim();
    let layers = layers_at(alloc, &snap, place, snap.level(place))?;
    Ok(Answer::Layers {
        dim,
        scores,
        layers,
    })
}
