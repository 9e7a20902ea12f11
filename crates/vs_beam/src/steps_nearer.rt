//! The walk of a descent within one layer: from neighbour to strictly nearer neighbour until none is nearer.
ghost use Rattle.std.specs.Prelude.{◌≡◌, ◌+◌, ◌*◌, ◌≤◌, ◌<◌, ℕ, [], length, IfSome, IfNone};
ghost use Rattle.vs_graph.specs.Good.{IsLinked, links_at};
ghost use Rattle.vs_beam.specs.Beam.{far_at, HasWords, IsNearestAround, Walks, IsNearer};

use std::sync::ledger::Ledger;
use vs_graph::{Nodes, Steps};
use vs_hamming::distance;
use vs_rank::Key;

/// The links of an id at a layer.
pub(crate) fn links<'a, N: Nodes, L: Ledger>(
    nodes: &'a N,
    layer: u8,
    id: u32,
    reads: &mut Steps<L>,
) -> &'a [u32]
    ensures links { result.now ≡ links_at (N.at nodes.entry.now) layer id }
    ensures told { reads.new ≡ reads.old + 1 }
{
    match nodes.get(id, reads) {
        Some(node) => vs_graph::links(node, layer),
        None => &[],
    }
}

/// How far a live id is from the query.
pub(crate) fn far<N: Nodes, L: Ledger>(
    nodes: &N,
    id: u32,
    query: &[u64],
    reads: &mut Steps<L>,
) -> u32
    requires few { length query.now ≤ 512 }
    requires live { HasWords (N.at nodes.now) (length query.now) id }
    ensures far { result ≡ far_at (N.at nodes.now) query.now id }
    ensures told { reads.new ≡ reads.old + 1 }
{
    distance(query, nodes.words(id, reads))
}

/// A neighbour at the layer that is strictly nearer.
fn nearer<N: Nodes, L: Ledger>(
    nodes: &N,
    layer: u8,
    here: u32,
    within: u32,
    query: &[u64],
    reads: &mut Steps<L>,
) -> Option<Key>
    requires few { length query.now ≤ 512 }
    requires live { (w : ℕ) → IsLinked (N.at nodes.now) layer here w → HasWords (N.at nodes.now) (length query.now) w }
    ensures found { IfSome result (λ key. IsNearer (N.at nodes.now) query.now layer here within key) }
    ensures none { IfNone result ((w : ℕ) → IsLinked (N.at nodes.now) layer here w → within ≤ far_at (N.at nodes.now) query.now w) }
    ensures told { reads.new ≤ reads.old + 1 + length (links_at (N.at nodes.now) layer here) }
{
    for id in links(nodes, layer, here, reads) {
        let dist = far(nodes, *id, query, reads);
        if dist < within {
            return Some(Key { dist, id: *id });
        }
    }
    None
}

/// Goes to a nearer neighbour until none is nearer.
pub fn walk<N: Nodes, L: Ledger>(
    nodes: &N,
    layer: u8,
    from: Key,
    query: &[u64],
    reads: &mut Steps<L>,
) -> Key
    requires few { length query.now ≤ 512 }
    requires live { (a w : ℕ) → IsLinked (N.at nodes.now) layer a w → HasWords (N.at nodes.now) (length query.now) w }
    requires start { from.dist ≡ far_at (N.at nodes.now) query.now from.id }
    ensures dist { result.dist ≡ far_at (N.at nodes.now) query.now result.id }
    ensures walked { Walks (N.at nodes.now) query.now layer from.id result.id }
    ensures nearest { IsNearestAround (N.at nodes.now) query.now layer result.id }
    ensures told { (most : ℕ) → ((id : ℕ) → length (links_at (N.at nodes.now) layer id) ≤ most) → reads.new + result.dist * (most + 1) ≤ reads.old + (from.dist + 1) * (most + 1) }
{
    let mut here = from;
    while let Some(next) = nearer(nodes, layer, here.id, here.dist, query, reads) {
        here = next;
    }
    here
}
