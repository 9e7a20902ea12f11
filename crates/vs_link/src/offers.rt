//! One offer: a member with room takes the new one, a full one takes it only in place of a farther neighbour that has another link; and the
//! forced link of a member that nobody took (this project's rules).
ghost use Rattle.std.specs.Prelude.{◌≡◌, ◌≢◌, ◌<◌, ◌≤◌, ◌+◌, ◌*◌, ◌==◌, ◌&&◌, not, false, ℕ, Some, None, IsSome, IfSome, IfOk, OnOk, length};
ghost use Rattle.vs_graph.specs.Edits.{overwritten};
ghost use Rattle.vs_graph.specs.Good.{links_at, links_of, body_at, layers_at};
ghost use Rattle.vs_graph.specs.Bodies.{words_at, AreAlike};
ghost use Rattle.vs_link.specs.Picks.{farthest};
ghost use Rattle.vs_graph.specs.Table.{is_in};
ghost use Rattle.vs_graph.specs.GoodTable.{IsGoodTable};
ghost use Rattle.vs_graph.specs.Relinks.{RelinksBy};
ghost use Rattle.vs_link.specs.Linked.{giving_way, accepted, forced_at};

use crate::changes::{displace, join};
use crate::scan::{farthest_of, survey};
use std::alloc::Global;
use std::sync::ledger::Ledger;
use vs_graph::{Edit, Node, Nodes, Steps, degree, links, live_copy, live_node};
use vs_hamming::distance;
use vs_outside::NoMemory;

/// The farthest neighbour of `y`, where it is farther than `x` and has another link.
fn yielding<N: Nodes, L: Ledger>(
    edit: &Edit,
    base: &N,
    x: u32,
    y: u32,
    own: &Node,
    layer: u8,
    reads: &mut Steps<L>,
) -> Option<u32>
    requires alike { AreAlike (body_at (overwritten edit.now (N.at base.now))) }
    requires good { (most : ℕ) × IsGoodTable (layers_at (overwritten edit.now (N.at base.now))) layer most (links_at (overwritten edit.now (N.at base.now)) layer) }
    requires there { overwritten edit.now (N.at base.now) y ≡ Some own.now }
    requires live { IsSome (overwritten edit.now (N.at base.now) x) }
    ensures value { result ≡ giving_way (body_at (overwritten edit.now (N.at base.now))) (links_at (overwritten edit.now (N.at base.now)) layer) x y
        (farthest (body_at (overwritten edit.now (N.at base.now))) y (links_at (overwritten edit.now (N.at base.now)) layer y)) }
    ensures told { reads.new ≡ reads.old + length (links_of own.now layer) + 1 }
{
    let words = own.body.bits();
    let near = distance(words, live_node(edit, base, x, reads).body.bits());
    match farthest_of(edit, base, words, links(own, layer), reads) {
        Some(far) if near < far.dist && degree(far.node, layer) > 1 => Some(far.id),
        _ => None,
    }
}

/// Offers `x` to `y`, and answers whether it was taken.
pub(crate) fn accept<N: Nodes, L: Ledger>(
    alloc: Global,
    edit: &mut Edit,
    base: &N,
    x: u32,
    y: u32,
    layer: u8,
    most: usize,
    reads: &mut Steps<L>,
) -> Result<bool, NoMemory>
    requires alike { AreAlike (body_at (overwritten edit.old (N.at base.now))) }
    requires good { IsGoodTable (layers_at (overwritten edit.old (N.at base.now))) layer most (links_at (overwritten edit.old (N.at base.now)) layer) }
    requires x_stands { layer < layers_at (overwritten edit.old (N.at base.now)) x }
    requires y_stands { layer < layers_at (overwritten edit.old (N.at base.now)) y }
    requires other { x ≢ y }
    requires apart { is_in (links_at (overwritten edit.old (N.at base.now)) layer) x y ≡ false }
    ensures links { OnOk result (RelinksBy (N.at base.now) edit.old edit.new layer
        (λ t. accepted (body_at (overwritten edit.old (N.at base.now))) most x t y)) }
    ensures taken { IfOk result (λ taken. (length (links_at (overwritten edit.new (N.at base.now)) layer x) == 0) ≡ ((length (links_at (overwritten edit.old (N.at base.now)) layer x) == 0) && not taken)) }
    ensures told { reads.new ≤ reads.old + (most + 4) }
{
    let own = live_copy(alloc, edit, base, y, reads)?;
    if degree(&own, layer) < most {
        join(alloc, edit, base, x, y, own, layer, reads)?;
        return Ok(true);
    }
    match yielding(edit, base, x, y, &own, layer, reads) {
        Some(w) => {
            displace(alloc, edit, base, x, y, own, w, layer, reads)?;
            Ok(true)
        }
        None => Ok(false),
    }
}

/// Joins `x` by force, `y` being whom it is to join.
pub(crate) fn force<N: Nodes, L: Ledger>(
    alloc: Global,
    edit: &mut Edit,
    base: &N,
    x: u32,
    y: u32,
    layer: u8,
    most: usize,
    reads: &mut Steps<L>,
) -> Result<(), NoMemory>
    requires alike { AreAlike (body_at (overwritten edit.old (N.at base.now))) }
    requires good { IsGoodTable (layers_at (overwritten edit.old (N.at base.now))) layer most (links_at (overwritten edit.old (N.at base.now)) layer) }
    requires x_stands { layer < layers_at (overwritten edit.old (N.at base.now)) x }
    requires y_stands { layer < layers_at (overwritten edit.old (N.at base.now)) y }
    ensures links { OnOk result (RelinksBy (N.at base.now) edit.old edit.new layer
        (λ t. forced_at (body_at (overwritten edit.old (N.at base.now))) most t x y)) }
    ensures told { reads.new ≤ reads.old + (most + 4) }
{
    let own = live_copy(alloc, edit, base, y, reads)?;
    if degree(&own, layer) < most {
        return join(alloc, edit, base, x, y, own, layer, reads);
    }
    let from = own.body.bits();
    let to = live_node(edit, base, x, reads).body.bits();
    let found = survey(edit, base, from, to, links(&own, layer), layer, most, reads);
    match (found.roomy, found.farthest) {
        (Some(z), _) => {
            let other = live_copy(alloc, edit, base, z, reads)?;
            join(alloc, edit, base, x, z, other, layer, reads)
        }
        (None, Some(w)) => displace(alloc, edit, base, x, y, own, w, layer, reads),
        (None, None) => Ok(()),
    }
}
