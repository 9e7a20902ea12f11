//! The same search of a snapshot and of a graph: ten of the nearest by a beam of width 10, from where a descent to the layer above the lowest
//! stopped.
ghost use Rattle.std.specs.Prelude.{◌≡◌, ◌<◌, length};
ghost use mathlib.Core.HProp.{IsProp-prop};
ghost use Rattle.vs_rank.specs.Tests.{AnswersOne};

use std::alloc::Global;
use std::sync::ledger::Ledger;
use vs_beam::{Beam, beam, descend};
use vs_bits::Bits;
use vs_graph::{Graph, Nodes, Steps};
use vs_outside::{List, NoMemory};
use vs_rank::{Everyone, Testing, Wanted};
use vs_set::Snap;
use vs_slot::Slot;
use vs_truth::{Hit, Members};

/// Those that pass a test.
fn near_by<N: Nodes, F: Testing + Drop, L: Ledger>(
    snap: &Snap<N>,
    bits: &Bits,
    test: F,
    slot: &mut Slot,
    reads: &mut Steps<L>,
) -> Result<List<Hit>, NoMemory>
    requires single { IsProp (F.ready test) }
    requires callable { F.ready test }
    requires answers { AnswersOne (F.gives test) }
    requires some { 0 < length snap.now.contents.members }
    requires dim { length bits.now ≡ snap.now.contents.dim }
{
    let wanted = Wanted::new(test);
    snap.near(bits, 10, 10, 0, &wanted, slot, reads)
}

/// Searches a snapshot; none where it has no member, or another dimension.
pub fn search_snap<N: Nodes, L: Ledger>(
    snap: &Snap<N>,
    bits: &Bits,
    slot: &mut Slot,
    reads: &mut Steps<L>,
) -> Result<Option<List<Hit>>, NoMemory> {
    if snap.count() == 0 || snap.dim() != bits.dim() {
        return Ok(None);
    }
    let hits = near_by(snap, bits, Everyone, slot, reads)?;
    Ok(Some(hits))
}

/// A descent and a beam of those that pass a test; none in an empty graph.
fn beam_by<N: Nodes, F: Testing + Drop, L: Ledger>(
    alloc: Global,
    graph: &Graph<N>,
    bits: &Bits,
    test: F,
    slot: &mut Slot,
    reads: &mut Steps<L>,
) -> Result<Option<Beam>, NoMemory>
    requires single { IsProp (F.ready test) }
    requires callable { F.ready test }
    requires answers { AnswersOne (F.gives test) }
    requires dim { length bits.now ≡ graph.now.dim }
{
    let words = bits.words();
    let Some(descent) = descend(graph, words, 1, reads) else {
        return Ok(None);
    };
    let wanted = Wanted::new(test);
    let from = descent.start;
    let found = beam(alloc, graph, 0, from, words, 10, 0, &wanted, slot, reads)?;
    Ok(Some(found))
}

/// Searches a graph; none where it is empty, or of another dimension.
pub fn search_graph<N: Nodes, L: Ledger>(
    alloc: Global,
    graph: &Graph<N>,
    bits: &Bits,
    slot: &mut Slot,
    reads: &mut Steps<L>,
) -> Result<Option<Beam>, NoMemory> {
    if graph.dim() != bits.dim() {
        return Ok(None);
    }
    let any = |_attr: Option<&[u8]>| true;
    beam_by(alloc, graph, bits, any, slot, reads)
}
