//! A beam finds the same whatever the epoch of its slot is: before the last one, at it, and after the marks began anew.
ghost use Rattle.std.specs.Prelude.{◌≡◌, ◌<◌};

use std::alloc::Global;
use std::marker::Brand;
use std::process::Abort;
use std::sync::ledger::{Blank, Ledger};
use vs_graph::{Graph, ListNodes, Steps};
use vs_graph_fixtures::{grown, search_all, word_at};
use vs_outside::{List, NoMemory};
use vs_rank::Key;
use vs_slot::Slot;

/// What a beam of width 10 finds.
fn found<A: Abort, L: Ledger>(
    rt: &A,
    alloc: Global,
    graph: &Graph<ListNodes>,
    word: u64,
    slot: &mut Slot,
    reads: &mut Steps<L>,
) -> Result<List<Key>, NoMemory>
    requires { graph.now.dim ≡ 64 }
{
    match search_all(alloc, graph, &[word], 10, slot, reads)? {
        Some(beam) => Ok(beam.found),
        None => panic!(rt; "the graph is empty"),
    }
}

/// Asserts that two searches found the same.
fn assert_same<A: Abort>(rt: &A, one: &[Key], other: &[Key], epoch: u32) {
    assert_eq!(rt; one.len(), 10);
    assert_eq!(rt; other.len(), 10);
    for (key, again) in one.iter().zip(other) {
        assert!(rt;
            key.id == again.id && key.dist == again.dist,
            "from epoch {epoch}"
        );
    }
}

/// Four beams in turn by a slot that begins at an epoch, each beside one by a slot of its own.
fn beams_from<A: Abort, L: Ledger>(
    rt: &A,
    alloc: Global,
    graph: &Graph<ListNodes>,
    epoch: u32,
    reads: &mut Steps<L>,
) -> Result<(), NoMemory>
    requires { graph.now.dim ≡ 64 }
{
    let mut worn = Slot::with_epoch(alloc, epoch, 60)?;
    for number in 0..4 {
        let word = word_at(1_000 + number / 2);
        let by_worn = found(rt, alloc, graph, word, &mut worn, reads)?;
        let by_fresh = found(rt, alloc, graph, word, &mut Slot::new(alloc), reads)?;
        assert_same(rt, by_worn.as_slice(), by_fresh.as_slice(), epoch);
    }
    Ok(())
}

fn epochs_by<A: Abort, L: Ledger>(rt: &A, alloc: Global, blank: Blank) -> Result<(), NoMemory>
    requires name { blank.name ≡ L.name }
    requires parts { blank.parts ≡ L.parts }
    requires some { 0 < L.parts }
{
    let mut reads = Steps::<L>::new(blank);
    let mut slot = Slot::new(alloc);
    let graph: Graph<ListNodes> = grown(alloc, 60, &mut slot, &mut reads)?;
    for epoch in [0, 4_294_967_293, 4_294_967_294, 4_294_967_295] {
        beams_from(rt, alloc, &graph, epoch, &mut reads)?;
    }
    Ok(())
}

#[test]
fn a_beam_finds_the_same_as_the_epochs_begin_anew(rt: HostRuntime) -> Result<(), NoMemory> {
    epochs_by::<HostRuntime, Brand>(&rt, rt.alloc(), Blank::new(1))
}
