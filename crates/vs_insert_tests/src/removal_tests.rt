//! Removals in grown graphs: the others stay after each, and now and then the whole graph is tested plainly.
ghost use Rattle.std.specs.Prelude.{◌≡◌, ◌<◌, ◌≤◌};

use super::*;
use std::alloc::Global;
use std::marker::Brand;
use std::process::Abort;
use std::sync::ledger::{Blank, Ledger};
use vs_graph::{Graph, ListNodes, Nodes, Steps, links};
use vs_graph_fixtures::word_at;
use vs_outside::NoMemory;
use vs_slot::Slot;
use vs_unlink::Orphan;

/// The id after so many live ids.
fn live_id<N: Nodes, L: Ledger>(nodes: &N, place: u32, reads: &mut Steps<L>) -> Option<u32> {
    let mut before: u32 = 0;
    for id in 0..nodes.limit() {
        if nodes.get(id, reads).is_none() {
            continue;
        }
        if before == place {
            return Some(id);
        }
        before = before.saturating_add(1);
    }
    None
}

/// What removals did: how many that were left without a link were joined again, at which layers, how many were alone at their layer, and
/// how often another became the entry.
#[derive(Clone, Copy, Debug)]
struct Tally {
    rejoined: u32,
    rejoined_above: u32,
    alone: u32,
    entries: u32,
}

impl Tally {
    fn count(&mut self, orphan: Orphan, links: usize) {
        if links == 0 {
            self.alone = self.alone.saturating_add(1);
            return;
        }
        self.rejoined = self.rejoined.saturating_add(1);
        if orphan.layer > 0 {
            self.rejoined_above = self.rejoined_above.saturating_add(1);
        }
    }
}

/// Removes a member, checks the others, and counts what became of those that it left without a link.
fn remove_one<A: Abort, L: Ledger>(
    rt: &A,
    alloc: Global,
    graph: &mut Graph<ListNodes>,
    id: u32,
    tally: &mut Tally,
    slot: &mut Slot,
    reads: &mut Steps<L>,
) -> Result<(), NoMemory> {
    let before = graph.snapshot()?;
    let orphans = orphans_of(alloc, &before, id, reads)?;
    let is_removed = remove(alloc, graph, id, slot, reads)?;
    assert!(rt; is_removed, "member {id} is not removed");
    let others = check_others(before.nodes(), graph.nodes(), id, reads);
    assert_eq!(rt; others, Ok(()), "the others without {id}");
    for orphan in orphans.as_slice() {
        let degree = match graph.nodes().get(orphan.id, reads) {
            Some(node) => links(node, orphan.layer).len(),
            None => panic!(rt; "{} is not there", orphan.id),
        };
        tally.count(*orphan, degree);
    }
    if graph.entry() != before.entry() {
        tally.entries = tally.entries.saturating_add(1);
    }
    Ok(())
}

/// Removes so many of 300 members of 61 bits, in one of many orders.
fn thinned_by<A: Abort, L: Ledger>(
    rt: &A,
    alloc: Global,
    count: u32,
    order: u64,
    blank: Blank,
) -> Result<Tally, NoMemory>
    requires few { count ≤ 300 }
    requires name { blank.name ≡ L.name }
    requires parts { blank.parts ≡ L.parts }
    requires some { 0 < L.parts }
{
    let mut reads = Steps::<L>::new(blank);
    let mut slot = Slot::new(alloc);
    let mut graph: Graph<ListNodes> = grown(alloc, 61, 300, &mut slot, &mut reads)?;
    let whole = check_graph(&graph, 300, &mut reads);
    assert_eq!(rt; whole, Ok(()), "the graph of all");
    let mut tally = Tally {
        rejoined: 0,
        rejoined_above: 0,
        alone: 0,
        entries: 0,
    };
    for number in 0..count {
        let left = 299 - number;
        let word = word_at(order.wrapping_add(u64::from(number)));
        let place = (word % (u64::from(left) + 1)) as u32;
        let Some(id) = live_id(graph.nodes(), place, &mut reads) else {
            panic!(rt; "no member is after {place} others");
        };
        remove_one(rt, alloc, &mut graph, id, &mut tally, &mut slot, &mut reads)?;
        if left % 25 == 0 {
            let whole = check_graph(&graph, left, &mut reads);
            assert_eq!(rt; whole, Ok(()), "the graph without {id}");
        }
    }
    Ok(tally)
}

// The members go in orders without a pattern, in the second until nobody is left. Of each twenty, nineteen are leaves of one that is
// soon full, so that many have one link alone, and some are left without a link, at layer 0 and above.
#[test]
fn two_hundred_of_three_hundred_are_removed(rt: HostRuntime) -> Result<(), NoMemory> {
    for (count, order) in [(200, 29_000), (300, 5_000)] {
        let blank = Blank::new(1);
        let tally = thinned_by::<HostRuntime, Brand>(&rt, rt.alloc(), count, order, blank)?;
        assert!(rt; tally.rejoined > 20, "{tally:?}");
        assert!(rt; tally.rejoined_above > 5, "{tally:?}");
        assert!(rt; tally.alone > 0, "{tally:?}");
        assert!(rt; tally.entries > 2, "{tally:?}");
    }
    Ok(())
}
