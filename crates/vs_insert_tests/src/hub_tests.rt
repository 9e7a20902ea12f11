//! Removals link by link: a star, two that were worked out by hand, full hubs, and a hub on sixteen layers.
ghost use Rattle.std.specs.Prelude.{◌≡◌, ◌<◌, ◌≤◌};

use super::*;
use crate::looking::{assert_attr, assert_links};
use std::alloc::Global;
use std::marker::Brand;
use std::process::Abort;
use std::sync::ledger::{Blank, Ledger};
use vs_graph::{Graph, ListNodes, Nodes, Steps, links};
use vs_outside::NoMemory;
use vs_slot::Slot;

/// A member by its name, bits and level.
type Sketch = (&'static [u8], u64, u8);

/// A member and a layer, and to whom it links there.
type Linked = (u32, u8, &'static [u32]);

/// Members that are added in order, the links that they have then, and those that are left, with the entry, once the first is removed.
struct Removal {
    members: &'static [Sketch],
    before: &'static [Linked],
    after: &'static [Linked],
    entry: u32,
}

// Each leaf is one bit from the hub and two from the others, so it is linked to the hub alone. The first two names are paired, and the
// third is left alone; it is joined again to both.
const STAR: Removal = Removal {
    members: &[(b"hub", 0, 0), (b"a", 1, 0), (b"b", 2, 0), (b"c", 4, 0)],
    before: &[(0, 0, &[1, 2, 3]), (1, 0, &[0]), (2, 0, &[0]), (3, 0, &[0])],
    after: &[(1, 0, &[2, 3]), (2, 0, &[1, 3]), (3, 0, &[1, 2])],
    entry: 1,
};

// The entry goes, which is on four layers. b, c and f are left without a link at the layers 1 and 2, b and f at 3, and b, c at 0 beside e
// and d. b and c are paired, at 0 d and e, at 3 b and f; f is joined again to b and c at 2, then at 1.
const ENTRY_ON_FOUR_LAYERS: Removal = Removal {
    members: &[
        (b"a", 0b000, 3),
        (b"b", 0b100, 3),
        (b"c", 0b010, 2),
        (b"d", 0b001, 0),
        (b"e", 0b100, 0),
        (b"f", 0b001, 3),
    ],
    before: &[
        (0, 0, &[1, 2, 3, 4, 5]),
        (0, 1, &[1, 2, 5]),
        (0, 2, &[1, 2, 5]),
        (0, 3, &[1, 5]),
        (1, 0, &[0, 4]),
        (3, 0, &[0, 5]),
    ],
    after: &[
        (1, 0, &[4, 2]),
        (2, 0, &[1]),
        (3, 0, &[5, 4]),
        (4, 0, &[1, 3]),
        (5, 0, &[3]),
        (1, 1, &[2, 5]),
        (2, 1, &[1, 5]),
        (5, 1, &[1, 2]),
        (1, 2, &[2, 5]),
        (2, 2, &[1, 5]),
        (5, 2, &[1, 2]),
        (1, 3, &[5]),
        (5, 3, &[1]),
    ],
    entry: 1,
};

// All pairs of b, c and d are two bits apart. b and c are paired, by their names; d, the entry, is left alone on both layers, and is joined
// again to both from b.
const ENTRY_IS_LEFT_ALONE: Removal = Removal {
    members: &[
        (b"a", 0b0111_1101, 1),
        (b"b", 0b0110_1101, 1),
        (b"c", 0b0011_1101, 1),
        (b"d", 0b0111_1100, 2),
    ],
    before: &[
        (0, 0, &[1, 2, 3]),
        (0, 1, &[1, 2, 3]),
        (1, 0, &[0]),
        (1, 1, &[0]),
        (3, 0, &[0]),
        (3, 1, &[0]),
        (3, 2, &[]),
    ],
    after: &[
        (1, 0, &[2, 3]),
        (2, 0, &[1, 3]),
        (3, 0, &[1, 2]),
        (1, 1, &[2, 3]),
        (2, 1, &[1, 3]),
        (3, 1, &[1, 2]),
        (3, 2, &[]),
    ],
    entry: 3,
};

fn removed<A: Abort, L: Ledger>(
    rt: &A,
    alloc: Global,
    mut graph: Graph<ListNodes>,
    case: &Removal,
    slot: &mut Slot,
    reads: &mut Steps<L>,
) -> Result<(), NoMemory>
    requires { graph.dim ≤ 64 }
{
    for (name, word, level) in case.members {
        add(alloc, &mut graph, member(name, *word, *level), slot, reads)?;
    }
    for (id, layer, ids) in case.before {
        assert_links(rt, &graph, *id, *layer, ids, reads);
    }
    let is_removed = remove(alloc, &mut graph, 0, slot, reads)?;
    assert!(rt; is_removed, "the first is not removed");
    for (id, layer, ids) in case.after {
        assert_links(rt, &graph, *id, *layer, ids, reads);
    }
    assert_eq!(rt; graph.entry(), Some(case.entry), "the entry after it");
    Ok(())
}

fn worked_by<A: Abort, L: Ledger>(rt: &A, alloc: Global, blank: Blank) -> Result<(), NoMemory>
    requires name { blank.name ≡ L.name }
    requires parts { blank.parts ≡ L.parts }
    requires some { 0 < L.parts }
{
    let mut reads = Steps::<L>::new(blank);
    let mut slot = Slot::new(alloc);
    let narrow = Graph::new(ListNodes::new(alloc)?, 4, 3);
    removed(rt, alloc, narrow, &STAR, &mut slot, &mut reads)?;
    let wide = Graph::new(ListNodes::new(alloc)?, 16, 3);
    removed(rt, alloc, wide, &STAR, &mut slot, &mut reads)?;
    let graph = Graph::new(ListNodes::new(alloc)?, 4, 3);
    removed(
        rt,
        alloc,
        graph,
        &ENTRY_ON_FOUR_LAYERS,
        &mut slot,
        &mut reads,
    )?;
    let graph = Graph::new(ListNodes::new(alloc)?, 4, 8);
    removed(
        rt,
        alloc,
        graph,
        &ENTRY_IS_LEFT_ALONE,
        &mut slot,
        &mut reads,
    )
}

#[test]
fn removals_that_were_worked_out_by_hand(rt: HostRuntime) -> Result<(), NoMemory> {
    worked_by::<HostRuntime, Brand>(&rt, rt.alloc(), Blank::new(1))
}

/// Three leaves of a hub, all on sixteen layers and with attributes.
fn high_by<A: Abort, L: Ledger>(rt: &A, alloc: Global, blank: Blank) -> Result<(), NoMemory>
    requires name { blank.name ≡ L.name }
    requires parts { blank.parts ≡ L.parts }
    requires some { 0 < L.parts }
{
    let mut reads = Steps::<L>::new(blank);
    let mut slot = Slot::new(alloc);
    let mut graph = Graph::new(ListNodes::new(alloc)?, 4, 3);
    for (name, word) in [(b"h", 0u64), (b"a", 1), (b"b", 2), (b"c", 4)] {
        let one = NewMember {
            name,
            word,
            level: 15,
            attr: name,
        };
        add(alloc, &mut graph, one, &mut slot, &mut reads)?;
    }
    let before = graph.snapshot()?;
    let is_removed = remove(alloc, &mut graph, 0, &mut slot, &mut reads)?;
    assert!(rt; is_removed, "the hub is not removed");
    for layer in 0u8..16 {
        assert_links(rt, &before, 0, layer, &[1, 2, 3], &mut reads);
        assert_links(rt, &graph, 1, layer, &[2, 3], &mut reads);
        assert_links(rt, &graph, 2, layer, &[1, 3], &mut reads);
        assert_links(rt, &graph, 3, layer, &[1, 2], &mut reads);
    }
    assert_attr(rt, &before, 0, b"h", &mut reads);
    assert_attr(rt, &graph, 3, b"c", &mut reads);
    assert_eq!(rt; graph.entry(), Some(1), "the entry after the hub");
    Ok(())
}

// The star once more, on each layer that there can be.
#[test]
fn a_member_of_level_15_is_removed(rt: HostRuntime) -> Result<(), NoMemory> {
    high_by::<HostRuntime, Brand>(&rt, rt.alloc(), Blank::new(1))
}

/// A hub that is full with leaves that don't know each other is removed.
fn full_hub<A: Abort, L: Ledger>(
    rt: &A,
    alloc: Global,
    mut graph: Graph<ListNodes>,
    leaves: u16,
    slot: &mut Slot,
    reads: &mut Steps<L>,
) -> Result<(), NoMemory>
    requires { graph.dim ≤ 64 }
{
    let hub = NewMember {
        name: b"hub",
        word: 0,
        level: 0,
        attr: b"{}",
    };
    add(alloc, &mut graph, hub, slot, reads)?;
    add_unseen(alloc, &mut graph, leaves, slot, reads)?;
    let before = graph.snapshot()?;
    match before.nodes().get(0, reads) {
        Some(node) => assert_eq!(rt; links(node, 0).len(), leaves as usize, "leaves of the hub"),
        None => panic!(rt; "there is no hub"),
    }
    let is_removed = remove(alloc, &mut graph, 0, slot, reads)?;
    assert!(rt; is_removed, "the hub is not removed");
    let others = check_others(before.nodes(), graph.nodes(), 0, reads);
    assert_eq!(rt; others, Ok(()), "the leaves of {leaves}");
    for id in 1..=u32::from(leaves) {
        match graph.nodes().get(id, reads) {
            Some(node) => assert_eq!(rt; links(node, 0).len(), 1, "links of {id} of {leaves}"),
            None => panic!(rt; "no member has the id {id}"),
        }
    }
    let whole = check_graph(&graph, u32::from(leaves), reads);
    assert_eq!(rt; whole, Ok(()), "the graph of {leaves}");
    Ok(())
}

fn full_hubs_by<A: Abort, L: Ledger>(rt: &A, alloc: Global, blank: Blank) -> Result<(), NoMemory>
    requires name { blank.name ≡ L.name }
    requires parts { blank.parts ≡ L.parts }
    requires some { 0 < L.parts }
{
    let mut reads = Steps::<L>::new(blank);
    let mut slot = Slot::new(alloc);
    let graph = Graph::new(ListNodes::new(alloc)?, 16, 20);
    full_hub(rt, alloc, graph, 32, &mut slot, &mut reads)?;
    let graph = Graph::new(ListNodes::new(alloc)?, 256, 20);
    full_hub(rt, alloc, graph, 512, &mut slot, &mut reads)
}

// With M 16 and with the greatest M. The leaves are an even number and have no other links, so that each has one pair then.
#[test]
fn full_hubs_are_removed(rt: HostRuntime) -> Result<(), NoMemory> {
    full_hubs_by::<HostRuntime, Brand>(&rt, rt.alloc(), Blank::new(1))
}
