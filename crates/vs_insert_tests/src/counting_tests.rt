//! How many nodes a descent, a beam and a commit look at, told by the nodes themselves: no more than the proved bounds of what the counter
//! that is handed in rises by. Each graph has more members than the bound, so a scan is seen whatever counter it is told to.
ghost use Rattle.std.specs.Prelude.{◌≡◌, ◌<◌, ◌≤◌};

use super::*;
use std::alloc::Global;
use std::marker::Brand;
use std::process::Abort;
use std::sync::ledger::{Blank, Ledger};
use vs_beam::descend;
use vs_graph::{Graph, Nodes, Steps};
use vs_graph_fixtures::{Counted, allowed, search_all, word_at};
use vs_outside::NoMemory;
use vs_slot::Slot;

/// How many members there are, with M 4 and 20 bits each.
const MEMBERS: u16 = 400;

/// The most nodes that a descent looks at in a graph with M 4 and 20 bits a member.
const DESCENT: u64 = 1 + (16 + 20) * (4 + 1);

/// The most nodes that a commit with M 4 looks at for a layer.
const COMMIT_LAYER: u64 = 4 * (2 * 4 + 4) + 2 * 4 + 4;

/// Asserts that so many looks are some, within a bound that is less than the number of members.
fn assert_few<A: Abort>(rt: &A, looks: u64, most: u64) {
    assert!(rt; 0 < looks && looks <= most, "{looks} looks, {most} at most");
    assert!(rt; most < u64::from(MEMBERS), "a scan is no more than {most}");
}

/// A descent and a beam.
fn searches_by<A: Abort, L: Ledger>(
    rt: &A,
    alloc: Global,
    graph: &Graph<Counted>,
    word: u64,
    slot: &mut Slot,
    reads: &mut Steps<L>,
) -> Result<(), NoMemory>
    requires { graph.now.dim ≡ 20 }
{
    let bits = bits_of(alloc, 20, word)?;
    let nodes = graph.nodes();
    let before = nodes.gets();
    let Some(descent) = descend(graph, bits.words(), 1, reads) else {
        panic!(rt; "the graph is empty");
    };
    assert_few(rt, nodes.gets().wrapping_sub(before), DESCENT);
    assert!(rt; descent.top > 2, "the entry's level is {}", descent.top);
    let before = nodes.gets();
    let Some(beam) = search_all(alloc, graph, bits.words(), 10, slot, reads)? else {
        panic!(rt; "the graph is empty");
    };
    let looks = nodes.gets().wrapping_sub(before);
    assert_few(rt, looks, allowed(nodes, &beam, reads));
    Ok(())
}

/// Commits a draft. There is a look at each name before.
fn commit_by<A: Abort, L: Ledger>(
    rt: &A,
    alloc: Global,
    graph: &mut Graph<Counted>,
    one: NewMember<'_>,
    slot: &mut Slot,
    reads: &mut Steps<L>,
) -> Result<(), NoMemory>
    requires { graph.old.dim ≤ 64 }
    ensures { graph.new.dim ≡ graph.old.dim }
{
    let draft = draft_of(alloc, graph, one, slot, reads)?;
    let layers = u64::from(draft.level) + 1;
    let names = u64::from(graph.nodes().limit());
    let before = graph.nodes().gets();
    let is_settled = settle(alloc, graph, draft, one.attr, reads)?;
    assert!(rt; is_settled, "a draft of {layers} layers is refused");
    let looks = graph.nodes().gets().wrapping_sub(before);
    assert_few(rt, looks.saturating_sub(names), layers * COMMIT_LAYER);
    Ok(())
}

fn counts_by<A: Abort, L: Ledger>(rt: &A, alloc: Global, blank: Blank) -> Result<(), NoMemory>
    requires name { blank.name ≡ L.name }
    requires parts { blank.parts ≡ L.parts }
    requires some { 0 < L.parts }
{
    let mut reads = Steps::<L>::new(blank);
    let mut slot = Slot::new(alloc);
    let mut graph: Graph<Counted> = grown(alloc, 20, MEMBERS, &mut slot, &mut reads)?;
    for number in 0..20 {
        let word = word_at(1_000 + number);
        searches_by(rt, alloc, &graph, word, &mut slot, &mut reads)?;
    }
    for level in 0u8..4 {
        let name = [b'x', level];
        let one = member(&name, word_at(2_000 + u64::from(level)), level);
        commit_by(rt, alloc, &mut graph, one, &mut slot, &mut reads)?;
    }
    Ok(())
}

#[test]
fn looks_are_within_their_bounds(rt: HostRuntime) -> Result<(), NoMemory> {
    counts_by::<HostRuntime, Brand>(&rt, rt.alloc(), Blank::new(1))
}
