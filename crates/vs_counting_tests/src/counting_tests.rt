//! How many nodes a search and a commit of a set look at, told by the nodes themselves: no more than a descent and a beam, or a commit,
//! look at in a graph of the same members, whose own bounds are proved and tested below. Each of these is far less than the number of
//! members, so a scan is seen whatever counter it is told to.
ghost use Rattle.std.specs.Prelude.{◌≡◌, ◌<◌};

use super::*;
use std::alloc::Global;
use std::marker::Brand;
use std::process::Abort;
use std::sync::ledger::{Blank, Ledger};
use vs_bits::Bits;
use vs_graph::{FreshNodes, Graph, InlineBody, Nodes, Steps};
use vs_graph_fixtures::{Counted, word_at};
use vs_insert_tests::{NewMember, add, bits_of, draft_of, member, settle};
use vs_outside::NoMemory;
use vs_set::Set;
use vs_slot::Slot;

/// How many members there are, with M 4 and 20 bits each.
const MEMBERS: u16 = 300;

/// Asserts that so many looks are some, and no more than those of a graph, which are few.
fn assert_few<A: Abort>(rt: &A, looks: u64, most: u64) {
    assert!(rt; 0 < looks && looks <= most, "{looks} looks, {most} at most");
    assert!(rt; most < u64::from(MEMBERS), "a scan is no more than {most}");
}

/// Adds the same member to a set and to a graph.
fn add_both<A: Abort, L: Ledger>(
    rt: &A,
    alloc: Global,
    set: &mut Set<Telling>,
    graph: &mut Graph<Counted>,
    number: u16,
    slot: &mut Slot,
    reads: &mut Steps<L>,
) -> Result<(), NoMemory>
    requires { graph.old.dim ≡ 20 }
    ensures { graph.new.dim ≡ 20 }
{
    let name = number.to_be_bytes();
    let one = numbered(&name, number);
    assert!(rt; add_to(alloc, set, one, slot)?, "to the set: {number}");
    assert!(rt;
        add(alloc, graph, one, slot, reads)?,
        "to the graph: {number}"
    );
    Ok(())
}

/// How many nodes a search of a graph looks at.
fn looks_of_search<A: Abort, L: Ledger>(
    rt: &A,
    alloc: Global,
    graph: &Graph<Counted>,
    bits: &Bits,
    slot: &mut Slot,
    reads: &mut Steps<L>,
) -> Result<u64, NoMemory> {
    let before = graph.nodes().gets();
    let found = search_graph(alloc, graph, bits, slot, reads)?;
    assert!(rt; found.is_some());
    Ok(graph.nodes().gets().wrapping_sub(before))
}

/// Drafts a member over a snapshot of the set and commits it; how many nodes the commit looked at.
fn looks_of_commit<A: Abort, L: Ledger>(
    rt: &A,
    alloc: Global,
    set: &mut Set<Telling>,
    one: NewMember<'_>,
    slot: &mut Slot,
    reads: &mut Steps<L>,
) -> Result<u64, NoMemory> {
    let dim = set.dim();
    assert!(rt; 0 < dim && dim <= 64 && set.count() < 1_048_576);
    let bits = bits_of(alloc, dim, one.word)?;
    let body = InlineBody::new(alloc, one.name, bits.words())?;
    told(set);
    let snap = set.snapshot()?;
    let draft = snap.prepare(body, one.level.min(15), 8, slot, reads)?;
    assert!(rt; told(set) > 0, "the beams look at nodes");
    let committed = set.try_commit(draft, None, reads);
    assert!(rt; committed.is_ok());
    Ok(told(set))
}

/// The same in a graph. There is a look at each name before.
fn looks_of_graph_commit<A: Abort, L: Ledger>(
    rt: &A,
    alloc: Global,
    graph: &mut Graph<Counted>,
    one: NewMember<'_>,
    slot: &mut Slot,
    reads: &mut Steps<L>,
) -> Result<u64, NoMemory>
    requires { graph.old.dim ≡ 20 }
    ensures { graph.new.dim ≡ 20 }
{
    let draft = draft_of(alloc, graph, one, slot, reads)?;
    let names = u64::from(graph.nodes().limit());
    let before = graph.nodes().gets();
    assert!(rt; settle(alloc, graph, draft, one.attr, reads)?);
    let looks = graph.nodes().gets().wrapping_sub(before);
    Ok(looks.saturating_sub(names))
}

/// A set and a graph of the same members.
fn grow<A: Abort, L: Ledger>(
    rt: &A,
    alloc: Global,
    set: &mut Set<Telling>,
    graph: &mut Graph<Counted>,
    slot: &mut Slot,
    reads: &mut Steps<L>,
) -> Result<(), NoMemory>
    requires { graph.old.dim ≡ 20 }
    ensures { graph.new.dim ≡ 20 }
{
    for number in 0..MEMBERS {
        add_both(rt, alloc, set, graph, number, slot, reads)?;
    }
    Ok(())
}

/// Searches a snapshot and the graph for the same vectors.
fn search_both<A: Abort, L: Ledger>(
    rt: &A,
    alloc: Global,
    set: &Set<Telling>,
    graph: &Graph<Counted>,
    slot: &mut Slot,
    reads: &mut Steps<L>,
) -> Result<(), NoMemory>
    requires { graph.now.dim ≡ 20 }
{
    told(set);
    let snap = set.snapshot()?;
    for number in 0..10 {
        let bits = bits_of(alloc, 20, word_at(1_000 + number))?;
        let Some(hits) = search_snap(&snap, &bits, slot, reads)? else {
            panic!(rt; "nothing is searched");
        };
        assert_eq!(rt; hits.len(), 10);
        let looks = told(set);
        let most = looks_of_search(rt, alloc, graph, &bits, slot, reads)?;
        assert_few(rt, looks, most);
    }
    Ok(())
}

/// Commits the same members, of the levels 0 to 3.
fn commit_both<A: Abort, L: Ledger>(
    rt: &A,
    alloc: Global,
    set: &mut Set<Telling>,
    graph: &mut Graph<Counted>,
    slot: &mut Slot,
    reads: &mut Steps<L>,
) -> Result<(), NoMemory>
    requires { graph.old.dim ≡ 20 }
{
    for level in 0u8..4 {
        let name = [b'x', level, 0];
        let one = member(&name, word_at(2_000 + u64::from(level)), level);
        let looks = looks_of_commit(rt, alloc, set, one, slot, reads)?;
        let most = looks_of_graph_commit(rt, alloc, graph, one, slot, reads)?;
        assert_few(rt, looks, most);
    }
    Ok(())
}

fn counts_by<A: Abort, L: Ledger>(rt: &A, alloc: Global, blank: Blank) -> Result<(), NoMemory>
    requires name { blank.name ≡ L.name }
    requires parts { blank.parts ≡ L.parts }
    requires some { 0 < L.parts }
{
    let mut reads = Steps::<L>::new(blank);
    let mut slot = Slot::new(alloc);
    let mut set: Set<Telling> = Set::create(alloc, 20, 4)?;
    let mut graph: Graph<Counted> = Graph::new(Counted::fresh(alloc)?, 4, 20);
    grow(rt, alloc, &mut set, &mut graph, &mut slot, &mut reads)?;
    search_both(rt, alloc, &set, &graph, &mut slot, &mut reads)?;
    commit_both(rt, alloc, &mut set, &mut graph, &mut slot, &mut reads)
}

#[test]
fn a_set_looks_at_no_more_than_its_graph(rt: HostRuntime) -> Result<(), NoMemory> {
    counts_by::<HostRuntime, Brand>(&rt, rt.alloc(), Blank::new(1))
}
