//! Beams over a graph of test members, compared with plain searches.
ghost use Rattle.std.specs.Prelude.{◌≡◌, ◌<◌};

use super::*;
use std::alloc::Global;
use std::marker::Brand;
use std::sync::ledger::{Blank, Ledger};
use vs_beam::Beam;
use vs_graph::{Graph, ListNodes, Nodes, Steps};
use vs_outside::{List, NoMemory};
use vs_slot::Slot;

/// What is looked at of one search.
#[derive(Drop)]
struct Outcome {
    recalled: u32,
    in_order: bool,
    closed: bool,
    gets: u64,
    allowed: u64,
}

fn seen<L: Ledger>(
    alloc: Global,
    graph: &Graph<Counted>,
    word: u64,
    slot: &mut Slot,
    reads: &mut Steps<L>,
) -> Result<Option<Outcome>, NoMemory>
    requires { graph.now.dim ≡ 64 }
{
    let nodes = graph.nodes();
    let before = nodes.gets();
    let Some(beam) = search_all(alloc, graph, &[word], 10, slot, reads)? else {
        return Ok(None);
    };
    let gets = nodes.gets().wrapping_sub(before);
    Ok(Some(Outcome {
        recalled: recalled(nodes, &beam, word, 10, reads),
        in_order: is_in_order(nodes, &beam, word, reads),
        closed: is_closed(nodes, &beam, word, 10, reads),
        gets,
        allowed: allowed(nodes, &beam, reads),
    }))
}

/// Searches for vectors that are no members', in a graph of 200.
fn searches<L: Ledger>(alloc: Global, blank: Blank) -> Result<List<Outcome>, NoMemory>
    requires name { blank.name ≡ L.name }
    requires parts { blank.parts ≡ L.parts }
    requires some { 0 < L.parts }
{
    let mut reads = Steps::<L>::new(blank);
    let mut slot = Slot::new(alloc);
    let graph: Graph<Counted> = grown(alloc, 200, &mut slot, &mut reads)?;
    let mut all = List::new(alloc);
    for number in 0..50 {
        if let Some(one) = seen(alloc, &graph, word_at(1000 + number), &mut slot, &mut reads)? {
            all.push(one)?;
        }
    }
    Ok(all)
}

fn all_searches(alloc: Global) -> Result<List<Outcome>, NoMemory> {
    searches::<Brand>(alloc, Blank::new(1))
}

/// A filtered search of two members with one vector.
fn second_of<L: Ledger>(alloc: Global, effort: u32, blank: Blank) -> Result<Option<Beam>, NoMemory>
    requires name { blank.name ≡ L.name }
    requires parts { blank.parts ≡ L.parts }
    requires some { 0 < L.parts }
{
    let mut reads = Steps::<L>::new(blank);
    let mut slot = Slot::new(alloc);
    let mut graph = Graph::new(ListNodes::new(alloc)?, 4, 64);
    add_word(alloc, &mut graph, b"a", 5, b"{\"k\":1}", &[], &mut reads)?;
    add_word(alloc, &mut graph, b"b", 5, b"{\"k\":2}", &[0], &mut reads)?;
    search_second(alloc, &graph, 5, effort, &mut slot, &mut reads)
}

fn second_of_two(alloc: Global, effort: u32) -> Result<Option<Beam>, NoMemory> {
    second_of::<Brand>(alloc, effort, Blank::new(1))
}

#[test]
fn a_filtered_search_ends_at_its_effort(rt: HostRuntime) -> Result<(), NoMemory> {
    for (effort, found, tried, spent) in [(1, 0, 1, true), (0, 1, 2, false), (2, 1, 2, true)] {
        let Some(beam) = second_of_two(rt.alloc(), effort)? else {
            panic!(rt; "an empty graph at {effort}");
        };
        assert_eq!(rt; beam.found.len(), found, "found at {effort}");
        assert_eq!(rt; beam.tried.len(), tried, "tried at {effort}");
        assert_eq!(rt; beam.spent, spent, "spent at {effort}");
        for key in beam.found.as_slice() {
            assert_eq!(rt; (key.id, key.dist), (1, 0), "at {effort}");
        }
    }
    Ok(())
}

#[test]
fn beams_in_two_hundred_members(rt: HostRuntime) -> Result<(), NoMemory> {
    let searches = all_searches(rt.alloc())?;
    assert_eq!(rt; searches.len(), 50);
    let mut recalled: u32 = 0;
    for one in searches.as_slice() {
        assert!(rt; one.in_order);
        assert!(rt; one.closed);
        assert!(rt; one.gets <= one.allowed);
        recalled = recalled.saturating_add(one.recalled);
    }
    assert!(rt; recalled >= 250, "{recalled} of 500");
    Ok(())
}
