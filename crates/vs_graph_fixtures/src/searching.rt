//! Searches over test graphs, with every member or every second one passing.
ghost use Rattle.std.specs.Prelude.{◌≡◌, ◌<◌, IfOk};
ghost use mathlib.Core.HProp.{IsProp-prop};
ghost use Rattle.std.specs.Option.{option_copied};
ghost use Rattle.vs_defs.specs.Words.{FitsDimension};
ghost use Rattle.vs_rank.specs.Tests.{AnswersOne};
ghost use Rattle.vs_graph_fixtures.specs.Members.{is_second};

use crate::building::add_word;
use std::alloc::Global;
use std::sync::ledger::Ledger;
use vs_beam::{Beam, beam};
use vs_graph::{FreshNodes, Graph, Nodes, Steps};
use vs_outside::{List, NoMemory};
use vs_rank::{Everyone, Key, Testing, Wanted};
use vs_slot::Slot;

/// The beam of layer 0 from the entry; none of an empty graph.
pub fn search<N: Nodes, F: Testing + Drop, L: Ledger>(
    alloc: Global,
    graph: &Graph<N>,
    query: &[u64],
    ef: u32,
    effort: u32,
    test: F,
    slot: &mut Slot,
    reads: &mut Steps<L>,
) -> Result<Option<Beam>, NoMemory>
    requires single { IsProp (F.ready test) }
    requires callable { F.ready test }
    requires answers { AnswersOne (F.gives test) }
    requires fits { FitsDimension graph.now.dim query.now }
    requires wide { 0 < ef }
{
    let Some(entry) = graph.entry() else {
        return Ok(None);
    };
    let wanted = Wanted::new(test);
    let found = beam(
        alloc, graph, 0, entry, query, ef, effort, &wanted, slot, reads,
    )?;
    Ok(Some(found))
}

/// The same, unfiltered and without an effort.
pub fn search_all<N: Nodes, L: Ledger>(
    alloc: Global,
    graph: &Graph<N>,
    query: &[u64],
    ef: u32,
    slot: &mut Slot,
    reads: &mut Steps<L>,
) -> Result<Option<Beam>, NoMemory>
    requires fits { FitsDimension graph.now.dim query.now }
    requires wide { 0 < ef }
{
    search(alloc, graph, query, ef, 0, Everyone, slot, reads)
}

/// Whether an attribute is `{"k":2}`, told by its sixth byte.
pub fn is_second(attr: Option<&[u8]>) -> bool
    ensures { result ≡ is_second (option_copied attr.entry) }
{
    match attr {
        Some(text) => text.len() > 5 && text[5] == b'2',
        None => false,
    }
}

/// The same search in a graph of 64 bits, of those with the attribute `{"k":2}`.
pub fn search_second<N: Nodes, L: Ledger>(
    alloc: Global,
    graph: &Graph<N>,
    word: u64,
    effort: u32,
    slot: &mut Slot,
    reads: &mut Steps<L>,
) -> Result<Option<Beam>, NoMemory>
    requires { graph.now.dim ≡ 64 }
{
    search(
        alloc,
        graph,
        &[word],
        10,
        effort,
        |attr: Option<&[u8]>| is_second(attr),
        slot,
        reads,
    )
}

/// The number-th of a row of numbers without a pattern (the steps of SplitMix64).
pub fn word_at(number: u64) -> u64 {
    let mixed = number.wrapping_add(1).wrapping_mul(0x9E37_79B9_7F4A_7C15);
    let mixed = (mixed ^ (mixed >> 30)).wrapping_mul(0xBF58_476D_1CE4_E5B9);
    let mixed = (mixed ^ (mixed >> 27)).wrapping_mul(0x94D0_49BB_1331_11EB);
    mixed ^ (mixed >> 31)
}

fn ids_of(alloc: Global, keys: &[Key]) -> Result<List<u32>, NoMemory> {
    let mut ids = List::new(alloc);
    for key in keys {
        ids.push(key.id)?;
    }
    Ok(ids)
}

fn add_numbered<N: Nodes, L: Ledger>(
    alloc: Global,
    graph: &mut Graph<N>,
    number: u16,
    slot: &mut Slot,
    reads: &mut Steps<L>,
) -> Result<(), NoMemory>
    requires { graph.old.dim ≡ 64 }
    ensures { graph.new.dim ≡ 64 }
{
    let word = word_at(u64::from(number));
    let near = match search_all(alloc, graph, &[word], 8, slot, reads)? {
        Some(beam) => ids_of(alloc, beam.found.as_slice())?,
        None => List::new(alloc),
    };
    let name = number.to_be_bytes();
    add_word(alloc, graph, &name, word, &[], near.as_slice(), reads)?;
    Ok(())
}

/// A graph of so many members of 64 bits, each linked to the nearest that a beam of width 8 found.
pub fn grown<N: FreshNodes, L: Ledger>(
    alloc: Global,
    count: u16,
    slot: &mut Slot,
    reads: &mut Steps<L>,
) -> Result<Graph<N>, NoMemory>
    ensures { IfOk result (λ graph. graph.dim ≡ 64) }
{
    let mut graph = Graph::new(N::fresh(alloc)?, 8, 64);
    for number in 0..count {
        add_numbered(alloc, &mut graph, number, slot, reads)?;
    }
    Ok(graph)
}
