//! Names and places of test graphs, picked from numbers.
ghost use Rattle.std.specs.Prelude.{◌≡◌, ◌≢◌, ◌<◌, ◌≤◌, ℕ, false, true, IsTrue, IsSome, IfSome, IfOk, Contains, length, nat_eq};
ghost use Rattle.std.specs.List.{list_any};
ghost use Rattle.vs_graph.specs.Edits.{overwritten};
ghost use Rattle.vs_graph.specs.Good.{AreLinksGood, layers_at};
ghost use Rattle.vs_link.specs.Linked.{AreChosen};
ghost use Rattle.vs_graph_fixtures.specs.Members.{MayBeChosen};

use std::alloc::Global;
use std::sync::ledger::Ledger;
use vs_graph::{Edit, Nodes, Steps};
use vs_outside::{List, NoMemory};

fn has_other_name<N: Nodes, L: Ledger>(
    nodes: &N,
    id: u32,
    name: &[u8],
    reads: &mut Steps<L>,
) -> bool
    ensures { result ≡ true → IfSome (N.at nodes.now id) (λ other. other.body.name ≢ name.now) }
{
    match nodes.get(id, reads) {
        Some(node) => node.body.name() != name,
        None => true,
    }
}

/// Whether no member has the name.
pub fn is_new_name<N: Nodes, L: Ledger>(nodes: &N, name: &[u8], reads: &mut Steps<L>) -> bool
    ensures { result ≡ true → (q : ℕ) → IfSome (N.at nodes.now q) (λ other. other.body.name ≢ name.now) }
{
    for id in 0..nodes.limit() {
        if !has_other_name(nodes, id, name, reads) {
            return false;
        }
    }
    true
}

fn is_among(ids: &[u32], id: u32) -> bool
    ensures { result ≡ list_any (nat_eq id) ids.now }
{
    for other in ids {
        if id == *other {
            return true;
        }
    }
    false
}

fn may_be_chosen<N: Nodes, L: Ledger>(
    edit: &Edit,
    base: &N,
    chosen: &[u32],
    id: u32,
    x: u32,
    m: u16,
    reads: &mut Steps<L>,
) -> bool
    ensures { result ≡ true → MayBeChosen (overwritten edit.now (N.at base.now)) chosen.now id x m }
{
    if id == x || chosen.len() >= m as usize || is_among(chosen, id) {
        return false;
    }
    edit.node(base, id, reads).is_some()
}

/// The candidates to which `x` may be linked: those that are live and others than `x`, each once, and at most `m`.
pub fn pick<N: Nodes, L: Ledger>(
    alloc: Global,
    edit: &Edit,
    base: &N,
    candidates: &[u32],
    x: u32,
    m: u16,
    reads: &mut Steps<L>,
) -> Result<List<u32>, NoMemory>
    requires { (dim : ℕ) × AreLinksGood (overwritten edit.now (N.at base.now)) m dim }
    ensures { IfOk result (λ chosen. AreChosen (layers_at (overwritten edit.now (N.at base.now))) 0 m x chosen) }
{
    let mut chosen = List::new(alloc);
    for id in candidates {
        if may_be_chosen(edit, base, chosen.as_slice(), *id, x, m, reads) {
            chosen.push(*id)?;
        }
    }
    Ok(chosen)
}
