//! Whether a name is new to a graph.
ghost use Rattle.std.specs.Prelude.{◌≡◌, ◌≢◌, ◌<◌, ℕ, true, IsSome, IfSome};

use std::sync::ledger::Ledger;
use vs_graph::{Nodes, Steps};

fn has_other_name<N: Nodes, L: Ledger>(
    nodes: &N,
    id: u32,
    name: &[u8],
    reads: &mut Steps<L>,
) -> bool
    ensures { result ≡ true → IfSome (N.at nodes.now id) (λ other. other.body.name ≢ name.now) }
{
    match nodes.get(id, reads) {
        Some(node) => node.body.name() != name,
        None => true,
    }
}

/// Whether no member has the name: each of them is looked at.
pub fn is_new_name<N: Nodes, L: Ledger>(nodes: &N, name: &[u8], reads: &mut Steps<L>) -> bool
    ensures { result ≡ true → (q : ℕ) → IfSome (N.at nodes.now q) (λ other. other.body.name ≢ name.now) }
{
    for id in 0..nodes.limit() {
        if !has_other_name(nodes, id, name, reads) {
            return false;
        }
    }
    true
}
