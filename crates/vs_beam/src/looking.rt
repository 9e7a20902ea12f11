//! What is read of a member that is tried: its key and whether it passes, for one read of its node.
ghost use Rattle.std.specs.Prelude.{◌≡◌, ◌+◌, ◌≤◌, Bool, length};
ghost use Rattle.vs_rank.specs.Tests.{Attribute, Answers};
ghost use Rattle.vs_beam.specs.Beam.{HasWords, key_at, attr_at};

use crate::steps_nearer::far;
use std::sync::ledger::Ledger;
use vs_graph::{Nodes, Steps};
use vs_hamming::distance;
use vs_rank::{Key, Testing, Wanted};

/// The key of a live id, and whether it passes. Where all pass, only the words of the member are read.
pub fn look<N: Nodes, F: Testing, L: Ledger>(
    nodes: &N,
    id: u32,
    query: &[u64],
    wanted: &Wanted<F>,
    reads: &mut Steps<L>,
) -> (Key, bool)
    requires few { length query.now ≤ 512 }
    requires live { HasWords (N.at nodes.now) (length query.now) id }
    ensures key { result.0 ≡ key_at (N.at nodes.now) query.now id }
    ensures passes { (passes : Attribute → Bool) → Answers (F.gives wanted.now.test) passes → result.1 ≡ passes (attr_at (N.at nodes.now) id) }
    ensures told { reads.new ≤ reads.old + 1 }
{
    if wanted.is_everyone() {
        let dist = far(nodes, id, query, reads);
        return (Key { dist, id }, true);
    }
    match nodes.get(id, reads) {
        Some(node) => {
            let dist = distance(query, node.body.bits());
            let passes = match &node.attr {
                Some(attr) => wanted.passes(Some(attr.get().text.as_slice())),
                None => wanted.passes(None),
            };
            (Key { dist, id }, passes)
        }
        None => unreachable!(),
    }
}
