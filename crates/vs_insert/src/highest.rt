//! The member of greatest level, of equal levels the one of least name, with one left out.
ghost use Rattle.std.specs.Prelude.{◌≡◌, ◌≢◌, ◌+◌, ℕ, List as Items, IfSome, IsSome, option_map};
ghost use Rattle.std.specs.Ordering.{is_lt};
ghost use Rattle.vs_defs.specs.Removal.{highest};
ghost use Rattle.vs_graph.specs.Edits.{overwritten};
ghost use Rattle.vs_graph.specs.Good.{AreLinksGood};
ghost use Rattle.vs_graph.specs.Standing.{AreIds, members_of, name_of};
ghost use Rattle.vs_graph.specs.Table.{without};
ghost use Rattle.vs_insert.specs.Height.{height, IsHighestBelow};

use std::sync::ledger::Ledger;
use vs_graph::{Edit, Node, Nodes, Steps, live_node};

/// Whether a node stands higher than another: by level, then lesser name.
fn is_higher(one: &Node, other: &Node) -> bool
    ensures { result ≡ is_lt (height one.now other.now) }
{
    let names = one.body.name().cmp(other.body.name());
    other.level.cmp(&one.level).then(names).is_lt()
}

/// The higher of the best so far and one id more.
fn higher<N: Nodes, L: Ledger>(
    edit: &Edit,
    base: &N,
    best: Option<u32>,
    id: u32,
    reads: &mut Steps<L>,
) -> Option<u32>
    requires { IfSome best (λ b. IsSome (overwritten edit.now (N.at base.now) b)) }
    ensures { (but : ℕ) → id ≢ but → IsHighestBelow (overwritten edit.now (N.at base.now)) but id best → IsHighestBelow (overwritten edit.now (N.at base.now)) but (id + 1) result }
{
    match edit.node(base, id, reads) {
        None => best,
        Some(node) => match best {
            Some(other) if !is_higher(node, live_node(edit, base, other, reads)) => Some(other),
            _ => Some(id),
        },
    }
}

/// The highest member of an edit's meaning but for one: of greatest level, and of those of least name. None where there is no other. A
/// removal takes it for the entry after it where the entry itself goes, and an orphan that is the entry begins its beam at it. The one left
/// out need not be live any more.
pub fn highest_but<N: Nodes, L: Ledger>(
    edit: &Edit,
    base: &N,
    but: u32,
    reads: &mut Steps<L>,
) -> Option<u32>
    requires { (id : ℕ) → IsSome (overwritten edit.now (N.at base.now) id) → IsSome (N.at base.now id) }
    ensures best { (count : ℕ) → IsHighestBelow (overwritten edit.now (N.at base.now)) but count result }
    ensures named { (m dim : ℕ) (ids : Items ℕ) → AreLinksGood (overwritten edit.now (N.at base.now)) m dim → AreIds (overwritten edit.now (N.at base.now)) ids
        → highest (members_of (overwritten edit.now (N.at base.now)) dim (without but ids)) ≡ option_map (name_of (overwritten edit.now (N.at base.now))) result }
{
    let mut best = None;
    for id in 0..base.limit() {
        if id == but {
            continue;
        }
        best = higher(edit, base, best, id, reads);
    }
    best
}
