//! A member taken out of all its layers. Keeps links good but for those who are listed.
ghost use Rattle.std.specs.Prelude.{◌≡◌, ◌<◌, ◌≤◌, ℕ, Some, IsSome, IfOk, OnOk, All};
ghost use Rattle.vs_graph.specs.Edits.{overwritten};
ghost use Rattle.vs_graph.specs.Good.{links_at, AreLinksGood, HasGoodLinks};
ghost use Rattle.vs_graph.specs.Good.{body_at};
ghost use Rattle.vs_unlink.specs.Orphans.{IsLeftAlone, Lists, ListsByNames, KeepsLinkedBut};
ghost use Rattle.vs_graph.specs.Good.{layers_at};
ghost use Rattle.vs_unlink.specs.Unlinked.{IsOutBelow, IsTakenOut, IsWithout, UnlinksByNames};

use crate::Orphan;
use crate::layer::unlink_layer;
use crate::orphans::orphans;
use std::alloc::Global;
use std::sync::ledger::Ledger;
use vs_graph::{Edit, Node, Nodes, Steps, live_copy};
use vs_outside::{List, NoMemory};

/// Takes `x` out of the layers below a number.
fn unlink_below<N: Nodes, L: Ledger>(
    alloc: Global,
    edit: &mut Edit,
    base: &N,
    x: u32,
    count: u8,
    reads: &mut Steps<L>,
) -> Result<(), NoMemory>
    requires good { HasGoodLinks (overwritten edit.old (N.at base.now)) }
    requires stands { count ≤ layers_at (overwritten edit.old (N.at base.now)) x }
    ensures { OnOk result (IsOutBelow (overwritten edit.old (N.at base.now)) (overwritten edit.new (N.at base.now)) x count) }
{
    for layer in 0..count {
        unlink_layer(alloc, edit, base, x, layer, reads)?;
    }
    Ok(())
}

/// Takes a member out, and answers its node.
fn take_out<N: Nodes, L: Ledger>(
    alloc: Global,
    edit: &mut Edit,
    base: &N,
    x: u32,
    reads: &mut Steps<L>,
) -> Result<Node, NoMemory>
    requires good { HasGoodLinks (overwritten edit.old (N.at base.now)) }
    requires live { IsSome (overwritten edit.old (N.at base.now) x) }
    ensures out { OnOk result (IsTakenOut (overwritten edit.old (N.at base.now)) (overwritten edit.new (N.at base.now)) x (layers_at (overwritten edit.old (N.at base.now)) x)) }
    ensures was { IfOk result (λ own. overwritten edit.old (N.at base.now) x ≡ Some own) }
{
    let own = live_copy(alloc, edit, base, x, reads)?;
    let count = own.links.len() as u8;
    unlink_below(alloc, edit, base, x, count, reads)?;
    edit.free(x)?;
    Ok(own)
}

/// Takes a member out of the graph, joins the unlinked pairs of its former neighbours at each layer, nearest first, and
/// lists those left without a link there, by layer descending, then name. One that is now alone at its layer is listed too.
/// What is left and who is listed are the definitions', by ids and by names. After a refusal the edit is to be dropped; the base is unchanged.
pub fn unlink<N: Nodes, L: Ledger>(
    alloc: Global,
    edit: &mut Edit,
    base: &N,
    x: u32,
    reads: &mut Steps<L>,
) -> Result<List<Orphan>, NoMemory>
    requires good { HasGoodLinks (overwritten edit.old (N.at base.now)) }
    requires live { IsSome (overwritten edit.old (N.at base.now) x) }
    ensures out { OnOk result (IsTakenOut (overwritten edit.old (N.at base.now)) (overwritten edit.new (N.at base.now)) x (layers_at (overwritten edit.old (N.at base.now)) x)) }
    ensures without { OnOk result (IsWithout (overwritten edit.old (N.at base.now)) (overwritten edit.new (N.at base.now)) x) }
    ensures orphans { IfOk result (λ all. Lists (body_at (overwritten edit.new (N.at base.now))) (links_at (overwritten edit.new (N.at base.now))) (λ l. links_at (overwritten edit.old (N.at base.now)) l x) (layers_at (overwritten edit.old (N.at base.now)) x) 0 all) }
    ensures left { IfOk result (λ all. All (IsLeftAlone (overwritten edit.new (N.at base.now))) all) }
    ensures unlinks { OnOk result (UnlinksByNames (overwritten edit.old (N.at base.now)) (overwritten edit.new (N.at base.now)) x) }
    ensures named { IfOk result (λ all. ListsByNames (overwritten edit.old (N.at base.now)) (overwritten edit.new (N.at base.now)) x all) }
    ensures kept { IfOk result (λ all. KeepsLinkedBut (overwritten edit.old (N.at base.now)) (overwritten edit.new (N.at base.now)) x all) }
{
    let own = take_out(alloc, edit, base, x, reads)?;
    let count = own.links.len() as u8;
    orphans(alloc, edit, base, &own, count, reads)
}
