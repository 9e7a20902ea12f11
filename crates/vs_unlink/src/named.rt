//! Members in the order of their names.
ghost use Rattle.std.specs.Prelude.{◌≡◌, IsSome, IfOk, All, map};
ghost use Rattle.vs_graph.specs.Edits.{overwritten};
ghost use Rattle.vs_graph.specs.Good.{body_at};
ghost use Rattle.vs_unlink.specs.Named.{id_of, IsNamedSo, AreByName};

use std::alloc::Global;
use std::sync::ledger::Ledger;
use vs_graph::{Edit, Nodes, Steps, live_node};
use vs_outside::{List, NoMemory};

/// A member by its name, then its id.
#[derive(PartialEq, Eq, PartialOrd, Ord, Drop)]
pub(crate) struct Named<'a> {
    pub(crate) name: &'a [u8],
    pub(crate) id: u32,
}

/// Members with their names.
fn with_names<'a, N: Nodes, L: Ledger>(
    alloc: Global,
    edit: &'a Edit,
    base: &'a N,
    ids: &[u32],
    reads: &mut Steps<L>,
) -> Result<Vec<Named<'a>>, NoMemory>
    requires { All (λ id. IsSome (overwritten edit.now (N.at base.now) id)) ids.now }
    ensures ids { IfOk result (λ all. map id_of all.items ≡ ids.now) }
    ensures named { IfOk result (λ all. All (IsNamedSo (body_at (overwritten edit.entry.now (N.at base.entry.now)))) all.items) }
{
    let mut all = Vec::with_capacity(alloc, ids.len())?;
    for id in ids {
        let own = live_node(edit, base, *id, reads);
        all.push(Named {
            name: own.body.name(),
            id: *id,
        })?;
    }
    Ok(all)
}

/// The ids of members.
fn ids_of(alloc: Global, all: &[Named]) -> Result<List<u32>, NoMemory>
    ensures { IfOk result (λ ids. ids ≡ map id_of all.now) }
{
    let mut ids = List::new(alloc);
    for one in all {
        ids.push(one.id)?;
    }
    Ok(ids)
}

/// Members in the order of their names.
pub(crate) fn by_name<N: Nodes, L: Ledger>(
    alloc: Global,
    edit: &Edit,
    base: &N,
    ids: &[u32],
    reads: &mut Steps<L>,
) -> Result<List<u32>, NoMemory>
    requires { All (λ id. IsSome (overwritten edit.now (N.at base.now) id)) ids.now }
    ensures { IfOk result (λ sorted. AreByName (body_at (overwritten edit.now (N.at base.now))) ids.now sorted) }
{
    let mut all = with_names(alloc, edit, base, ids, reads)?;
    all.sort_unstable();
    ids_of(alloc, &all)
}
