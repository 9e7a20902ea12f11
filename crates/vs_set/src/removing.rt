//! The removal of a member, on the set's own graph: the order without it, and the graph without it; then the names and the cut, which take
//! no memory.
ghost use Rattle.std.specs.Prelude.{◌≡◌, ◌<◌, true, false, Ok, is_some, IsSome, IfOk, OnOk, OnErr};
ghost use Rattle.vs_defs.specs.Store.{is_member};
ghost use Rattle.vs_graph.specs.Replaced.{IsSameGraph};
ghost use Rattle.vs_graph.specs.Standing.{member_at};
ghost use Rattle.vs_set.specs.Again.{IsOut};
ghost use Rattle.vs_set.specs.Changed.{RemovesMember};

use crate::Set;
use crate::attr::count_after;
use crate::attributes::has_attr;
use std::alloc::Global;
use std::marker::Brand;
use std::sync::ledger::{Blank, Ledger};
use vs_graph::{Graph, Nodes, Steps};
use vs_insert::without;
use vs_outside::NoMemory;
use vs_slot::Slot;

/// Takes a member out of the graph; whether it had an attribute.
fn take_out<N: Nodes, L: Ledger>(
    alloc: Global,
    graph: &mut Graph<N>,
    id: u32,
    slot: &mut Slot,
    blank: Blank,
) -> Result<bool, NoMemory>
    requires live { IsSome (N.at graph.old.nodes id) }
    requires name { blank.name ≡ L.name }
    requires parts { blank.parts ≡ L.parts }
    requires some { 0 < L.parts }
    ensures had { IfOk result (λ had. had ≡ is_some (member_at (N.at graph.old.nodes) graph.old.dim id).attr) }
    ensures out { OnOk result (IsOut N.at graph.old graph.new id) }
    ensures err { OnErr result (IsSameGraph N.at graph.new graph.old) }
{
    let _nodes = graph.nodes();
    let mut reads = Steps::<L>::new(blank);
    let had = has_attr(graph, id, &mut reads);
    let (edit, entry) = without(alloc, graph, id, slot, &mut reads)?;
    graph.replace(edit, entry)?;
    Ok(had)
}

impl<N: Nodes> Set<N> {
    /// Removes a member, and takes the cut over; `false` where the name is none, and then nothing changed. The last member takes its place.
    /// After a refusal the set is as it was.
    pub fn remove(&mut self, name: &[u8], cut: u64, slot: &mut Slot) -> Result<bool, NoMemory>
        ensures there { IfOk result (λ there. there ≡ is_member name.now self.old.contents.members) }
        ensures removed { result ≡ Ok true → RemovesMember name.now cut self.old self.new }
        ensures none { result ≡ Ok false → self.new ≡ self.old }
        ensures err { OnErr result (self.new ≡ self.old) }
    {
        let Some(place) = self.names.place_of(name) else {
            return Ok(false);
        };
        let count = self.names.len();
        let id = self.order.id_at(place);
        let order = self.order.without(place)?;
        let had = take_out::<N, Brand>(self.alloc, &mut self.graph, id, slot, Blank::new(1))?;
        self.names.swap_remove(place);
        self.order = order;
        self.cut = cut;
        self.attributes = count_after(self.attributes, had, false);
        self.rows.take_to(self.alloc, count - 1, place);
        Ok(true)
    }
}
