//! The attribute of a member, and how many members have one.
ghost use Rattle.std.specs.Prelude.{◌≡◌, ◌<◌, ℕ, is_some, IsSome, IfOk, OnOk, OnErr};
ghost use Rattle.vs_defs.specs.Store.{is_member};
ghost use Rattle.vs_graph.specs.Replaced.{IsSameGraph};
ghost use Rattle.vs_graph.specs.Standing.{member_at};
ghost use Rattle.vs_set.specs.Changed.{attributed};
ghost use Rattle.vs_set.specs.Given.{IsGiven};

use crate::Set;
use crate::attr::{attr_of, count_after};
use std::alloc::Global;
use std::marker::Brand;
use std::sync::ledger::{Blank, Ledger};
use vs_graph::{Graph, Nodes, Steps, set_attr};
use vs_outside::{NoMemory, Text};

/// Whether the member of an id has an attribute.
pub(crate) fn has_attr<N: Nodes, L: Ledger>(graph: &Graph<N>, id: u32, reads: &mut Steps<L>) -> bool
    ensures { (dim : ℕ) → result ≡ is_some (member_at (N.at graph.now.nodes) dim id).attr }
{
    let nodes = graph.nodes();
    match nodes.get(id, reads) {
        Some(node) => node.attr.is_some(),
        None => false,
    }
}

/// Gives the member of an id the attribute of a text; the empty one and none take it away. Whether it had one, and whether it has one.
fn give_attr<N: Nodes, L: Ledger>(
    alloc: Global,
    graph: &mut Graph<N>,
    id: u32,
    text: Option<Text>,
    blank: Blank,
) -> Result<(bool, bool), NoMemory>
    requires live { IsSome (N.at graph.old.nodes id) }
    requires name { blank.name ≡ L.name }
    requires parts { blank.parts ≡ L.parts }
    requires some { 0 < L.parts }
    ensures given { IfOk result (λ r. IsGiven N.at graph.old graph.new id text r.0 r.1) }
    ensures err { OnErr result (IsSameGraph N.at graph.new graph.old) }
{
    let mut reads = Steps::<L>::new(blank);
    let had = has_attr(graph, id, &mut reads);
    let attr = attr_of(alloc, text)?;
    let has = attr.is_some();
    set_attr(alloc, graph, id, attr, &mut reads)?;
    Ok((had, has))
}

impl<N: Nodes> Set<N> {
    /// Gives a member an attribute; `None` and the empty text take it away. `false` where the name is no member. Links, entry and cut stay.
    /// After a refusal the set is as it was.
    pub fn set_attr(&mut self, name: &[u8], text: Option<Text>) -> Result<bool, NoMemory>
        ensures there { IfOk result (λ there. there ≡ is_member name.now self.old.contents.members) }
        ensures attributed { OnOk result (self.new ≡ attributed name.now text self.old) }
        ensures err { OnErr result (self.new ≡ self.old) }
    {
        let Some(id) = self.names.id_of(name) else {
            return Ok(false);
        };
        let _few = self.names.len();
        let (had, has) = give_attr::<N, Brand>(
            self.alloc,
            &mut self.graph,
            id,
            text,
            Blank::new(1),
        )?;
        self.attributes = count_after(self.attributes, had, has);
        Ok(true)
    }
}
