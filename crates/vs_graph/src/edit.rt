//! Changed nodes over a base. An edit never looks at its base by itself: its meaning is the base with the changed ids overwritten, and a
//! refused change leaves it as it was.
ghost use Rattle.std.specs.Prelude.{◌≡◌, ◌<◌, ℕ, length, IsSome, IfSome, IfNone};
ghost use Rattle.vs_graph.specs.Said.{said, IsLastAt, IsNowhere};

use crate::link_change::LinkChange;
use crate::{Node, Nodes, Steps};
use std::alloc::Global;
use std::collections::BTreeMap;
use std::sync::ledger::Ledger;
use vs_outside::NoMemory;

/// How many changed ids an edit lists before it keeps further ones in a map: more than an insertion changes at 16 links a member.
const LISTED: usize = 48;

/// Changed nodes over a base: its meaning is the base overwritten. Few ids are listed and searched from the last, since the
/// one that was changed last is asked for most often; further ones are in a map.
#[derive(Drop)]
pub struct Edit {
    ids: Vec<u32>,
    /// The node of each listed id.
    nodes: Vec<Option<Node>>,
    more: BTreeMap<u32, Option<Node>>,
    end: u64,
    ghost beside: { length ids.items ≡ length nodes.items },
    ghost ends: { (id : ℕ) → IsSome (said ids.items nodes.items more id) → id < end },
}

/// What an edit says: the ids that are listed, each with its node beside it, of which the last place of an id counts, and the nodes of
/// other ids. None for a node frees its id.
#[derive(Drop)]
pub struct Changes {
    pub ids: Vec<u32>,
    pub nodes: Vec<Option<Node>>,
    pub more: BTreeMap<u32, Option<Node>>,
}

/// The last place at which an id is listed.
fn place_of(ids: &[u32], id: u32) -> Option<usize>
    ensures some { IfSome result (IsLastAt ids.now id) }
    ensures none { IfNone result (IsNowhere ids.now id) }
{
    let mut place = ids.len();
    while place > 0 {
        place -= 1;
        if ids[place] == id {
            return Some(place);
        }
    }
    None
}

impl Edit {
    ghost use Rattle.std.specs.Prelude.{◌≡◌, ◌≢◌, ◌+◌, ◌<◌, ℕ, length, Some, None, OnOk, OnErr, IsSome, IfSome, IsSomeAnd, option_map};
    ghost use Rattle.std.specs.Option.{option_copied, option_flatten};
    ghost use Rattle.vs_graph.specs.Said.{listed, said};
    ghost use Rattle.vs_graph.specs.Edits.{changed, overwritten, SaysAt};
    ghost use Rattle.vs_graph.specs.NodeMap.{list_at};
    ghost use Rattle.vs_graph.specs.Relinks.{relinked};

    /// No change.
    pub fn new(alloc: Global) -> Edit
        ensures { (id : ℕ) → changed result id ≡ None }
    {
        Edit {
            ids: Vec::new(alloc),
            nodes: Vec::new(alloc),
            more: BTreeMap::new(alloc),
            end: 0,
        }
    }

    /// Greater than each id that is changed.
    pub fn end(&self) -> u64
        ensures { (id : ℕ) → IsSome (changed self.now id) → id < result }
    {
        self.end
    }

    /// What it says, without a copy. It takes no memory.
    pub fn into_changes(self) -> Changes
        ensures beside { length result.ids.items ≡ length result.nodes.items }
        ensures said { (id : ℕ) → said result.ids.items result.nodes.items result.more id ≡ changed self id }
    {
        let Edit {
            ids,
            nodes,
            more,
            end: _,
        } = self;
        Changes { ids, nodes, more }
    }

    /// What the edit itself says of an id.
    fn own(&self, id: u32) -> Option<&Option<Node>>
        ensures { option_copied result ≡ changed self.now id }
    {
        match place_of(&self.ids, id) {
            Some(place) => Some(&self.nodes[place]),
            None => self.more.get(&id),
        }
    }

    /// Says the node of an id last in the lists.
    fn list(&mut self, id: u32, node: Option<Node>) -> Result<(), NoMemory>
        ensures ok { OnOk result (SaysAt self.old self.new id node) }
        ensures err { OnErr result ((q : ℕ) → changed self.new q ≡ changed self.old q) }
    {
        self.ids.reserve(1)?;
        self.nodes.reserve(1)?;
        self.ids.push_reserved(id);
        self.nodes.push_reserved(node);
        self.end = self.end.max(u64::from(id) + 1);
        Ok(())
    }

    /// Says the node of an id that is not listed.
    fn say_unlisted(&mut self, id: u32, node: Option<Node>) -> Result<(), NoMemory>
        requires { listed self.old.ids.items self.old.nodes.items id ≡ None }
        ensures ok { OnOk result (SaysAt self.old self.new id node) }
        ensures err { OnErr result ((q : ℕ) → changed self.new q ≡ changed self.old q) }
    {
        if self.ids.len() < LISTED {
            return self.list(id, node);
        }
        self.more.insert(id, node)?;
        self.end = self.end.max(u64::from(id) + 1);
        Ok(())
    }

    fn say(&mut self, id: u32, node: Option<Node>) -> Result<(), NoMemory>
        ensures ok { OnOk result (SaysAt self.old self.new id node) }
        ensures err { OnErr result ((q : ℕ) → changed self.new q ≡ changed self.old q) }
    {
        match place_of(&self.ids, id) {
            Some(place) => {
                self.nodes[place] = node;
                Ok(())
            }
            None => self.say_unlisted(id, node),
        }
    }

    pub fn put(&mut self, id: u32, node: Node) -> Result<(), NoMemory>
        ensures ok { OnOk result (SaysAt self.old self.new id (Some node)) }
        ensures err { OnErr result ((q : ℕ) → changed self.new q ≡ changed self.old q) }
    {
        self.say(id, Some(node))
    }

    pub fn free(&mut self, id: u32) -> Result<(), NoMemory>
        ensures ok { OnOk result (SaysAt self.old self.new id None) }
        ensures err { OnErr result ((q : ℕ) → changed self.new q ≡ changed self.old q) }
    {
        self.say(id, None)
    }

    /// The node at an id of a list overwritten.
    pub(crate) fn over<'a>(&'a self, base: &'a [Option<Node>], id: u32) -> Option<&'a Node>
        ensures { option_copied result ≡ overwritten self.entry.now (list_at base.entry.now) id }
    {
        match self.own(id) {
            Some(node) => node.as_ref(),
            None => match base.get(id as usize) {
                Some(node) => node.as_ref(),
                None => None,
            },
        }
    }

    /// The node at an id of the base overwritten.
    pub fn node<'a, N: Nodes, L: Ledger>(
        &'a self,
        base: &'a N,
        id: u32,
        reads: &mut Steps<L>,
    ) -> Option<&'a Node>
        ensures value { option_copied result ≡ overwritten self.entry.now (N.at base.entry.now) id }
        ensures told { reads.new ≡ reads.old + 1 }
    {
        match self.own(id) {
            Some(node) => {
                reads.tick();
                node.as_ref()
            }
            None => base.get(id, reads),
        }
    }

    /// The words of the member at a live id of the base overwritten.
    pub fn words<'a, N: Nodes, L: Ledger>(
        &'a self,
        base: &'a N,
        id: u32,
        reads: &mut Steps<L>,
    ) -> &'a [u64]
        requires { IsSome (overwritten self.now (N.at base.now) id) }
        ensures value { IfSome (overwritten self.entry.now (N.at base.entry.now) id) (λ node. result.now ≡ node.body.bits) }
        ensures told { reads.new ≡ reads.old + 1 }
    {
        match self.own(id) {
            Some(Some(node)) => {
                reads.tick();
                node.body.bits()
            }
            Some(None) => unreachable!(),
            None => base.words(id, reads),
        }
    }

    /// Takes a copy of a live node of the base overwritten into the edit, unless it is there, so that it can be changed where it is.
    pub(crate) fn open<N: Nodes, L: Ledger>(
        &mut self,
        alloc: Global,
        base: &N,
        id: u32,
        reads: &mut Steps<L>,
    ) -> Result<(), NoMemory>
        requires { IsSome (overwritten self.old (N.at base.now) id) }
        ensures ok { OnOk result (SaysAt self.old self.new id (overwritten self.old (N.at base.now) id)) }
        ensures told { reads.new ≡ reads.old + 1 }
    {
        if self.own(id).is_some() {
            reads.tick();
            return Ok(());
        }
        match base.get(id, reads) {
            Some(node) => {
                let copy = node.try_clone(alloc)?;
                self.say_unlisted(id, Some(copy))
            }
            None => unreachable!(),
        }
    }

    /// Changes the links of a node that the edit says itself, where it is.
    pub(crate) fn relink(&mut self, id: u32, layer: u8, change: LinkChange) -> Result<(), NoMemory>
        requires { IsSomeAnd (option_flatten (changed self.old id)) (λ node. layer < length node.links) }
        ensures { OnOk result (SaysAt self.old self.new id (option_map (relinked layer change) (option_flatten (changed self.old id)))) }
    {
        match place_of(&self.ids, id) {
            Some(place) => change.apply(&mut self.nodes[place], layer),
            None => match self.more.get_mut(&id) {
                Some(node) => change.apply(node, layer),
                None => unreachable!(),
            },
        }
    }
}
