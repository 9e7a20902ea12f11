//! The addition of a member: of a new name, on the set's own graph; of a name that is a member, on a snapshot of the graph that is taken
//! over last, so that a refusal between its removal and its insertion changes nothing.
ghost use Rattle.std.specs.Prelude.{◌≡◌, ◌<◌, ◌≤◌, ◌^◌, true, false, not, length, IfOk, OnOk, OnErr};
ghost use Rattle.vs_defs.specs.Store.{is_member};
ghost use Rattle.vs_bits.specs.Requests.{add_of};
ghost use Rattle.vs_set.specs.Changed.{AddsMember};
ghost use Rattle.vs_set.specs.Grown.{cut_by};

use crate::Set;
use crate::attr::count_after;
use crate::growing::grow;
use crate::placing::{Place, place_for};
use crate::replacing::{Replaced, replace_member};
use std::marker::Brand;
use std::sync::ledger::{Blank, Ledger};
use vs_bits::Add;
use vs_graph::{Nodes, Steps};
use vs_order::Names;
use vs_outside::NoMemory;
use vs_slot::Slot;

/// The cut of a set after a new member: the first one brings its own.
fn cut_after(names: &Names, before: u64, cut: u64) -> u64
    ensures { result ≡ cut_by before cut names.now.entries }
{
    if names.len() == 0 { cut } else { before }
}

impl<N: Nodes> Set<N> {
    /// Adds a member of this level, or replaces the one of its name; whether it is new. A replaced one is taken out whole and inserted into
    /// what is left. It keeps its place, and its attribute where none is given. The cut is taken over where the set was empty, or a member
    /// was replaced. The key, the M and the CAS of the request aren't looked at. After a refusal the set is as it was.
    pub fn add(&mut self, add: &Add, level: u8, cut: u64, slot: &mut Slot) -> Result<bool, NoMemory>
        requires dim { length add.now.bits ≡ self.old.contents.dim }
        requires low { level ≤ 15 }
        requires wide { 1 ≤ add.now.ef }
        requires room { is_member add.now.name self.old.contents.members ≡ false → length self.old.contents.members < 2 ^ 20 }
        ensures new { IfOk result (λ is_new. is_new ≡ not (is_member add.now.name self.old.contents.members)) }
        ensures added { OnOk result (AddsMember (add_of add.now) level cut self.old self.new) }
        ensures err { OnErr result (self.new ≡ self.old) }
    {
        if self.has(add.name.as_slice()) {
            self.add_again::<Brand>(add, level, cut, slot, Blank::new(1))?;
            return Ok(false);
        }
        self.add_new::<Brand>(add, level, cut, slot, Blank::new(1))?;
        Ok(true)
    }

    /// Adds a member of a new name.
    fn add_new<L: Ledger>(
        &mut self,
        add: &Add,
        level: u8,
        cut: u64,
        slot: &mut Slot,
        blank: Blank,
    ) -> Result<(), NoMemory>
        requires name { blank.name ≡ L.name }
        requires parts { blank.parts ≡ L.parts }
        requires some { 0 < L.parts }
        requires dim { length add.now.bits ≡ self.old.contents.dim }
        requires low { level ≤ 15 }
        requires wide { 1 ≤ add.now.ef }
        requires new { is_member add.now.name self.old.contents.members ≡ false }
        requires room { length self.old.contents.members < 2 ^ 20 }
        ensures added { OnOk result (AddsMember (add_of add.now) level cut self.old self.new) }
        ensures err { OnErr result (self.new ≡ self.old) }
    {
        let mut reads = Steps::<L>::new(blank);
        let cut = cut_after(&self.names, self.cut, cut);
        let Place { name, id, order } = place_for(
            self.alloc,
            &mut self.names,
            &self.order,
            add.name.as_slice(),
        )?;
        let has = grow(
            self.alloc,
            &mut self.graph,
            id,
            add,
            None,
            level,
            slot,
            &mut reads,
        )?;
        let count = self.names.len();
        self.names.push(name);
        self.order = order;
        self.cut = cut;
        self.attributes = count_after(self.attributes, false, has);
        self.rows.put(count, Some(add.bits.words()));
        Ok(())
    }

    /// Adds a member under the name of another, in its place.
    fn add_again<L: Ledger>(
        &mut self,
        add: &Add,
        level: u8,
        cut: u64,
        slot: &mut Slot,
        blank: Blank,
    ) -> Result<(), NoMemory>
        requires name { blank.name ≡ L.name }
        requires parts { blank.parts ≡ L.parts }
        requires some { 0 < L.parts }
        requires dim { length add.now.bits ≡ self.old.contents.dim }
        requires low { level ≤ 15 }
        requires wide { 1 ≤ add.now.ef }
        requires member { is_member add.now.name self.old.contents.members ≡ true }
        ensures added { OnOk result (AddsMember (add_of add.now) level cut self.old self.new) }
        ensures err { OnErr result (self.new ≡ self.old) }
    {
        let Some(id) = self.names.id_of(add.name.as_slice()) else {
            unreachable!();
        };
        let Some(place) = self.names.place_of(add.name.as_slice()) else {
            unreachable!();
        };
        let _members = self.names.len();
        let mut reads = Steps::<L>::new(blank);
        let Replaced { graph, had, has } = replace_member(
            self.alloc,
            &self.graph,
            id,
            add,
            level,
            slot,
            &mut reads,
        )?;
        self.graph = graph;
        self.cut = cut;
        self.attributes = count_after(self.attributes, had, has);
        self.rows.put(place, Some(add.bits.words()));
        Ok(())
    }
}
