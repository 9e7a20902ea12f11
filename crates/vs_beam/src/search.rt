//! The loop of a search of one layer. What it keeps: the tried members are distinct, were reached by links from the start, and are marked
//! in the slot; each tried one is expanded, in the frontier or beyond the worst of a full list of the best; the best are the nearest tried ones
//! that pass. It expands the nearest one first and stops where that one is beyond.
use crate::looking::look;
use crate::steps_nearer::links;
use std::alloc::Global;
use std::sync::ledger::Ledger;
use vs_graph::{Nodes, Steps};
use vs_outside::{List, NoMemory};
use vs_rank::{Best, Frontier, Key, Testing, Wanted};
use vs_slot::Slot;

/// A search of one layer.
#[derive(Drop)]
pub struct Search {
    pub from: u32,
    pub effort: u32,
    pub tried: List<u32>,
    pub expanded: List<u32>,
    pub best: Best,
    pub frontier: Frontier,
}

impl Search {
    ghost use Rattle.std.specs.Prelude.{◌≡◌, ℕ, ◌+◌, ◌^◌, ◌<◌, ◌≤◌, ◌↔◌, Bool, [], length, drop, IsSome, IfSome, IfNone, IfOk, OnOk, All, Contains, IsTrue};
    ghost use Rattle.vs_slot.specs.Marks.{Marks, IsEmptied};
    ghost use Rattle.vs_graph.specs.Good.{IsLinked, StandsAt, links_at};
    ghost use Rattle.vs_rank.specs.Tests.{Attribute, Answers};
    ghost use Rattle.vs_beam.specs.Beam.{HasWords, IsSpent, IsBeam};
    ghost use Rattle.vs_beam.specs.Searching.{IsSearch, IsSearchAt, AreFound, AreFoundAt, AreFoundBy, IsStarted, IsWaiting, IsWeighed, IsOffered, HasKept, IsAdvanced, IsOver, IsSameSearch, IsVisited, IsExpanded, size_left, expansion_cost};

    /// A search that tried the id where it starts.
    pub fn start<N: Nodes, F: Testing, L: Ledger>(
        alloc: Global,
        nodes: &N,
        layer: u8,
        from: u32,
        query: &[u64],
        width: u32,
        effort: u32,
        wanted: &Wanted<F>,
        slot: &mut Slot,
        reads: &mut Steps<L>,
    ) -> Result<Search, NoMemory>
        requires few { length query.now ≤ 512 }
        requires live { HasWords (N.at nodes.now) (length query.now) from }
        requires stands { StandsAt (N.at nodes.now) layer from }
        requires fits { from < length slot.old.marked }
        requires empty { IsEmptied slot.old }
        requires wide { 0 < width }
        ensures search { IfOk result (λ search. IsSearch (N.at nodes.now) layer query.now search slot.new) }
        ensures found { IfOk result (λ search. AreFoundBy (F.gives wanted.now.test) (N.at nodes.now) layer query.now search) }
        ensures started { IfOk result (λ search. IsStarted search from width effort) }
        ensures limit { length slot.new.marked ≡ length slot.old.marked }
        ensures told { reads.new ≤ reads.old + 1 }
    {
        slot.mark(from);
        let mut search = Search {
            from,
            effort,
            tried: List::new(alloc),
            expanded: List::new(alloc),
            best: Best::new(alloc, width),
            frontier: Frontier::new(alloc),
        };
        search.tried.push(from)?;
        search.offer_from(nodes, 0, query, wanted, reads)?;
        Ok(search)
    }

    /// Whether as many were tried as may be.
    fn is_spent(&self) -> bool
        ensures { IsTrue result ↔ IsSpent self.now.effort self.now.tried }
    {
        self.effort != 0 && self.tried.len() == self.effort as usize
    }

    /// Puts a key into the frontier, unless it is beyond the best.
    fn wait(&mut self, key: Key)
        requires room { 0 < self.old.frontier.spare }
        ensures waits { IsWaiting self.old self.new key }
        ensures room { self.old.frontier.spare ≤ self.new.frontier.spare + 1 }
    {
        if !self.best.is_beyond(key) {
            self.frontier.offer(key);
        }
    }

    /// Takes the distance of an id that was tried, and offers it to the frontier and to the best.
    fn offer<N: Nodes, F: Testing, L: Ledger>(
        &mut self,
        nodes: &N,
        id: u32,
        query: &[u64],
        wanted: &Wanted<F>,
        reads: &mut Steps<L>,
    )
        requires few { length query.now ≤ 512 }
        requires live { HasWords (N.at nodes.now) (length query.now) id }
        requires frontier_room { 0 < self.old.frontier.spare }
        requires best_room { 0 < self.old.best.spare }
        ensures weighed { IsWeighed (N.at nodes.now) query.now self.old self.new id }
        ensures offered { (passes : Attribute → Bool) → Answers (F.gives wanted.now.test) passes → IsOffered (N.at nodes.now) query.now passes self.old self.new id }
        ensures frontier_room { self.old.frontier.spare ≤ self.new.frontier.spare + 1 }
        ensures best_room { self.old.best.spare ≤ self.new.best.spare + 1 }
        ensures told { reads.new ≤ reads.old + 1 }
    {
        let (key, passes) = look(nodes, id, query, wanted, reads);
        self.wait(key);
        if passes {
            self.best.offer(key);
        }
    }

    /// Offers the ids that were tried from a place on.
    fn offer_from<N: Nodes, F: Testing, L: Ledger>(
        &mut self,
        nodes: &N,
        start: usize,
        query: &[u64],
        wanted: &Wanted<F>,
        reads: &mut Steps<L>,
    ) -> Result<(), NoMemory>
        requires few { length query.now ≤ 512 }
        requires live { All (HasWords (N.at nodes.now) (length query.now)) (drop start self.old.tried) }
        requires within { start ≤ length self.old.tried }
        requires short { length self.old.tried < start + 2 ^ 32 }
        ensures kept { HasKept self.old self.new }
        ensures search { OnOk result ((layer : ℕ) (marks : Marks) → IsSearchAt (N.at nodes.now) layer query.now self.old marks start → IsSearch (N.at nodes.now) layer query.now self.new marks) }
        ensures found { OnOk result ((layer : ℕ) (passes : Attribute → Bool) → Answers (F.gives wanted.now.test) passes → AreFoundAt (N.at nodes.now) layer query.now passes self.old start → AreFound (N.at nodes.now) layer query.now passes self.new) }
        ensures frontier { OnOk result (length self.new.frontier.keys + start ≤ length self.old.frontier.keys + length self.old.tried) }
        ensures told { reads.new + start ≤ reads.old + length self.old.tried }
    {
        let count = (self.tried.len() - start) as u32;
        self.frontier.reserve(count)?;
        self.best.reserve(count)?;
        for place in start..self.tried.len() {
            let id = self.tried.as_slice()[place];
            self.offer(nodes, id, query, wanted, reads);
        }
        Ok(())
    }

    /// Takes the nearest id that was not expanded, if it is to be.
    fn advance(&mut self) -> Result<Option<u32>, NoMemory>
        ensures some { IfOk result (λ next. IfSome next (λ id. IsAdvanced self.old self.new id)) }
        ensures none { IfOk result (λ next. IfNone next (IsOver self.old self.new)) }
    {
        match self.frontier.pop() {
            Some(key) => {
                if self.best.is_beyond(key) {
                    return Ok(None);
                }
                self.expanded.push(key.id)?;
                Ok(Some(key.id))
            }
            None => Ok(None),
        }
    }

    /// Tries an id, unless it was tried or as many were tried as may be.
    fn visit(&mut self, id: u32, slot: &mut Slot) -> Result<(), NoMemory>
        requires fits { id < length slot.old.marked }
        ensures visited { OnOk result (IsVisited self.old self.new slot.old slot.new id) }
        ensures limit { length slot.new.marked ≡ length slot.old.marked }
    {
        if self.is_spent() {
            return Ok(());
        }
        if slot.mark(id) {
            self.tried.push(id)?;
        }
        Ok(())
    }

    /// Tries each neighbour of an id, as long as more may be tried: first all are marked, then their distances are taken.
    fn expand<N: Nodes, F: Testing, L: Ledger>(
        &mut self,
        nodes: &N,
        layer: u8,
        id: u32,
        query: &[u64],
        wanted: &Wanted<F>,
        slot: &mut Slot,
        reads: &mut Steps<L>,
    ) -> Result<(), NoMemory>
        requires few { length query.now ≤ 512 }
        requires live { (w : ℕ) → IsSome (N.at nodes.now w) → HasWords (N.at nodes.now) (length query.now) w }
        requires stand { (v w : ℕ) → IsLinked (N.at nodes.now) layer v w → StandsAt (N.at nodes.now) layer w }
        requires fits { (w : ℕ) → IsSome (N.at nodes.now w) → w < length slot.old.marked }
        requires short { length (links_at (N.at nodes.now) layer id) < 2 ^ 32 }
        requires one { Contains self.old.expanded id }
        requires search { IsSearch (N.at nodes.now) layer query.now self.old slot.old }
        requires found { AreFoundBy (F.gives wanted.now.test) (N.at nodes.now) layer query.now self.old }
        ensures search { OnOk result (IsSearch (N.at nodes.now) layer query.now self.new slot.new) }
        ensures found { OnOk result (AreFoundBy (F.gives wanted.now.test) (N.at nodes.now) layer query.now self.new) }
        ensures expanded { OnOk result (IsExpanded (N.at nodes.now) layer self.old self.new id) }
        ensures limit { length slot.new.marked ≡ length slot.old.marked }
        ensures left { OnOk result (size_left self.new slot.new ≤ size_left self.old slot.old) }
        ensures told { reads.new ≤ reads.old + 1 + length (links_at (N.at nodes.now) layer id) }
    {
        let start = self.tried.len();
        for next in links(nodes, layer, id, reads) {
            self.visit(*next, slot)?;
        }
        self.offer_from(nodes, start, query, wanted, reads)
    }

    /// Expands the nearest ids until none is to be expanded, or as many were tried as may be.
    pub fn run<N: Nodes, F: Testing, L: Ledger>(
        &mut self,
        nodes: &N,
        layer: u8,
        query: &[u64],
        wanted: &Wanted<F>,
        slot: &mut Slot,
        reads: &mut Steps<L>,
    ) -> Result<bool, NoMemory>
        requires few { length query.now ≤ 512 }
        requires live { (w : ℕ) → IsSome (N.at nodes.now w) → HasWords (N.at nodes.now) (length query.now) w }
        requires stand { (v w : ℕ) → IsLinked (N.at nodes.now) layer v w → StandsAt (N.at nodes.now) layer w }
        requires fits { (w : ℕ) → IsSome (N.at nodes.now w) → w < length slot.old.marked }
        requires short { (v : ℕ) → length (links_at (N.at nodes.now) layer v) < 2 ^ 32 }
        requires none { self.old.expanded ≡ [] }
        requires search { IsSearch (N.at nodes.now) layer query.now self.old slot.old }
        requires found { AreFoundBy (F.gives wanted.now.test) (N.at nodes.now) layer query.now self.old }
        ensures beam { OnOk result ((passes : Attribute → Bool) → Answers (F.gives wanted.now.test) passes → IsBeam (N.at nodes.now) layer self.old.from query.now self.old.best.most self.old.effort passes self.new.tried self.new.expanded self.new.best.keys) }
        ensures spent { IfOk result (λ spent. IsTrue spent ↔ IsSpent self.old.effort self.new.tried) }
        ensures told { OnOk result (reads.new ≤ reads.old + expansion_cost (N.at nodes.now) layer self.new.expanded) }
        ensures same { OnOk result (IsSameSearch self.old self.new) }
    {
        while !self.is_spent() {
            match self.advance()? {
                Some(id) => self.expand(nodes, layer, id, query, wanted, slot, reads)?,
                None => return Ok(false),
            }
        }
        Ok(true)
    }
}
