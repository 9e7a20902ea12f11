//! A listener in memory: it gives the links of a list, in order, and keeps those that were closed.
ghost use Rattle.std.specs.Prelude.{◌≡◌, ◌≤◌, ◌-◌, [], Some, IfOk, length, map, take, drop, vec_capacity};

use crate::{Accepted, List, Listener, MemSink, MemSource, NoMemory};
use std::alloc::Global;
use std::collections::VecDeque;
use std::snapshot::Snapshot;

/// A link whose two ends are in memory.
#[derive(Drop)]
pub struct MemLink {
    pub source: MemSource,
    pub sink: MemSink,
}

/// A listener that gives these links, in order. Each further accept fails.
#[derive(Drop)]
pub struct MemListener {
    waiting: VecDeque<MemLink, Global>,
    closed: Vec<MemLink>,
    faults: u64,
    // All links, for the proof alone.
    all: Snapshot<List<MemLink>>,
    ghost in_order: { drop (length all.value - length waiting.items) all.value ≡ waiting.items },
    ghost no_more: { length closed.items ≤ length (take (length all.value - length waiting.items) all.value) },
    ghost room: { length all.value ≤ vec_capacity closed },
}

impl MemListener {
    /// The listener before its first accept. It takes the room for the closed links here.
    pub fn new(alloc: Global, links: List<MemLink>) -> Result<MemListener, NoMemory>
        ensures given { IfOk result (λ l. ⟦<MemListener as Listener>⟧.given l ≡ Some []) }
        ensures closed { IfOk result (λ l. ⟦<MemListener as Listener>⟧.closed l ≡ Some []) }
        ensures faults { IfOk result (λ l. ⟦<MemListener as Listener>⟧.faults l ≡ 0) }
    {
        let closed = Vec::with_capacity(alloc, links.len())?;
        let all = Snapshot::of(&links);
        Ok(MemListener {
            waiting: VecDeque::from_vec(links.into_vec()),
            closed,
            faults: 0,
            all,
        })
    }

    /// The links closed, in order, with their ends as they then were.
    pub fn closed(&self) -> &[MemLink]
        ensures { ⟦<MemListener as Listener>⟧.closed self.now ≡ Some (map (λ l. (l.source, l.sink)) result.now) }
    {
        self.closed.as_slice()
    }
}

impl Listener for MemListener {
    ghost use Rattle.std.proofs.Common.{rules};
    ghost use Rattle.std.proofs.lemmas.List.{length-map};

    type Input = MemSource;

    type Output = MemSink;

    ghost given = { λ l. Some (map (λ k. (k.source, k.sink)) (take (length l.all.value - length l.waiting.items) l.all.value)) };

    ghost closed = { λ l. Some (map (λ k. (k.source, k.sink)) l.closed.items) };

    ghost faults = { λ l. l.faults };

    fn accept(&mut self) -> Accepted<MemSource, MemSink> {
        match self.waiting.pop_front() {
            Some(MemLink { source, sink }) => Accepted::Link(source, sink),
            None => {
                self.faults = self.faults.saturating_add(1);
                Accepted::Failed
            }
        }
    }

    fn close(&mut self, source: MemSource, sink: MemSink) {
        self.closed.push_reserved(MemLink { source, sink });
    }

    ghost ordered = { Prim.search (rules, length-map) };
}
