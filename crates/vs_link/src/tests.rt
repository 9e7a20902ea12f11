//! Members of level 0 that are joined at layer 0: a hub that is full, and a choice of candidates.
ghost use Rattle.std.specs.Prelude.{◌≡◌, ◌≢◌, ◌<◌, ℕ, [], true, All, IsSome, is_some};
ghost use Rattle.vs_graph.specs.Edits.{overwritten};
ghost use Rattle.vs_graph.specs.Good.{links_at, StandsAt};

use crate::{link_layer, select};
use std::alloc::Global;
use std::marker::{Brand, Model};
use std::sync::ledger::{Blank, Ledger};
use vs_graph::{
    Edit, InlineBody, LayerLinks, ListNodes, Node, Nodes, Steps, degree, links, put_newcomer,
};
use vs_outside::{List, NoMemory};
use vs_rank::Key;

/// Members over an empty map: each has one word, the byte of its id as its name, and good links for M 4.
#[derive(Drop)]
struct Draft {
    base: ListNodes,
    edit: Edit,
    next: u32,
}

impl Model for Draft {
    ghost use Rattle.std.specs.Prelude.{◌≡◌, ◌∷◌, [], ◌<◌, ℕ, IfSome};
    ghost use Rattle.vs_graph.specs.NodeMap.{nodes_of};
    ghost use Rattle.vs_graph.specs.Edits.{overwritten};
    ghost use Rattle.vs_graph.specs.Good.{body_at, AreLinksGood};

    ghost Value = { ℕ };

    ghost view = { λ d. d.next };

    ghost invariant = { λ d. AreLinksGood (overwritten d.edit (nodes_of d.base)) 4 64
        × ((q : ℕ) → IfSome (body_at (overwritten d.edit (nodes_of d.base)) q) (λ body. (body.name ≡ q ∷ []) × (q < d.next))) };
}

/// Whether `x` has no link, and may be joined to `y`.
fn may_link<N: Nodes, L: Ledger>(
    edit: &Edit,
    base: &N,
    x: u32,
    y: u32,
    reads: &mut Steps<L>,
) -> bool
    ensures stands { result ≡ true → StandsAt (overwritten edit.now (N.at base.now)) 0 x }
    ensures free { result ≡ true → links_at (overwritten edit.now (N.at base.now)) 0 x ≡ [] }
    ensures other { result ≡ true → StandsAt (overwritten edit.now (N.at base.now)) 0 y }
    ensures apart { result ≡ true → y ≢ x }
{
    if edit.node(base, y, reads).is_none() {
        return false;
    }
    match edit.node(base, x, reads) {
        Some(node) => x != y && degree(node, 0) == 0,
        None => false,
    }
}

fn is_live<N: Nodes, L: Ledger>(edit: &Edit, base: &N, id: u32, reads: &mut Steps<L>) -> bool
    ensures { result ≡ is_some (overwritten edit.now (N.at base.now) id) }
{
    edit.node(base, id, reads).is_some()
}

/// Whether all candidates are members.
fn are_live<N: Nodes, L: Ledger>(edit: &Edit, base: &N, keys: &[Key], reads: &mut Steps<L>) -> bool
    ensures { result ≡ true → All (λ key. IsSome (overwritten edit.now (N.at base.now) key.id)) keys.now }
{
    for key in keys {
        if !is_live(edit, base, key.id, reads) {
            return false;
        }
    }
    true
}

impl Draft {
    fn new(alloc: Global) -> Result<Draft, NoMemory> {
        Ok(Draft {
            base: ListNodes::new(alloc)?,
            edit: Edit::new(alloc),
            next: 0,
        })
    }

    /// One member more, if there are fewer than 100.
    fn add(mut self, alloc: Global, word: u64) -> Result<Draft, NoMemory> {
        if self.next >= 100 {
            return Ok(self);
        }
        let node = Node {
            body: InlineBody::new(alloc, &[self.next as u8], &[word])?,
            attr: None,
            level: 0,
            links: LayerLinks::new(alloc, 0)?,
        };
        put_newcomer(&mut self.edit, &self.base, self.next, node)?;
        self.next += 1;
        Ok(self)
    }

    fn link_by<L: Ledger>(
        mut self,
        alloc: Global,
        x: u32,
        y: u32,
        blank: Blank,
    ) -> Result<Draft, NoMemory>
        requires name { blank.name ≡ L.name }
        requires parts { blank.parts ≡ L.parts }
        requires some { 0 < L.parts }
    {
        let mut reads = Steps::<L>::new(blank);
        if !may_link(&self.edit, &self.base, x, y, &mut reads) {
            return Ok(self);
        }
        link_layer(
            alloc,
            &mut self.edit,
            &self.base,
            x,
            0,
            &[y],
            None,
            4,
            &mut reads,
        )?;
        Ok(self)
    }

    /// Joins a member that has no link, with another as the one that is chosen.
    fn link(self, alloc: Global, x: u32, y: u32) -> Result<Draft, NoMemory> {
        self.link_by::<Brand>(alloc, x, y, Blank::new(1))
    }

    fn choice_by<L: Ledger>(
        &self,
        alloc: Global,
        keys: &[Key],
        blank: Blank,
    ) -> Result<List<u32>, NoMemory>
        requires name { blank.name ≡ L.name }
        requires parts { blank.parts ≡ L.parts }
        requires some { 0 < L.parts }
    {
        let mut reads = Steps::<L>::new(blank);
        if !are_live(&self.edit, &self.base, keys, &mut reads) {
            return Ok(List::new(alloc));
        }
        select(alloc, &self.edit, &self.base, keys, 4, &mut reads)
    }

    fn choice(&self, alloc: Global, keys: &[Key]) -> Result<List<u32>, NoMemory> {
        self.choice_by::<Brand>(alloc, keys, Blank::new(1))
    }

    fn has_by<L: Ledger>(&self, id: u32, ids: &[u32], blank: Blank) -> bool
        requires name { blank.name ≡ L.name }
        requires parts { blank.parts ≡ L.parts }
        requires some { 0 < L.parts }
    {
        let mut reads = Steps::<L>::new(blank);
        match self.edit.node(&self.base, id, &mut reads) {
            Some(node) => links(node, 0) == ids,
            None => false,
        }
    }

    /// Whether a member has these links, in this order.
    fn has(&self, id: u32, ids: &[u32]) -> bool {
        self.has_by::<Brand>(id, ids, Blank::new(1))
    }
}

/// A hub and these leaves, each joined to the hub as it comes.
fn star(alloc: Global, leaves: &[u64]) -> Result<Draft, NoMemory> {
    let mut draft = Draft::new(alloc)?.add(alloc, 0)?;
    let mut id = 0;
    for word in leaves {
        id = id % 100 + 1;
        draft = draft.add(alloc, *word)?.link(alloc, id, 0)?;
    }
    Ok(draft)
}

// The leaves are one bit from the hub and two from one another. The ninth is no nearer than the others, so the full
// hub refuses it; of the leaves, which all have room, the first is the nearest to it by name.
#[test]
fn ninth_leaf_is_joined_to_the_first(rt: HostRuntime) -> Result<(), NoMemory> {
    let alloc = rt.alloc();
    let eight = star(alloc, &[1, 2, 4, 8, 16, 32, 64, 128])?;
    assert!(rt; eight.has(0, &[1, 2, 3, 4, 5, 6, 7, 8]));
    assert!(rt; eight.has(8, &[0]));
    let nine = eight.add(alloc, 256)?.link(alloc, 9, 0)?;
    assert!(rt; nine.has(0, &[1, 2, 3, 4, 5, 6, 7, 8]));
    assert!(rt; nine.has(9, &[1]));
    assert!(rt; nine.has(1, &[0, 9]));
    Ok(())
}

// Leaves two bits from the hub, and a nearer member: the farthest leaf of greatest name has no other link, so it
// stays. Once it has one, it gives way to the next that is nearer.
#[test]
fn an_only_link_stays(rt: HostRuntime) -> Result<(), NoMemory> {
    let alloc = rt.alloc();
    let full = star(alloc, &[3, 12, 48, 192, 768, 3072, 12288, 49152])?;
    let nine = full.add(alloc, 1 << 20)?.link(alloc, 9, 0)?;
    assert!(rt; nine.has(0, &[1, 2, 3, 4, 5, 6, 7, 8]));
    assert!(rt; nine.has(9, &[1]));
    let ten = nine.add(alloc, 49152)?.link(alloc, 10, 8)?;
    assert!(rt; ten.has(8, &[0, 10]));
    let eleven = ten.add(alloc, 1 << 21)?.link(alloc, 11, 0)?;
    assert!(rt; eleven.has(0, &[1, 2, 3, 4, 5, 6, 7, 11]));
    assert!(rt; eleven.has(8, &[10]));
    assert!(rt; eleven.has(11, &[0]));
    Ok(())
}

// To a new member of the word 0: the candidates 1 and 3 are two bits apart and one from it; 2 is one bit from 1.
#[test]
fn nearer_ones_shadow_a_candidate(rt: HostRuntime) -> Result<(), NoMemory> {
    let alloc = rt.alloc();
    let draft = star(alloc, &[1, 3, 4])?;
    let keys = [
        Key { dist: 1, id: 1 },
        Key { dist: 1, id: 3 },
        Key { dist: 2, id: 2 },
    ];
    let chosen = draft.choice(alloc, &keys)?;
    let expected: &[u32] = &[1, 3];
    assert!(rt; chosen.as_slice() == expected);
    Ok(())
}
