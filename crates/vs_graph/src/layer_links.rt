//! The ids to which a member links, layer by layer.
ghost use Rattle.std.specs.Prelude.{◌≡◌, ◌<◌, ◌+◌, [], ◌∷◌, ◌++◌, length, slice_get, slice_set, unwrap_or, OnOk, OnErr, IfOk};
ghost use Rattle.vs_graph.specs.Newcomer.{AreEmptyLists};
ghost use Rattle.vs_graph.specs.Table.{without};

use smallvec::SmallVec;
use std::alloc::Global;
use std::marker::Model;
use vs_outside::NoMemory;

/// Ids in order, of which up to `N` lie in the value. A contract sees the list of them.
#[derive(Drop)]
struct Ids<const N: usize> {
    ids: SmallVec<u32, N>,
}

impl<const N: usize> Model for Ids<N> {
    ghost use Rattle.std.specs.Prelude.{ℕ, List as Items};

    ghost Value = { Items ℕ };

    ghost view = { λ l. l.ids.items };
}

impl<const N: usize> Ids<N> {
    fn new(alloc: Global) -> Ids<N>
        ensures { result ≡ [] }
    {
        Ids {
            ids: SmallVec::new(alloc),
        }
    }

    fn as_slice(&self) -> &[u32]
        ensures { result.now ≡ self.now }
    {
        self.ids.as_slice()
    }

    fn push(&mut self, id: u32) -> Result<(), NoMemory>
        ensures ok { OnOk result (self.new ≡ self.old ++ id ∷ []) }
        ensures err { OnErr result (self.new ≡ self.old) }
    {
        self.ids.push(id)?;
        Ok(())
    }

    fn remove(&mut self, id: u32)
        ensures { self.new ≡ without id self.old }
    {
        self.ids.retain(|other: &mut u32| *other != id);
    }

    fn clear(&mut self)
        ensures { self.new ≡ [] }
    {
        self.ids.clear();
    }

    fn try_clone(&self, alloc: Global) -> Result<Ids<N>, NoMemory>
        ensures { IfOk result (λ copy. copy ≡ self.now) }
    {
        Ok(Ids {
            ids: SmallVec::from_slice(alloc, self.ids.as_slice())?,
        })
    }
}

/// The list of ids of each layer from 0 up. Of layer 0 up to 32 ids lie in the value itself, as many as a member has in a graph with
/// at most 16 links a member; those of the layers above are in one block, up to 16 a layer. A contract sees a list of lists.
#[derive(Drop)]
pub struct LayerLinks {
    lowest: Ids<32>,
    upper: Vec<Ids<16>>,
}

impl Model for LayerLinks {
    ghost use Rattle.std.specs.Prelude.{ℕ, List as Items, ◌∷◌};

    ghost Value = { Items (Items ℕ) };

    ghost view = { λ l. l.lowest ∷ l.upper.items };
}

impl LayerLinks {
    /// One empty list for each layer up to a level.
    pub fn new(alloc: Global, level: u8) -> Result<LayerLinks, NoMemory>
        ensures { IfOk result (λ links. AreEmptyLists (level + 1) links) }
    {
        let mut upper = Vec::with_capacity(alloc, level as usize)?;
        for _layer in 0..level {
            upper.push_reserved(Ids::new(alloc));
        }
        Ok(LayerLinks {
            lowest: Ids::new(alloc),
            upper,
        })
    }

    /// How many layers there are.
    pub fn len(&self) -> usize
        ensures { result ≡ length self.now }
    {
        self.upper.len() + 1
    }

    /// The ids at a layer; none above the last.
    pub fn at(&self, layer: u8) -> &[u32]
        ensures { result.now ≡ unwrap_or (slice_get self.now layer) [] }
    {
        if layer == 0 {
            return self.lowest.as_slice();
        }
        match self.upper.get(layer as usize - 1) {
            Some(list) => list.as_slice(),
            None => &[],
        }
    }

    /// Puts an id last at a layer.
    pub fn push(&mut self, layer: u8, id: u32) -> Result<(), NoMemory>
        requires { layer < length self.old }
        ensures ok { OnOk result (self.new ≡ slice_set self.old layer (unwrap_or (slice_get self.old layer) [] ++ id ∷ [])) }
        ensures err { OnErr result (self.new ≡ self.old) }
    {
        if layer == 0 {
            return self.lowest.push(id);
        }
        self.upper[layer as usize - 1].push(id)
    }

    /// Takes an id out at a layer; the others stay in their order. It takes no memory.
    pub fn remove(&mut self, layer: u8, id: u32)
        requires { layer < length self.old }
        ensures { self.new ≡ slice_set self.old layer (without id (unwrap_or (slice_get self.old layer) [])) }
    {
        if layer == 0 {
            self.lowest.remove(id);
        } else {
            self.upper[layer as usize - 1].remove(id);
        }
    }

    /// Takes all ids out at a layer. It takes no memory.
    pub fn clear(&mut self, layer: u8)
        requires { layer < length self.old }
        ensures { self.new ≡ slice_set self.old layer [] }
    {
        if layer == 0 {
            self.lowest.clear();
        } else {
            self.upper[layer as usize - 1].clear();
        }
    }

    /// Equal lists.
    pub fn try_clone(&self, alloc: Global) -> Result<LayerLinks, NoMemory>
        ensures { IfOk result (λ copy. copy ≡ self.now) }
    {
        let mut upper = Vec::with_capacity(alloc, self.upper.len())?;
        for list in &self.upper {
            upper.push_reserved(list.try_clone(alloc)?);
        }
        Ok(LayerLinks {
            lowest: self.lowest.try_clone(alloc)?,
            upper,
        })
    }
}
