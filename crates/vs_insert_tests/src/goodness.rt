//! Whether a graph is good, computed plainly.
use std::sync::ledger::Ledger;
use vs_graph::{Graph, Node, Nodes, Steps, links};

/// What is wrong with a graph.
#[derive(Clone, Copy, Debug, PartialEq, Eq)]
pub enum Fault {
    /// A member's words are not those of a vector of the graph's dimension.
    Words,
    /// A level is above 15.
    Level,
    /// A member has not one list of links for each layer up to its level.
    Lists,
    /// Two members have one name.
    Name,
    /// A member has more links at a layer than it may have.
    TooManyLinks,
    /// A member has a link twice.
    RepeatedLink,
    /// A member is linked to itself.
    LinkToItself,
    /// A member is linked to nobody, or to one that doesn't stand at the layer.
    LinkToNobody,
    /// A link is not there from its other end.
    LinkOneWay,
    /// A member has no link at a layer where another stands.
    Alone,
    /// The entry is not of greatest level, or there is one without members, or none beside members.
    Entry,
    /// There are more or fewer members than there should be.
    Count,
    /// The removed member is still there, or another one changed.
    Change,
}

/// The bounds that each member keeps.
#[derive(Clone, Copy)]
pub struct Bounds {
    pub m: u16,
    pub dim: u32,
}

fn level_at<N: Nodes, L: Ledger>(nodes: &N, id: u32, reads: &mut Steps<L>) -> Option<u8> {
    match nodes.get(id, reads) {
        Some(node) => Some(node.level),
        None => None,
    }
}

fn check_node(node: &Node, dim: u32) -> Result<(), Fault> {
    if node.body.bits().len() != dim.div_ceil(64) as usize {
        return Err(Fault::Words);
    }
    if node.level > 15 {
        return Err(Fault::Level);
    }
    if node.links.len() != node.level as usize + 1 {
        return Err(Fault::Lists);
    }
    Ok(())
}

fn check_name<N: Nodes, L: Ledger>(
    nodes: &N,
    id: u32,
    name: &[u8],
    reads: &mut Steps<L>,
) -> Result<(), Fault> {
    for other in 0..nodes.limit() {
        match nodes.get(other, reads) {
            Some(node) if other != id && node.body.name() == name => {
                return Err(Fault::Name);
            }
            _ => {}
        }
    }
    Ok(())
}

/// Whether another stands at a layer.
fn has_company<N: Nodes, L: Ledger>(nodes: &N, id: u32, layer: u8, reads: &mut Steps<L>) -> bool {
    for other in 0..nodes.limit() {
        match level_at(nodes, other, reads) {
            Some(level) if other != id && layer <= level => return true,
            _ => {}
        }
    }
    false
}

fn check_link<N: Nodes, L: Ledger>(
    nodes: &N,
    one: u32,
    other: u32,
    layer: u8,
    reads: &mut Steps<L>,
) -> Result<(), Fault> {
    if one == other {
        return Err(Fault::LinkToItself);
    }
    match nodes.get(other, reads) {
        Some(node) if layer <= node.level => {
            if links(node, layer).contains(&one) {
                Ok(())
            } else {
                Err(Fault::LinkOneWay)
            }
        }
        _ => Err(Fault::LinkToNobody),
    }
}

fn check_links<N: Nodes, L: Ledger>(
    nodes: &N,
    id: u32,
    own: &[u32],
    layer: u8,
    reads: &mut Steps<L>,
) -> Result<(), Fault> {
    for (place, other) in own.iter().enumerate() {
        if own[..place].contains(other) {
            return Err(Fault::RepeatedLink);
        }
        check_link(nodes, id, *other, layer, reads)?;
    }
    Ok(())
}

fn check_layer<N: Nodes, L: Ledger>(
    nodes: &N,
    bounds: Bounds,
    id: u32,
    own: &[u32],
    layer: u8,
    reads: &mut Steps<L>,
) -> Result<(), Fault> {
    let m = bounds.m as usize;
    let most = if layer == 0 { 2 * m } else { m };
    if own.len() > most {
        return Err(Fault::TooManyLinks);
    }
    if own.is_empty() && has_company(nodes, id, layer, reads) {
        return Err(Fault::Alone);
    }
    check_links(nodes, id, own, layer, reads)
}

fn check_member<N: Nodes, L: Ledger>(
    nodes: &N,
    bounds: Bounds,
    id: u32,
    node: &Node,
    reads: &mut Steps<L>,
) -> Result<(), Fault> {
    check_node(node, bounds.dim)?;
    check_name(nodes, id, node.body.name(), reads)?;
    for layer in 0u8..16 {
        if layer <= node.level {
            check_layer(nodes, bounds, id, links(node, layer), layer, reads)?;
        }
    }
    Ok(())
}

fn check_members<N: Nodes, L: Ledger>(
    nodes: &N,
    bounds: Bounds,
    count: u32,
    reads: &mut Steps<L>,
) -> Result<(), Fault> {
    let mut live: u32 = 0;
    for id in 0..nodes.limit() {
        if let Some(node) = nodes.get(id, reads) {
            check_member(nodes, bounds, id, node, reads)?;
            live = live.saturating_add(1);
        }
    }
    if live == count {
        Ok(())
    } else {
        Err(Fault::Count)
    }
}

fn top_level<N: Nodes, L: Ledger>(nodes: &N, reads: &mut Steps<L>) -> Option<u8> {
    let mut top = None;
    for id in 0..nodes.limit() {
        top = top.max(level_at(nodes, id, reads));
    }
    top
}

fn is_entry_right<N: Nodes, L: Ledger>(
    nodes: &N,
    entry: Option<u32>,
    reads: &mut Steps<L>,
) -> bool {
    let top = top_level(nodes, reads);
    match entry {
        Some(entry) => top.is_some() && level_at(nodes, entry, reads) == top,
        None => top.is_none(),
    }
}

/// Checks a whole map of so many members and its entry.
pub fn check_nodes<N: Nodes, L: Ledger>(
    nodes: &N,
    entry: Option<u32>,
    bounds: Bounds,
    count: u32,
    reads: &mut Steps<L>,
) -> Result<(), Fault> {
    check_members(nodes, bounds, count, reads)?;
    if is_entry_right(nodes, entry, reads) {
        Ok(())
    } else {
        Err(Fault::Entry)
    }
}

/// Checks a whole graph of so many members.
pub fn check_graph<N: Nodes, L: Ledger>(
    graph: &Graph<N>,
    count: u32,
    reads: &mut Steps<L>,
) -> Result<(), Fault> {
    let bounds = Bounds {
        m: graph.m(),
        dim: graph.dim(),
    };
    check_nodes(graph.nodes(), graph.entry(), bounds, count, reads)
}

/// The attribute of a node.
pub fn attr_text(node: &Node) -> Option<&[u8]> {
    match &node.attr {
        Some(attr) => Some(attr.get().text.as_slice()),
        None => None,
    }
}

fn is_same_member(one: Option<&Node>, other: Option<&Node>) -> bool {
    match (one, other) {
        (Some(one), Some(other)) => {
            one.level == other.level
                && one.body.name() == other.body.name()
                && one.body.bits() == other.body.bits()
                && attr_text(one) == attr_text(other)
        }
        (None, None) => true,
        _ => false,
    }
}

/// Checks that a removed member is gone, and that each other keeps its name, words, level and attribute.
pub fn check_others<N: Nodes, L: Ledger>(
    before: &N,
    after: &N,
    removed: u32,
    reads: &mut Steps<L>,
) -> Result<(), Fault> {
    for id in 0..before.limit().max(after.limit()) {
        let was = if id == removed {
            None
        } else {
            before.get(id, reads)
        };
        if !is_same_member(was, after.get(id, reads)) {
            return Err(Fault::Change);
        }
    }
    Ok(())
}
