//! The conditions of a search, computed plainly.
use std::sync::ledger::Ledger;
use vs_beam::Beam;
use vs_graph::{Nodes, Steps, degree, links};

/// The distance of a member of 64 bits to a word; 65 where there is none.
pub fn plain_distance<N: Nodes, L: Ledger>(
    nodes: &N,
    id: u32,
    word: u64,
    reads: &mut Steps<L>,
) -> u32 {
    match nodes.get(id, reads) {
        Some(node) => match node.body.bits().first() {
            Some(bits) => (*bits ^ word).count_ones(),
            None => 65,
        },
        None => 65,
    }
}

fn has(ids: &[u32], id: u32) -> bool {
    ids.contains(&id)
}

fn are_links_tried<N: Nodes, L: Ledger>(
    nodes: &N,
    tried: &[u32],
    id: u32,
    reads: &mut Steps<L>,
) -> bool {
    match nodes.get(id, reads) {
        Some(node) => {
            for other in links(node, 0) {
                if !has(tried, *other) {
                    return false;
                }
            }
            true
        }
        None => false,
    }
}

/// How many of the ids come before this distance and id.
fn place<N: Nodes, L: Ledger>(
    nodes: &N,
    ids: &[u32],
    at: (u32, u32),
    word: u64,
    reads: &mut Steps<L>,
) -> u32 {
    let mut count: u32 = 0;
    for id in ids {
        let dist = plain_distance(nodes, *id, word, reads);
        if dist < at.0 || (dist == at.0 && *id < at.1) {
            count = count.saturating_add(1);
        }
    }
    count
}

/// The least distance from which a member need not have been expanded: that of the last of a full list of what was found.
fn bound(beam: &Beam, ef: u32) -> u32 {
    match beam.found.as_slice().last() {
        Some(last) if beam.found.len() >= ef as usize => last.dist,
        _ => u32::MAX,
    }
}

/// Whether all neighbours were tried of each tried member that is among the first `ef`, or nearer than the last found, or where fewer
/// were found.
pub fn is_closed<N: Nodes, L: Ledger>(
    nodes: &N,
    beam: &Beam,
    word: u64,
    ef: u32,
    reads: &mut Steps<L>,
) -> bool {
    let tried = beam.tried.as_slice();
    for id in tried {
        let dist = plain_distance(nodes, *id, word, reads);
        let near = dist < bound(beam, ef) || place(nodes, tried, (dist, *id), word, reads) < ef;
        if near && !are_links_tried(nodes, tried, *id, reads) {
            return false;
        }
    }
    true
}

/// Whether each found distance is right, and no key is less than the one before it.
pub fn is_in_order<N: Nodes, L: Ledger>(
    nodes: &N,
    beam: &Beam,
    word: u64,
    reads: &mut Steps<L>,
) -> bool {
    let mut before = (0, 0);
    for key in beam.found.as_slice() {
        let at = (key.dist, key.id);
        if at < before || plain_distance(nodes, key.id, word, reads) != key.dist {
            return false;
        }
        before = at;
    }
    true
}

/// How many of the `count` nearest of all members were found.
pub fn recalled<N: Nodes, L: Ledger>(
    nodes: &N,
    beam: &Beam,
    word: u64,
    count: u32,
    reads: &mut Steps<L>,
) -> u32 {
    let mut found: u32 = 0;
    for key in beam.found.as_slice() {
        if nearer(nodes, (key.dist, key.id), word, reads) < count {
            found = found.saturating_add(1);
        }
    }
    found
}

/// How many of all members come before this distance and id.
fn nearer<N: Nodes, L: Ledger>(nodes: &N, at: (u32, u32), word: u64, reads: &mut Steps<L>) -> u32 {
    let mut count: u32 = 0;
    for id in 0..nodes.limit() {
        let dist = plain_distance(nodes, id, word, reads);
        if dist < at.0 || (dist == at.0 && id < at.1) {
            count = count.saturating_add(1);
        }
    }
    count
}

/// One look-up, and for each expanded member one and one for each of its links.
pub fn allowed<N: Nodes, L: Ledger>(nodes: &N, beam: &Beam, reads: &mut Steps<L>) -> u64 {
    let mut count: u64 = 1;
    for id in beam.expanded.as_slice() {
        let own = match nodes.get(*id, reads) {
            Some(node) => degree(node, 0) as u64,
            None => 0,
        };
        count = count.saturating_add(own).saturating_add(1);
    }
    count
}
