//! What tests look at in a graph.
use super::*;
use std::process::Abort;
use std::sync::ledger::Ledger;
use vs_graph::{Graph, Nodes, Steps, links};

/// Asserts that a member has these links at a layer.
pub fn assert_links<A: Abort, N: Nodes, L: Ledger>(
    rt: &A,
    graph: &Graph<N>,
    id: u32,
    layer: u8,
    ids: &[u32],
    reads: &mut Steps<L>,
) {
    match graph.nodes().get(id, reads) {
        Some(node) => assert!(rt; links(node, layer) == ids, "links of {id} at layer {layer}"),
        None => panic!(rt; "no member has the id {id}"),
    }
}

/// Asserts that a member has this attribute; none where it is empty.
pub fn assert_attr<A: Abort, N: Nodes, L: Ledger>(
    rt: &A,
    graph: &Graph<N>,
    id: u32,
    attr: &[u8],
    reads: &mut Steps<L>,
) {
    match graph.nodes().get(id, reads) {
        Some(node) => assert!(rt;
            attr_text(node).unwrap_or(b"") == attr,
            "the attribute of {id}"
        ),
        None => panic!(rt; "no member has the id {id}"),
    }
}
