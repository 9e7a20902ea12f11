//! A change of one list of links as a value, which an edit applies where the node is.
ghost use Rattle.std.specs.Prelude.{◌≡◌, ◌<◌, length, OnOk, OnErr, IsSomeAnd, option_map};
ghost use Rattle.vs_graph.specs.Relinks.{relinked};

use crate::Node;
use vs_outside::NoMemory;

/// A change of a member's links at one layer.
#[derive(Clone, Copy)]
pub enum LinkChange {
    /// One more, after the others.
    Add(u32),
    /// One fewer, the others in their order.
    Remove(u32),
}

impl LinkChange {
    /// Changes a node where it is.
    pub fn apply(self, node: &mut Option<Node>, layer: u8) -> Result<(), NoMemory>
        requires { IsSomeAnd node.old (λ there. layer < length there.links) }
        ensures ok { OnOk result (node.new ≡ option_map (relinked layer self) node.old) }
        ensures err { OnErr result (node.new ≡ node.old) }
    {
        match node {
            Some(there) => match self {
                LinkChange::Add(id) => there.links.push(layer, id),
                LinkChange::Remove(id) => {
                    there.links.remove(layer, id);
                    Ok(())
                }
            },
            None => unreachable!(),
        }
    }
}
