//! The vector of a member.
ghost use Rattle.std.specs.Prelude.{◌≡◌, ◌<◌, ◌≤◌, ◌+◌, length, slice_get, IfOk, IsSomeAnd};

use std::alloc::Global;
use std::sync::ledger::Ledger;
use vs_bits::Bits;
use vs_graph::{Nodes, Steps};
use vs_outside::{List, NoMemory};
use vs_set::Snap;
use vs_truth::Members;

/// The vector of the member at a place, by one read at most.
pub(crate) fn bits_at<N: Nodes, L: Ledger>(
    alloc: Global,
    snap: &Snap<N>,
    place: u32,
    reads: &mut Steps<L>,
) -> Result<Bits, NoMemory>
    requires { place < length snap.now.contents.members }
    ensures bits { IfOk result (λ bits. IsSomeAnd (slice_get snap.now.contents.members place) (λ x. bits ≡ x.bits)) }
    ensures dim { IfOk result (λ bits. length bits ≡ snap.now.contents.dim) }
    ensures told { reads.new ≤ reads.old + 1 }
{
    let dim = snap.dim();
    Bits::from_words(alloc, dim, snap.bits(place, reads))
}

/// The bits of a vector, one by one.
pub(crate) fn signs_of(alloc: Global, bits: &Bits) -> Result<List<bool>, NoMemory>
    ensures { IfOk result (λ signs. signs ≡ bits.now) }
{
    let mut signs = Vec::with_capacity(alloc, bits.dim() as usize)?;
    for i in 0..bits.dim() {
        signs.push_reserved(bits.bit(i));
    }
    Ok(List::from_vec(signs))
}
