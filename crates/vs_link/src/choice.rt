//! The choice of neighbours: the heuristic of the HNSW paper, over candidates in the order of their distances.
ghost use Rattle.std.specs.Prelude.{◌≡◌, ◌≤◌, ◌+◌, ◌*◌, ℕ, List as Items, IsSome, IfOk, All, map, length};
ghost use Rattle.vs_defs.specs.Vector.{Vector, ham};
ghost use Rattle.vs_defs.specs.Links.{bits_at};
ghost use Rattle.vs_defs.specs.Linking as defs;
ghost use Rattle.vs_graph.specs.Edits.{overwritten};
ghost use Rattle.vs_graph.specs.Good.{body_at, AreLinksGood, HasGoodLinksFor};
ghost use Rattle.vs_graph.specs.Bodies.{words_at, AreAlike};
ghost use Rattle.vs_graph.specs.Standing.{AreIds, members_of, name_of};
ghost use Rattle.vs_link.specs.Selected.{is_shadowed, selected};

use std::alloc::Global;
use std::sync::ledger::Ledger;
use vs_graph::{Edit, Nodes, Steps};
use vs_hamming::distance;
use vs_outside::{List, NoMemory};
use vs_rank::Key;

/// The words of a live member.
fn words<'a, N: Nodes, L: Ledger>(
    edit: &'a Edit,
    base: &'a N,
    id: u32,
    reads: &mut Steps<L>,
) -> &'a [u64]
    requires { IsSome (overwritten edit.now (N.at base.now) id) }
    ensures value { result.now ≡ words_at (body_at (overwritten edit.entry.now (N.at base.entry.now))) id }
    ensures told { reads.new ≡ reads.old + 1 }
{
    edit.words(base, id, reads)
}

/// Whether a chosen member is nearer to the candidate than the new member is.
fn shadowed<N: Nodes, L: Ledger>(
    edit: &Edit,
    base: &N,
    chosen: &[u32],
    key: Key,
    reads: &mut Steps<L>,
) -> bool
    requires alike { AreAlike (body_at (overwritten edit.now (N.at base.now))) }
    requires candidate { IsSome (overwritten edit.now (N.at base.now) key.id) }
    requires live { All (λ id. IsSome (overwritten edit.now (N.at base.now) id)) chosen.now }
    ensures value { result ≡ is_shadowed (body_at (overwritten edit.now (N.at base.now))) chosen.now key }
    ensures told { reads.new ≤ reads.old + (1 + length chosen.now) }
{
    let candidate = words(edit, base, key.id, reads);
    for id in chosen {
        if distance(words(edit, base, *id, reads), candidate) < key.dist {
            return true;
        }
    }
    false
}

/// Which of some candidates a new member is linked to: each one before which fewer than `m` are chosen, and none that
/// is nearer to it than the new member is. The candidates come in the order of their distances to the new member, each
/// with its distance. The rule of choice is the heuristic of the HNSW paper.
pub fn select<N: Nodes, L: Ledger>(
    alloc: Global,
    edit: &Edit,
    base: &N,
    sorted: &[Key],
    m: u16,
    reads: &mut Steps<L>,
) -> Result<List<u32>, NoMemory>
    requires good { HasGoodLinksFor (overwritten edit.now (N.at base.now)) m }
    requires live { All (λ key. IsSome (overwritten edit.now (N.at base.now) key.id)) sorted.now }
    ensures chosen { IfOk result (λ chosen. chosen ≡ selected (body_at (overwritten edit.now (N.at base.now))) m sorted.now) }
    ensures named { IfOk result (λ chosen. (dim : ℕ) (ids : Items ℕ) (query : Vector) → AreLinksGood (overwritten edit.now (N.at base.now)) m dim → AreIds (overwritten edit.now (N.at base.now)) ids
        → All (λ key. key.dist ≡ ham query (bits_at (members_of (overwritten edit.now (N.at base.now)) dim ids) (name_of (overwritten edit.now (N.at base.now)) key.id))) sorted.now
        → map (name_of (overwritten edit.now (N.at base.now))) chosen
        ≡ defs.selected (bits_at (members_of (overwritten edit.now (N.at base.now)) dim ids)) query m (map (λ key. name_of (overwritten edit.now (N.at base.now)) key.id) sorted.now)) }
    ensures told { reads.new ≤ reads.old + length sorted.now * (m + 1) }
{
    let mut chosen = List::new(alloc);
    for key in sorted {
        if chosen.len() >= m as usize {
            continue;
        }
        if shadowed(edit, base, chosen.as_slice(), *key, reads) {
            continue;
        }
        chosen.push(key.id)?;
    }
    Ok(chosen)
}
