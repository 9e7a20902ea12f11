//! Generated vectors. Each stream of words of a seed gives its own: 0 the levels, 1 the members, 2 what is looked for, 3 the centers.
ghost use Rattle.std.specs.Prelude.{◌≡◌, ◌≤◌, ◌<◌, ◌+◌, ◌*◌, ◌/◌, IfOk, All, length};

use crate::case::{Case, Kind};
use crate::error::MeasureError;
use crate::table::{Row, Table};
use rand_core::utils::NextWord;
use rand_pcg::Lcg64Xsh32;
use std::alloc::{AllocError, Global};
use vs_bits::{Bits, Sign};
use vs_outside::{NoMemory, Text};

/// How many centers the clustered vectors have.
const CENTERS: u32 = 64;

/// So many words, each bit drawn for itself.
fn uniform(alloc: Global, count: u32, source: &mut Lcg64Xsh32) -> Result<Vec<u32>, AllocError>
    ensures { IfOk result (λ words. length words.items ≡ count) }
{
    let mut words = Vec::with_capacity(alloc, count as usize)?;
    for number in 0..count {
        words.push(source.next_word())?;
    }
    Ok(words)
}

/// The words of a center, each bit turned at a chance of one in eight: where three words in turn have it.
fn around(alloc: Global, center: &[u32], source: &mut Lcg64Xsh32) -> Result<Vec<u32>, AllocError>
    ensures { IfOk result (λ words. length words.items ≡ length center.now) }
{
    let mut words = Vec::with_capacity(alloc, center.len())?;
    for word in center {
        let turned = source.next_word() & source.next_word() & source.next_word();
        words.push(*word ^ turned)?;
    }
    Ok(words)
}

fn sign_at(words: &[u32], place: u32) -> Sign
    requires { place < 32 * length words.now }
{
    if words[place as usize / 32] >> (place % 32) & 1 == 1 {
        Sign::Plus
    } else {
        Sign::Minus
    }
}

/// The first `dim` bits of the words, those of each from its lowest on.
fn bits_of(alloc: Global, dim: u32, words: &[u32]) -> Result<Bits, NoMemory>
    requires low { 1 ≤ dim }
    requires high { dim ≤ 32768 }
    requires enough { dim ≤ 32 * length words.now }
    ensures { IfOk result (λ bits. length bits ≡ dim) }
{
    let mut signs = Vec::with_capacity(alloc, dim as usize)?;
    for place in 0..dim {
        signs.push(sign_at(words, place))?;
    }
    Bits::from_signs(alloc, signs.as_slice())
}

/// The centers of the case: none for uniform vectors.
fn centers_of(alloc: Global, case: &Case) -> Result<Vec<Vec<u32>>, AllocError>
    ensures { IfOk result (λ centers. All (λ center. length center.items ≡ (case.now.dim + 31) / 32) centers.items) }
{
    let mut source = Lcg64Xsh32::new(case.seed, 3);
    let mut centers = Vec::new(alloc);
    if case.kind == Kind::Clustered {
        'centers: for _ in 0..CENTERS {
            centers.push(uniform(alloc, case.dim.div_ceil(32), &mut source)?)?;
        }
    }
    Ok(centers)
}

/// The next vector: of words of its own where there are no centers, else around the one that a word chooses.
fn next_bits(
    alloc: Global,
    dim: u32,
    centers: &[Vec<u32>],
    source: &mut Lcg64Xsh32,
) -> Result<Bits, NoMemory>
    requires low { 1 ≤ dim }
    requires high { dim ≤ 32768 }
    requires long { All (λ center. length center.items ≡ (dim + 31) / 32) centers.now }
    ensures { IfOk result (λ bits. length bits ≡ dim) }
{
    let words = if centers.is_empty() {
        uniform(alloc, dim.div_ceil(32), source)?
    } else {
        let number = source.next_word() as usize % centers.len();
        around(alloc, centers[number].as_slice(), source)?
    };
    bits_of(alloc, dim, words.as_slice())
}

/// So many generated vectors of the stream of the case's seed, named m0, m1 and so on.
pub fn table_of(alloc: Global, case: &Case, count: u32, stream: u64) -> Result<Table, MeasureError>
    ensures { IfOk result (λ table. table.dim ≡ case.now.dim) }
{
    let centers = centers_of(alloc, case)?;
    let mut source = Lcg64Xsh32::new(case.seed, stream);
    let mut table = Table::new(alloc, case.dim);
    for number in 0..count {
        let name = format!(in alloc; "m{number}")?;
        table.push(Row {
            name: Text::from_slice(alloc, name.as_bytes())?,
            bits: next_bits(alloc, case.dim, centers.as_slice(), &mut source)?,
        })?;
    }
    Ok(table)
}
