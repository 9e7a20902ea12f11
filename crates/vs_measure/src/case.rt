//! What is to be measured, as the program's words say it. A case keeps that a graph of its M and dimension can be made and searched.
ghost use Rattle.std.specs.Prelude.{◌≡◌, ◌≤◌, IfOk, All};

use crate::error::MeasureError;
use std::alloc::Global;
use vs_outside::List;

/// How the generated vectors lie.
#[derive(Clone, Copy, Debug, PartialEq, Eq, Drop)]
pub enum Kind {
    /// Each bit is drawn for itself.
    Uniform,
    /// Each vector is one of 64 centers, with every bit turned at a chance of one in eight.
    Clustered,
}

/// A graph of generated members, and the searches in it.
#[derive(Drop)]
pub struct Case {
    pub kind: Kind,
    /// At most 1,048,576.
    pub members: u32,
    /// 1 to 32,768 bits.
    pub dim: u32,
    /// 4 to 256.
    pub m: u16,
    /// 1 to 65,536, as each width of the searches.
    pub ef_construction: u32,
    pub seed: u64,
    /// At most 65,536.
    pub searches: u32,
    /// The widths of the searches.
    pub efs: List<u32>,
    ghost dim_low: { 1 ≤ dim },
    ghost dim_high: { dim ≤ 32768 },
    ghost m_low: { 4 ≤ m },
    ghost m_high: { m ≤ 256 },
    ghost chosen_wide: { 1 ≤ ef_construction },
    ghost searched_wide: { All (λ ef. 1 ≤ ef) efs },
}

fn kind_of(word: &str) -> Result<Kind, MeasureError> {
    match word {
        "uniform" => Ok(Kind::Uniform),
        "clustered" => Ok(Kind::Clustered),
        _ => Err(MeasureError::BadWords),
    }
}

fn number_of(word: &str, least: u32, most: u32) -> Result<u32, MeasureError>
    ensures least { IfOk result (λ number. least ≤ number) }
    ensures most { IfOk result (λ number. number ≤ most) }
{
    match word.parse::<u32>() {
        Ok(number) if least <= number && number <= most => Ok(number),
        _ => Err(MeasureError::BadNumber),
    }
}

fn efs_of(alloc: Global, words: &[String]) -> Result<List<u32>, MeasureError>
    ensures { IfOk result (λ efs. All (λ ef. 1 ≤ ef) efs) }
{
    let mut efs = List::new(alloc);
    for word in words {
        efs.push(number_of(word.as_str(), 1, 65_536)?)?;
    }
    Ok(efs)
}

/// Reads the words in their order: `uniform` or `clustered`, the number of members, the dimension, M, the width of an insertion's beams, the
/// seed, the number of searches, and the widths to search with.
pub fn case_of(alloc: Global, words: &[String]) -> Result<Case, MeasureError> {
    match words {
        [
            kind,
            members,
            dim,
            m,
            ef_construction,
            seed,
            searches,
            efs @ ..,
        ] => Ok(Case {
            kind: kind_of(kind.as_str())?,
            members: number_of(members.as_str(), 0, 1_048_576)?,
            dim: number_of(dim.as_str(), 1, 32_768)?,
            m: number_of(m.as_str(), 4, 256)? as u16,
            ef_construction: number_of(ef_construction.as_str(), 1, 65_536)?,
            seed: u64::from(number_of(seed.as_str(), 0, u32::MAX)?),
            searches: number_of(searches.as_str(), 0, 65_536)?,
            efs: efs_of(alloc, efs)?,
        }),
        _ => Err(MeasureError::BadWords),
    }
}
