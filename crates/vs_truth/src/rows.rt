//! Members in a list of rows, each with what a member of the graph holds.
ghost use Rattle.std.specs.Prelude.{◌≡◌, ◌<◌, ◌^◌, Bool, Option, length, All, IfOk};
ghost use Rattle.vs_defs.specs.Bytes.{Bytes};
ghost use Rattle.vs_defs.specs.FilterText.{passes_filter};
ghost use Rattle.vs_defs.specs.Truth as truth;
ghost use Rattle.vs_defs.specs.Words.{FitsDimension};
ghost use Rattle.vs_rank.specs.Tests.{Attribute, Answers};
ghost use Rattle.vs_truth.specs.Nearest.{AreHits, nearest_passing};
ghost use Rattle.vs_truth.specs.RowMembers.{members_of_rows};

use crate::pieces::nearest_in_pieces;
use crate::{Hit, Members, Run};
use std::alloc::Global;
use std::sync::ledger::Ledger;
use std::thread::Threads;
use vs_bits::Bits;
use vs_graph::{Attr, InlineBody, RefCounted, Steps};
use vs_outside::{List, NoMemory};
use vs_rank::{Testing, Wanted};

/// A member's name and vector, and its attribute.
#[derive(Drop)]
pub struct Row {
    pub body: InlineBody,
    pub attr: Option<RefCounted<Attr>>,
}

/// Rows whose vectors have one dimension.
#[derive(Drop)]
struct Rows<'a> {
    rows: &'a [Row],
    dim: u32,
    ghost few: { length rows.now < 2 ^ 32 },
    ghost fit: { All (λ row. FitsDimension dim row.body.bits) rows.now },
}

impl<'a> Members for Rows<'a> {
    ghost use Rattle.vs_truth.specs.RowMembers.{members_of_rows};

    ghost members = { λ r. members_of_rows r.dim r.rows.now };

    fn count(&self) -> u32 {
        self.rows.len() as u32
    }

    fn bits<L: Ledger>(&self, place: u32, reads: &mut Steps<L>) -> &[u64] {
        reads.tick();
        self.rows[place as usize].body.bits()
    }

    fn beside<L: Ledger>(&self, _place: u32, _most: u32, _reads: &mut Steps<L>) -> Run {
        Run::none()
    }

    fn name(&self, place: u32) -> &[u8] {
        self.rows[place as usize].body.name()
    }

    fn attr(&self, place: u32) -> Option<&[u8]> {
        match &self.rows[place as usize].attr {
            Some(attr) => Some(attr.get().text.as_slice()),
            None => None,
        }
    }
}

/// The first `count` of the rows that pass, by distance, then name, by several threads where there are many rows.
pub fn nearest_wide<F: Testing + Sync>(
    rt: &(impl Threads + Sync),
    alloc: Global,
    rows: &[Row],
    query: &Bits,
    count: u32,
    wanted: &Wanted<F>,
) -> Result<List<Hit>, NoMemory>
    requires few { length rows.now < 2 ^ 32 }
    requires fits { All (λ row. FitsDimension (length query.now) row.body.bits) rows.now }
    ensures hits { IfOk result (λ hits. (passes : Attribute → Bool) → Answers (F.gives wanted.now.test) passes → AreHits query.now (members_of_rows (length query.now) rows.now) (nearest_passing passes count query.now (members_of_rows (length query.now) rows.now)) hits) }
    ensures filter { IfOk result (λ hits. (text : Option Bytes) → Answers (F.gives wanted.now.test) (passes_filter text) → AreHits query.now (members_of_rows (length query.now) rows.now) (truth.nearest count query.now text (members_of_rows (length query.now) rows.now)) hits) }
{
    let dim = query.dim();
    let rows = Rows { rows, dim };
    nearest_in_pieces(rt, alloc, &rows, query, count, wanted)
}
