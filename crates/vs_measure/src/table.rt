//! Generated members as a list, for the exact scan.
ghost use Rattle.std.specs.Prelude.{◌≡◌, ◌<◌, ◌≤◌, ◌^◌, All, length, []};

use crate::error::MeasureError;
use std::alloc::Global;
use std::sync::ledger::Ledger;
use vs_bits::Bits;
use vs_graph::Steps;
use vs_outside::{List, Text};
use vs_truth::{Members, Run};

/// A member's name and its vector.
#[derive(Drop)]
pub struct Row {
    pub name: Text,
    pub bits: Bits,
}

/// Members of one dimension, for the exact scan.
#[derive(Drop)]
pub struct Table {
    rows: List<Row>,
    dim: u32,
    ghost few: { length rows ≤ 2 ^ 20 },
    ghost wide: { All (λ row. length row.bits ≡ dim) rows },
}

impl Table {
    pub fn new(alloc: Global, dim: u32) -> Table
        ensures { result.dim ≡ dim }
    {
        Table {
            rows: List::new(alloc),
            dim,
        }
    }

    pub fn push(&mut self, row: Row) -> Result<(), MeasureError>
        requires { length row.bits ≡ self.old.dim }
        ensures { self.new.dim ≡ self.old.dim }
    {
        if self.rows.len() >= 1_048_576 {
            return Err(MeasureError::TooMany);
        }
        self.rows.push(row)?;
        Ok(())
    }

    pub fn rows(&self) -> &[Row]
        ensures rows { result.now ≡ self.now.rows }
        ensures wide { All (λ row. length row.bits ≡ self.now.dim) result.now }
        ensures few { length result.now ≤ 2 ^ 20 }
    {
        self.rows.as_slice()
    }
}

impl Members for Table {
    ghost use Rattle.std.specs.Prelude.{map, None};

    ghost members = { λ t. map (λ row. record { name = row.name; bits = row.bits; attr = None; level = 0 }) t.rows };

    fn count(&self) -> u32 {
        self.rows.len() as u32
    }

    fn bits<L: Ledger>(&self, place: u32, reads: &mut Steps<L>) -> &[u64] {
        reads.tick();
        self.rows.as_slice()[place as usize].bits.words()
    }

    fn beside<L: Ledger>(&self, _place: u32, _most: u32, _reads: &mut Steps<L>) -> Run {
        Run::none()
    }

    fn name(&self, place: u32) -> &[u8] {
        self.rows.as_slice()[place as usize].name.as_slice()
    }

    fn attr(&self, _place: u32) -> Option<&[u8]> {
        None
    }
}
