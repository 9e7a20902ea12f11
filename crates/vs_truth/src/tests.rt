//! Searches over a table of members, with answers that were worked out by hand.
ghost use Rattle.std.specs.Prelude.{◌≡◌, ◌<◌, length, nat_le, false, All, IfOk};
ghost use Rattle.std.specs.Option.{option_map_or, option_copied};
ghost use Rattle.vs_rank.specs.Tests.{AnswersOne};

use crate::{Hit, Members, Run, nearest};
use std::alloc::Global;
use std::marker::Brand;
use std::sync::ledger::{Blank, Ledger};
use std::test::Fail;
use vs_bits::{Bits, Sign};
use vs_graph::Steps;
use vs_outside::{List, NoMemory, Text};
use vs_rank::{Testing, Wanted};

#[derive(Drop)]
struct Row {
    name: Text,
    bits: Bits,
    attr: Option<Text>,
}

/// Seven members of three components.
#[derive(Drop)]
struct Table {
    rows: [Row; 7],
    ghost seven: { length rows ≡ 7 },
    ghost three: { All (λ row. length row.bits ≡ 3) rows },
}

impl Members for Table {
    ghost use Rattle.std.specs.Prelude.{map};

    ghost members = { λ t. map (λ row. record { name = row.name; bits = row.bits; attr = row.attr; level = 0 }) t.rows };

    fn count(&self) -> u32 {
        7
    }

    fn bits<L: Ledger>(&self, place: u32, reads: &mut Steps<L>) -> &[u64] {
        reads.tick();
        self.rows[place as usize].bits.words()
    }

    fn beside<L: Ledger>(&self, _place: u32, _most: u32, _reads: &mut Steps<L>) -> Run {
        Run::none()
    }

    fn name(&self, place: u32) -> &[u8] {
        self.rows[place as usize].name.as_slice()
    }

    fn attr(&self, place: u32) -> Option<&[u8]> {
        match &self.rows[place as usize].attr {
            Some(text) => Some(text.as_slice()),
            None => None,
        }
    }
}

fn row_of(alloc: Global, name: &[u8], plus: [bool; 3], attr: Option<&[u8]>) -> Result<Row, NoMemory>
    ensures { IfOk result (λ row. length row.bits ≡ 3) }
{
    let signs = plus.map(|plus| if plus { Sign::Plus } else { Sign::Minus });
    let bits = Bits::from_signs(alloc, &signs)?;
    let attr = match attr {
        Some(text) => Some(Text::from_slice(alloc, text)?),
        None => None,
    };
    let name = Text::from_slice(alloc, name)?;
    Ok(Row { name, bits, attr })
}

fn seven_members(alloc: Global) -> Result<Table, NoMemory> {
    let rows = [
        row_of(alloc, b"b", [true, true, true], Some(b"x1"))?,
        row_of(alloc, b"B", [true, true, true], None)?,
        row_of(alloc, b"a", [true, true, true], Some(b"x2"))?,
        row_of(alloc, b"far", [false, false, false], Some(b"y"))?,
        row_of(alloc, b"near", [true, true, false], Some(b"x"))?,
        row_of(alloc, b"aa", [true, true, false], None)?,
        row_of(alloc, b"n", [false, true, true], Some(b"x"))?,
    ];
    Ok(Table { rows })
}

fn positive(alloc: Global) -> Result<Bits, NoMemory>
    ensures { IfOk result (λ bits. length bits ≡ 3) }
{
    let signs = [true, true, true].map(|plus| if plus { Sign::Plus } else { Sign::Minus });
    Bits::from_signs(alloc, &signs)
}

/// The nearest to a vector of three positive components.
fn found<F: Testing + Drop, L: Ledger>(
    alloc: Global,
    table: &Table,
    count: u32,
    test: F,
    blank: Blank,
) -> Result<List<Hit>, NoMemory>
    requires single { IsProp (F.ready test) }
    requires callable { F.ready test }
    requires answers { AnswersOne (F.gives test) }
    requires name { blank.name ≡ L.name }
    requires parts { blank.parts ≡ L.parts }
    requires some { 0 < L.parts }
{
    let wanted = Wanted::new(test);
    let query = positive(alloc)?;
    let mut reads = Steps::<L>::new(blank);
    nearest(alloc, table, &query, count, &wanted, &mut reads)
}

fn found_any(alloc: Global, table: &Table, count: u32) -> Result<List<Hit>, NoMemory> {
    found::<_, Brand>(alloc, table, count, |_: Option<&[u8]>| true, Blank::new(1))
}

fn hit((place, dist): (u32, u32)) -> Hit {
    Hit { place, dist }
}

#[test]
fn finds_the_first_by_distance_then_name(rt: HostRuntime) -> Result<(), Fail> {
    let table = seven_members(rt.alloc())?;
    let cases: [(u32, &[(u32, u32)]); 6] = [
        (0, &[]),
        (1, &[(1, 0)]),
        (2, &[(1, 0), (2, 0)]),
        (4, &[(1, 0), (2, 0), (0, 0), (5, 1)]),
        (5, &[(1, 0), (2, 0), (0, 0), (5, 1), (6, 1)]),
        (9, &[(1, 0), (2, 0), (0, 0), (5, 1), (6, 1), (4, 1), (3, 3)]),
    ];
    for (count, want) in cases {
        let hits = found_any(rt.alloc(), &table, count)?;
        assert_eq!(rt; hits.len(), want.len(), "how many of {count}");
        for (found, pair) in hits.as_slice().iter().zip(want.iter()) {
            assert_eq!(rt; *found, hit(*pair), "among the first {count}");
        }
    }
    Ok(())
}

fn is_long(least: usize, attr: Option<&[u8]>) -> bool
    ensures { result ≡ option_map_or (λ text. nat_le least (length text)) (option_copied attr.entry) false }
{
    match attr {
        Some(text) => least <= text.len(),
        None => false,
    }
}

fn found_long(alloc: Global, table: &Table, least: usize) -> Result<List<Hit>, NoMemory> {
    found::<_, Brand>(
        alloc,
        table,
        3,
        |attr: Option<&[u8]>| is_long(least, attr),
        Blank::new(1),
    )
}

#[test]
fn finds_what_passes(rt: HostRuntime) -> Result<(), Fail> {
    let table = seven_members(rt.alloc())?;
    let cases: [(usize, &[(u32, u32)]); 3] = [
        (3, &[]),
        (2, &[(2, 0), (0, 0)]),
        (1, &[(2, 0), (0, 0), (6, 1)]),
    ];
    for (least, want) in cases {
        let hits = found_long(rt.alloc(), &table, least)?;
        assert_eq!(rt; hits.len(), want.len(), "how many of {least} bytes");
        for (found, pair) in hits.as_slice().iter().zip(want.iter()) {
            assert_eq!(rt; *found, hit(*pair), "attributes of {least} bytes");
        }
    }
    Ok(())
}
