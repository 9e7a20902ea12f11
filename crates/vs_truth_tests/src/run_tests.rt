//! Searches over members whose words lie beside one another, three at a time.
ghost use Rattle.std.specs.Prelude.{◌≡◌, ◌<◌, ◌≤◌, [], ◌∷◌, length, take, drop, IfOk};
ghost use Rattle.vs_defs.specs.Words.{bits_of_words};
ghost use Rattle.vs_rank.specs.Tests.{AnswersOne};

use std::alloc::Global;
use std::marker::Brand;
use std::sync::ledger::{Blank, Ledger};
use std::test::Fail;
use vs_bits::Bits;
use vs_graph::Steps;
use vs_outside::{List, NoMemory, Text};
use vs_rank::{Everyone, Testing, Wanted};
use vs_truth::{Hit, Members, Run, nearest};

/// Seven members of 64 components. The words of the first three lie beside one another, those of the next three, and those of the last.
#[derive(Drop)]
struct Lined {
    names: [Text; 7],
    words: [u64; 7],
    ghost seven: { length names ≡ 7 },
    ghost alike: { length words ≡ 7 },
}

/// The word at a place.
fn one_of(words: &[u64], at: usize) -> &[u64]
    requires { at < length words.now }
    ensures { result.now ≡ take 1 (drop at words.now) }
{
    &words[at..at + 1]
}

/// The words from a place on.
fn from(words: &[u64], at: usize) -> &[u64]
    requires { at ≤ length words.now }
    ensures { result.now ≡ drop at words.now }
{
    &words[at..]
}

impl Members for Lined {
    ghost use Rattle.vs_truth_tests.specs.LinedMembers.{lined_members};

    ghost members = { λ t. lined_members t.names t.words };

    fn count(&self) -> u32 {
        7
    }

    fn bits<L: Ledger>(&self, place: u32, reads: &mut Steps<L>) -> &[u64] {
        reads.tick();
        one_of(&self.words, place as usize)
    }

    // Nobody counts the reads of these members.
    fn beside<L: Ledger>(&self, place: u32, most: u32, _reads: &mut Steps<L>) -> Run {
        Run {
            width: 1,
            rows: most.min(3 - place % 3),
            words: from(&self.words, place as usize),
        }
    }

    fn name(&self, place: u32) -> &[u8] {
        self.names[place as usize].as_slice()
    }

    fn attr(&self, _place: u32) -> Option<&[u8]> {
        None
    }
}

fn seven_lined(alloc: Global) -> Result<Lined, NoMemory> {
    let names = [
        Text::from_slice(alloc, b"b")?,
        Text::from_slice(alloc, b"B")?,
        Text::from_slice(alloc, b"a")?,
        Text::from_slice(alloc, b"far")?,
        Text::from_slice(alloc, b"near")?,
        Text::from_slice(alloc, b"aa")?,
        Text::from_slice(alloc, b"n")?,
    ];
    let words = [0, 0, 0, 7, 1, 1 << 63, 2];
    Ok(Lined { names, words })
}

/// A vector of 64 components, of which none is positive.
fn negative(alloc: Global) -> Result<Bits, NoMemory>
    ensures { IfOk result (λ bits. bits ≡ bits_of_words 64 (0 ∷ [])) }
{
    Bits::from_words(alloc, 64, &[0])
}

/// The nearest to a vector without a positive component.
fn found<F: Testing + Drop, L: Ledger>(
    alloc: Global,
    table: &Lined,
    count: u32,
    test: F,
    blank: Blank,
) -> Result<List<Hit>, NoMemory>
    requires single { IsProp (F.ready test) }
    requires callable { F.ready test }
    requires answers { AnswersOne (F.gives test) }
    requires name { blank.name ≡ L.name }
    requires parts { blank.parts ≡ L.parts }
    requires some { 0 < L.parts }
{
    let wanted = Wanted::new(test);
    let query = negative(alloc)?;
    let mut reads = Steps::<L>::new(blank);
    nearest(alloc, table, &query, count, &wanted, &mut reads)
}

fn found_any(alloc: Global, table: &Lined, count: u32) -> Result<List<Hit>, NoMemory> {
    found::<_, Brand>(alloc, table, count, Everyone, Blank::new(1))
}

#[test]
fn finds_the_first_where_words_lie_beside_one_another(rt: HostRuntime) -> Result<(), Fail> {
    let table = seven_lined(rt.alloc())?;
    let cases: [(u32, &[(u32, u32)]); 7] = [
        (0, &[]),
        (1, &[(1, 0)]),
        (2, &[(1, 0), (2, 0)]),
        (4, &[(1, 0), (2, 0), (0, 0), (5, 1)]),
        (5, &[(1, 0), (2, 0), (0, 0), (5, 1), (6, 1)]),
        (6, &[(1, 0), (2, 0), (0, 0), (5, 1), (6, 1), (4, 1)]),
        (9, &[(1, 0), (2, 0), (0, 0), (5, 1), (6, 1), (4, 1), (3, 3)]),
    ];
    for (count, want) in cases {
        let hits = found_any(rt.alloc(), &table, count)?;
        assert_eq!(rt; hits.len(), want.len(), "how many of {count}");
        for (found, (place, dist)) in hits.as_slice().iter().zip(want.iter()) {
            assert_eq!(rt; found.place, *place, "the places of the first {count}");
            assert_eq!(rt; found.dist, *dist, "the distances of the first {count}");
        }
    }
    Ok(())
}
