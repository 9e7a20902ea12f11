//! A hub of ten members, each query of it against an answer that was worked out by hand.
ghost use Rattle.std.specs.Prelude.{◌≡◌, ◌<◌, IsTrue, [], None, Some, IfOk, IfSome};
ghost use Rattle.vs_defs.specs.Bounds.{IsSearchInBounds};
ghost use Rattle.vs_defs.specs.Read.{draws as draws_of};
ghost use Rattle.vs_defs.specs.Refuse.{search_refusal};
ghost use Rattle.vs_defs.specs.Request as request;
ghost use Rattle.vs_command.specs.Readings.{AreShort};
ghost use Rattle.vs_command.specs.Requests.{what_of, search_of};
ghost use Rattle.vs_query.specs.Found.{place_sought};

use crate::{attribute, embedding, find, info, links, random};
use shown::show;
use std::alloc::{AllocError, Global};
use std::marker::Brand;
use std::process::Abort;
use std::sync::ledger::{Blank, Ledger};
use std::test::Fail;
use vs_bits::{Add, Bits, Sign};
use vs_command::{Answer, Request, Search, What, read_request};
use vs_graph::Steps;
use vs_outside::{List, NoMemory, Text};
use vs_set::{Kept, Set};
use vs_slot::Slot;

mod shown;

/// The hub has no component above 0, and each of the others the one of its turn. So the hub differs from each of them in one, and they
/// differ from one another in two: each is linked to the hub alone.
const MEMBERS: [(&str, u8, &str); 10] = [
    ("hub", 2, ""),
    ("a", 1, "{\"year\":1984}"),
    ("b", 2, "{\"year\":1984}"),
    ("c", 0, "{\"year\":1990}"),
    ("d", 0, ""),
    ("e", 0, ""),
    ("f", 0, ""),
    ("g", 0, ""),
    ("h", 0, ""),
    ("i", 0, ""),
];

fn signs_of(turn: usize) -> [Sign; 9] {
    let mut signs = [Sign::Minus; 9];
    if 0 < turn && turn <= 9 {
        signs[turn - 1] = Sign::Plus;
    }
    signs
}

fn add_of(alloc: Global, turn: usize, name: &str, attr: &str) -> Result<Add, NoMemory> {
    Ok(Add {
        key: Text::from_slice(alloc, b"k")?,
        name: Text::from_slice(alloc, name.as_bytes())?,
        bits: Bits::from_signs(alloc, &signs_of(turn))?,
        cas: false,
        ef: 200,
        m: None,
        attr: Some(Text::from_slice(alloc, attr.as_bytes())?),
    })
}

/// Adds a member that fits; whether it is new.
fn put(set: &mut Set<Kept>, add: &Add, level: u8, slot: &mut Slot) -> Result<bool, NoMemory> {
    if add.bits.dim() != set.dim() || set.count() >= 1048576 || level > 15 || add.ef == 0 {
        return Ok(false);
    }
    set.add(add, level, 1, slot)
}

fn ten_members(alloc: Global) -> Result<Set<Kept>, NoMemory> {
    let mut slot = Slot::new(alloc);
    let mut set = Set::create(alloc, 9, 16)?;
    for (turn, (name, level, attr)) in MEMBERS.iter().enumerate() {
        put(
            &mut set,
            &add_of(alloc, turn, name, attr)?,
            *level,
            &mut slot,
        )?;
    }
    Ok(set)
}

fn words_of(alloc: Global, line: &str) -> Result<List<Text>, AllocError> {
    let mut words = List::new(alloc);
    for word in line.split(' ') {
        words.push(Text::from_slice(alloc, word.as_bytes())?)?;
    }
    Ok(words)
}

fn are_short(words: &[Text]) -> bool
    ensures { IsTrue result → AreShort words.now }
{
    words.len() < 4294967296 && words.iter().all(|word| word.len() < 4294967296)
}

fn search_of(rt: &impl Abort, alloc: Global, line: &str) -> Result<Search, AllocError>
    ensures { IfOk result (λ search. IsSearchInBounds (search_of search)) }
{
    let words = words_of(alloc, line)?;
    assert!(rt; words.len() > 0 && are_short(words.as_slice()), "{line}");
    match read_request(alloc, words.as_slice()) {
        Ok(Request::Vsim(search)) => Ok(search),
        _ => panic!(rt; "no search: {line}"),
    }
}

/// The place of the member that is looked for, where the set doesn't refuse the search.
fn sought(set: &Set<Kept>, what: &What) -> Option<Option<u32>>
    ensures place { IfSome result (λ place. place ≡ place_sought (what_of what.now) set.now.contents.members) }
    ensures unrefused { IfSome result (λ place. search_refusal (what_of what.now) (Some set.now.contents) ≡ None) }
{
    match what {
        What::Ele(name) => Some(Some(set.place_of(name.as_slice())?)),
        What::Values(bits) if bits.dim() == set.dim() => Some(None),
        What::Values(_) => None,
    }
}

fn found<L: Ledger>(
    alloc: Global,
    set: &Set<Kept>,
    search: &Search,
    blank: Blank,
) -> Result<Option<Answer>, AllocError>
    requires bounds { IsSearchInBounds (search_of search.now) }
    requires name { blank.name ≡ L.name }
    requires parts { blank.parts ≡ L.parts }
    requires some { 0 < L.parts }
{
    let Some(place) = sought(set, &search.what) else {
        return Ok(None);
    };
    if set.count() == 0 {
        return Ok(None);
    }
    let snap = set.snapshot()?;
    let mut slot = Slot::new(alloc);
    let mut reads = Steps::<L>::new(blank);
    let answer = find(alloc, &snap, search, place, &mut slot, &mut reads)?;
    Ok(Some(answer))
}

fn check_answer(
    rt: &impl Abort,
    alloc: Global,
    answer: Result<Answer, AllocError>,
    want: &str,
) -> Result<(), AllocError> {
    let answer = answer?;
    let shown = show(alloc, &answer)?;
    assert_eq!(rt; shown.as_str(), want);
    Ok(())
}

fn check_search(
    rt: &impl Abort,
    alloc: Global,
    set: &Set<Kept>,
    line: &str,
    want: &str,
) -> Result<(), AllocError> {
    let search = search_of(rt, alloc, line)?;
    match found::<Brand>(alloc, set, &search, Blank::new(1))? {
        Some(answer) => check_answer(rt, alloc, Ok(answer), want),
        None => panic!(rt; "refused: {line}"),
    }
}

/// The same search by a beam and with TRUTH.
fn check_both(
    rt: &impl Abort,
    alloc: Global,
    set: &Set<Kept>,
    words: &str,
    want: &str,
) -> Result<(), AllocError> {
    let line = format!(in alloc; "VSIM k {words}")?;
    check_search(rt, alloc, set, line.as_str(), want)?;
    let line = format!(in alloc; "VSIM k {words} TRUTH")?;
    check_search(rt, alloc, set, line.as_str(), want)
}

// The beam of a search without TRUTH is wide enough for all members.
#[test]
fn searches_by_distance_then_name(rt: HostRuntime) -> Result<(), Fail> {
    let set = ten_members(rt.alloc())?;
    for (words, want) in [
        (
            "VALUES 9 1 1 -1 -1 -1 -1 -1 -1 -1 COUNT 3",
            "a 1, b 1, hub 2",
        ),
        (
            "VALUES 9 1 1 -1 -1 -1 -1 -1 -1 -1 COUNT 5",
            "a 1, b 1, hub 2, c 3, d 3",
        ),
        ("VALUES 9 -1 -1 -1 -1 -1 -1 -1 -1 -1 COUNT 1", "hub 0"),
        ("ELE a COUNT 1", "a 0"),
        (
            "ELE i",
            "i 0, hub 1, a 2, b 2, c 2, d 2, e 2, f 2, g 2, h 2",
        ),
        ("ELE a COUNT 2 WITHATTRIBS", "a 0 {\"year\":1984}, hub 1"),
        ("ELE a COUNT 2 FILTER .year>=1980", "a 0, b 2"),
        ("ELE d FILTER .year>1984 WITHATTRIBS", "c 2 {\"year\":1990}"),
        ("ELE d FILTER .year<1984", ""),
    ] {
        check_both(&rt, rt.alloc(), &set, words, want)?;
    }
    Ok(())
}

// For a and b at once the descent ends at b, so that with one try nothing else is found.
#[test]
fn searches_of_one_try(rt: HostRuntime) -> Result<(), Fail> {
    let set = ten_members(rt.alloc())?;
    for (line, want) in [
        (
            "VSIM k VALUES 9 1 1 -1 -1 -1 -1 -1 -1 -1 FILTER .year==1984 FILTER-EF 1",
            "b 1",
        ),
        (
            "VSIM k VALUES 9 1 1 -1 -1 -1 -1 -1 -1 -1 FILTER .year==1984 FILTER-EF 0",
            "a 1, b 1",
        ),
        (
            "VSIM k VALUES 9 1 1 -1 -1 -1 -1 -1 -1 -1 FILTER .year==1990 FILTER-EF 1",
            "",
        ),
    ] {
        check_search(&rt, rt.alloc(), &set, line, want)?;
    }
    Ok(())
}

/// A name, its vector, its attribute, and its links on each layer.
type Facts = (&'static str, &'static str, &'static str, &'static str);

const FACTS: [Facts; 6] = [
    (
        "hub",
        "---------",
        "null text",
        "b 1 / a 1, b 1 / a 1, b 1, c 1, d 1, e 1, f 1, g 1, h 1, i 1",
    ),
    ("a", "+--------", "{\"year\":1984}", "hub 1 / hub 1"),
    ("b", "-+-------", "{\"year\":1984}", "hub 1 / hub 1 / hub 1"),
    ("i", "--------+", "null text", "hub 1"),
    ("j", "null list", "null text", "null list"),
    ("", "null list", "null text", "null list"),
];

fn check_facts(
    rt: &impl Abort,
    alloc: Global,
    set: &Set<Kept>,
    facts: &Facts,
) -> Result<(), AllocError> {
    let (name, signs, attr, layers) = facts;
    let name = name.as_bytes();
    check_answer(rt, alloc, embedding(alloc, set, name), signs)?;
    check_answer(rt, alloc, attribute(alloc, set, name), attr)?;
    check_answer(rt, alloc, links(alloc, set, name, true), layers)
}

#[test]
fn facts_of_members(rt: HostRuntime) -> Result<(), Fail> {
    let set = ten_members(rt.alloc())?;
    for facts in FACTS {
        check_facts(&rt, rt.alloc(), &set, &facts)?;
    }
    Ok(())
}

#[test]
fn facts_of_the_set(rt: HostRuntime) -> Result<(), Fail> {
    let set = ten_members(rt.alloc())?;
    assert!(rt; set.count() > 0);
    let want = "M 16 dim 9 size 10 level 2 attributes 3";
    check_answer(&rt, rt.alloc(), info(&set), want)?;
    Ok(())
}

fn words_for(count: Option<i32>) -> usize
    ensures { result ≡ draws_of (request.Vrandmember [] count) }
{
    match count {
        None => 1,
        Some(count) => count.unsigned_abs() as usize,
    }
}

#[test]
fn picks_by_words(rt: HostRuntime) -> Result<(), Fail> {
    let set = ten_members(rt.alloc())?;
    assert!(rt; set.count() > 0);
    let cases: [(Option<i32>, &[u32], &str); 5] = [
        (Some(2), &[0, 0], "hub a"),
        (Some(3), &[4294967295, 0, 0], "i a b"),
        (Some(-3), &[2147483648, 4294967295, 4294967295], "e i i"),
        (None, &[4294967295], "i"),
        (Some(0), &[], ""),
    ];
    for (count, words, want) in cases {
        assert_eq!(rt; words.len(), words_for(count));
        let picked = random(rt.alloc(), &set, count, words);
        check_answer(&rt, rt.alloc(), picked, want)?;
    }
    Ok(())
}
