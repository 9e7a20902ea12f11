//! Searches and additions in steps: what they answer where the store changed between two of them.
ghost use Rattle.std.specs.Prelude.{◌≡◌, ◌<◌, ◌≤◌, IfOk};
ghost use Rattle.vs_defs.specs.Bounds.{IsAddInBounds, IsSearchInBounds};
ghost use Rattle.vs_bits.specs.Requests.{add_of};
ghost use Rattle.vs_command.specs.Requests.{search_of};
ghost use Rattle.vs_store.specs.Drafts.{MayCommit};
ghost use Rattle.vs_store.specs.Kept.{AreUsual};
ghost use Rattle.vs_store.specs.Seen.{limits_seen};

use crate::tests::{are_short, check_on, show, words_of};
use crate::{CommitError, Limits, Ready, Store};
use std::alloc::{AllocError, Global};
use std::marker::Brand;
use std::process::Abort;
use std::sync::ledger::{Blank, Ledger};
use std::test::Fail;
use vs_bits::Add;
use vs_command::{Refusal, Request, Search, read_request};
use vs_graph::Steps;
use vs_slot::Slot;

/// The addition of a line.
fn addition_in(rt: &impl Abort, alloc: Global, line: &str) -> Result<Add, AllocError>
    ensures { IfOk result (λ add. IsAddInBounds (add_of add)) }
{
    let words = words_of(alloc, line)?;
    assert!(rt; words.len() > 0 && are_short(words.as_slice()), "{line}");
    match read_request(alloc, words.as_slice()) {
        Ok(Request::Vadd(add)) => Ok(add),
        _ => panic!(rt; "no addition: {line}"),
    }
}

/// The search of a line.
fn search_in(rt: &impl Abort, alloc: Global, line: &str) -> Result<Search, AllocError>
    ensures { IfOk result (λ search. IsSearchInBounds (search_of search)) }
{
    let words = words_of(alloc, line)?;
    assert!(rt; words.len() > 0 && are_short(words.as_slice()), "{line}");
    match read_request(alloc, words.as_slice()) {
        Ok(Request::Vsim(search)) => Ok(search),
        _ => panic!(rt; "no search: {line}"),
    }
}

/// The addition of a line, drafted and prepared.
fn prepared<L: Ledger>(
    rt: &impl Abort,
    alloc: Global,
    store: &Store,
    line: &str,
    word: u32,
    reads: &mut Steps<L>,
) -> Result<Ready, AllocError>
    ensures { IfOk result (λ ready. MayCommit store.now ready) }
{
    let add = addition_in(rt, alloc, line)?;
    assert!(rt; add.cas && store.can_draft(&add), "{line}");
    let Ok(drafting) = store.draft_with(add, word) else {
        panic!(rt; "refused: {line}");
    };
    let mut slot = Slot::new(alloc);
    Store::prepare(drafting, &mut slot, reads)
}

/// What a commit reports that is stale.
fn stale<L: Ledger>(
    rt: &impl Abort,
    store: &mut Store,
    ready: Ready,
    reads: &mut Steps<L>,
) -> (u64, bool) {
    assert!(rt; store.stale(&ready).is_some());
    match store.commit(1, ready, reads) {
        Err(CommitError::Stale { cut_now, taken }) => (cut_now, taken),
        _ => panic!(rt; "the commit isn't stale"),
    }
}

/// A store with `a` and `b` in the set `k`.
fn store_of_two(rt: &impl Abort, alloc: Global, limits: Limits) -> Result<Store, AllocError>
    requires { AreUsual (limits_seen limits) }
{
    let mut store = Store::new(alloc, limits);
    let lines = [("VADD k VALUES 1 1 a", "1"), ("VADD k VALUES 1 -1 b", "1")];
    check_on(rt, alloc, &mut store, &lines)?;
    Ok(store)
}

/// What a commit of `x` reports that was drafted before these lines.
fn stale_behind<L: Ledger>(
    rt: &impl Abort,
    alloc: Global,
    limits: Limits,
    lines: &[(&str, &str)],
    reads: &mut Steps<L>,
) -> Result<(u64, bool), AllocError>
    requires { AreUsual (limits_seen limits) }
{
    let mut store = store_of_two(rt, alloc, limits)?;
    let line = "VADD k VALUES 1 1 x CAS";
    let ready = prepared(rt, alloc, &store, line, u32::MAX, reads)?;
    check_on(rt, alloc, &mut store, lines)?;
    Ok(stale(rt, &mut store, ready, reads))
}

/// Why a commit of `x` is refused that was drafted before these lines, and isn't stale.
fn refused_behind<L: Ledger>(
    rt: &impl Abort,
    alloc: Global,
    limits: Limits,
    lines: &[(&str, &str)],
    reads: &mut Steps<L>,
) -> Result<Refusal, AllocError>
    requires { AreUsual (limits_seen limits) }
{
    let mut store = store_of_two(rt, alloc, limits)?;
    let line = "VADD k VALUES 1 1 x CAS";
    let ready = prepared(rt, alloc, &store, line, u32::MAX, reads)?;
    check_on(rt, alloc, &mut store, lines)?;
    assert!(rt; store.stale(&ready).is_none());
    match store.check_fresh(&ready) {
        Err(refusal) => Ok(refusal),
        Ok(()) => panic!(rt; "the commit isn't refused"),
    }
}

fn stale_drafts_by<L: Ledger>(
    rt: &impl Abort,
    alloc: Global,
    blank: Blank,
) -> Result<(), AllocError>
    requires name { blank.name ≡ L.name }
    requires parts { blank.parts ≡ L.parts }
    requires some { 0 < L.parts }
{
    let mut reads = Steps::<L>::new(blank);
    let usual = Limits::usual();
    let removed = [("VREM k a", "1")];
    assert_eq!(rt;
        stale_behind(rt, alloc, usual, &removed, &mut reads)?,
        (3, false)
    );
    let replaced = [("VADD k VALUES 1 -1 a", "0")];
    assert_eq!(rt;
        stale_behind(rt, alloc, usual, &replaced, &mut reads)?,
        (3, false)
    );
    let taken = [("VADD k VALUES 1 1 x", "1")];
    assert_eq!(rt;
        stale_behind(rt, alloc, usual, &taken, &mut reads)?,
        (1, true)
    );
    let gone = [("DEL k", "1")];
    assert_eq!(rt;
        stale_behind(rt, alloc, usual, &gone, &mut reads)?,
        (0, false)
    );
    let made_anew = [
        ("DEL k", "1"),
        ("VADD k VALUES 1 1 a", "1"),
        ("VADD k VALUES 1 -1 b", "1"),
    ];
    assert_eq!(rt;
        stale_behind(rt, alloc, usual, &made_anew, &mut reads)?,
        (4, false)
    );
    let removed_and_taken = [("VREM k a", "1"), ("VADD k VALUES 1 1 x", "1")];
    assert_eq!(rt;
        stale_behind(rt, alloc, usual, &removed_and_taken, &mut reads)?,
        (3, true)
    );
    Ok(())
}

/// The least limits at which `x` may be drafted, with these many more.
fn limits_with(set: u32, all: u32, changes: u64) -> Limits
    requires set { set ≤ 5 }
    requires all { all ≤ 5 }
    requires changes { changes ≤ 5 }
    ensures { AreUsual (limits_seen result) }
{
    Limits {
        set: 3 + set,
        keys: 2,
        all: 3 + all,
        changes: 3 + changes,
    }
}

fn refused_drafts_by<L: Ledger>(
    rt: &impl Abort,
    alloc: Global,
    blank: Blank,
) -> Result<(), AllocError>
    requires name { blank.name ≡ L.name }
    requires parts { blank.parts ≡ L.parts }
    requires some { 0 < L.parts }
{
    let mut reads = Steps::<L>::new(blank);
    let one_more = [("VADD k VALUES 1 1 c", "1")];
    let full_set = refused_behind(rt, alloc, limits_with(0, 0, 0), &one_more, &mut reads)?;
    assert_eq!(rt; full_set, Refusal::FullSet { members: 3 });
    let full_all = refused_behind(rt, alloc, limits_with(1, 0, 0), &one_more, &mut reads)?;
    assert_eq!(rt; full_all, Refusal::FullAll { members: 3 });
    let no_change = refused_behind(rt, alloc, limits_with(1, 1, 0), &one_more, &mut reads)?;
    assert_eq!(rt; no_change, Refusal::ChangeLimit { changes: 3 });
    let removed = [("VREM k a", "1")];
    let no_change = stale_behind(rt, alloc, limits_with(0, 0, 0), &removed, &mut reads)?;
    assert_eq!(rt; no_change, (3, false), "the limit of changes is reached");
    Ok(())
}

#[test]
fn refused_drafts(rt: HostRuntime) -> Result<(), Fail> {
    refused_drafts_by::<Brand>(&rt, rt.alloc(), Blank::new(1))?;
    Ok(())
}

#[test]
fn stale_drafts(rt: HostRuntime) -> Result<(), Fail> {
    stale_drafts_by::<Brand>(&rt, rt.alloc(), Blank::new(1))?;
    Ok(())
}

/// Drafts, prepares and commits an addition with this word.
fn committed<L: Ledger>(
    rt: &impl Abort,
    alloc: Global,
    word: u32,
    wanted: &[(&str, &str)],
    reads: &mut Steps<L>,
) -> Result<(), AllocError> {
    let mut store = Store::new(alloc, Limits::usual());
    check_on(rt, alloc, &mut store, &[("VADD k VALUES 2 1 -1 a", "1")])?;
    let line = "VADD k VALUES 2 1 1 x CAS SETATTR {\"n\":1}";
    let ready = prepared(rt, alloc, &store, line, word, reads)?;
    match store.commit(1, ready, reads) {
        Ok(answer) => assert_eq!(rt; show(alloc, &Ok(answer))?.as_str(), "1"),
        Err(_) => panic!(rt; "the commit is refused"),
    }
    assert_eq!(rt; store.changes(), 2);
    check_on(rt, alloc, &mut store, wanted)
}

fn committed_by<L: Ledger>(rt: &impl Abort, alloc: Global, blank: Blank) -> Result<(), AllocError>
    requires name { blank.name ≡ L.name }
    requires parts { blank.parts ≡ L.parts }
    requires some { 0 < L.parts }
{
    let mut reads = Steps::<L>::new(blank);
    let low = [
        ("VCARD k", "2"),
        ("VGETATTR k x", "7 bytes"),
        ("VLINKS k x", "1 layers"),
        ("VSIM k ELE x COUNT 2", "2 hits of 2"),
    ];
    committed(rt, alloc, u32::MAX, &low, &mut reads)?;
    let high = [
        ("VCARD k", "2"),
        ("VEMB k x", "2 signs"),
        ("VLINKS k x", "16 layers"),
        ("VSIM k ELE a COUNT 2", "2 hits of 2"),
    ];
    committed(rt, alloc, 0, &high, &mut reads)
}

#[test]
fn committed_drafts(rt: HostRuntime) -> Result<(), Fail> {
    committed_by::<Brand>(&rt, rt.alloc(), Blank::new(1))?;
    Ok(())
}

/// What a search answers that has looked before these lines.
fn found_behind<L: Ledger>(
    rt: &impl Abort,
    alloc: Global,
    line: &str,
    lines: &[(&str, &str)],
    reads: &mut Steps<L>,
) -> Result<String, AllocError> {
    let mut store = store_of_two(rt, alloc, Limits::usual())?;
    let search = search_in(rt, alloc, line)?;
    let Ok(looked) = store.look_with(search) else {
        panic!(rt; "refused: {line}");
    };
    check_on(rt, alloc, &mut store, lines)?;
    let mut slot = Slot::new(alloc);
    let answer = Store::finish(looked, &mut slot, reads)?;
    show(alloc, &Ok(answer))
}

fn looks_by<L: Ledger>(rt: &impl Abort, alloc: Global, blank: Blank) -> Result<(), AllocError>
    requires name { blank.name ≡ L.name }
    requires parts { blank.parts ≡ L.parts }
    requires some { 0 < L.parts }
{
    let mut reads = Steps::<L>::new(blank);
    let removed = [
        ("VREM k a", "1"),
        ("VADD k VALUES 1 1 c", "1"),
        ("VSIM k ELE a", "NoSuchElement"),
    ];
    let found = found_behind(rt, alloc, "VSIM k ELE a", &removed, &mut reads)?;
    assert_eq!(rt; found.as_str(), "2 hits of 1");
    let found = found_behind(rt, alloc, "VSIM k ELE a TRUTH", &removed, &mut reads)?;
    assert_eq!(rt; found.as_str(), "2 hits of 1");
    let gone = [("DEL k", "1"), ("VSIM k ELE a", "0 hits of 1")];
    let found = found_behind(rt, alloc, "VSIM k VALUES 1 1 COUNT 1", &gone, &mut reads)?;
    assert_eq!(rt; found.as_str(), "1 hits of 1");
    let made = [
        ("VADD l VALUES 1 1 a", "1"),
        ("VSIM l ELE a", "1 hits of 1"),
    ];
    let found = found_behind(rt, alloc, "VSIM l ELE a", &made, &mut reads)?;
    assert_eq!(rt; found.as_str(), "0 hits of 1");
    Ok(())
}

#[test]
fn looks_answered_later(rt: HostRuntime) -> Result<(), Fail> {
    looks_by::<Brand>(&rt, rt.alloc(), Blank::new(1))?;
    Ok(())
}
