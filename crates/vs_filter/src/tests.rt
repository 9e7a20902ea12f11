//! Filters over sample attributes, and where texts cease to be filters.
#![tactic(auto)]

use super::*;
use std::alloc::Global;
use std::process::Abort;
use std::test::Fail;
use std::thread;

const FILM: &[u8] =
    b"{\"year\":1984,\"rating\":8.6,\"name\":\"Alien\",\"tags\":[\"scary\",\"space\",7,true,null],\"seen\":true,\"cost\":1e7,\"zero\":0,\"quote\":\"a\\\"b\\u0041\",\"none\":null}";

/// How the reading of a text ends.
#[derive(Clone, Copy, Debug, PartialEq, Eq)]
enum Ending {
    Filter,
    Syntax(u32),
    TooDeep(u32),
    Other,
}

fn ending_of(alloc: Global, text: &[u8]) -> Ending {
    if text.len() > 4096 {
        return Ending::Other;
    }
    match Filter::parse(alloc, text) {
        Ok(_) => Ending::Filter,
        Err(FilterError::Syntax { at }) => Ending::Syntax(at),
        Err(FilterError::TooDeep { at }) => Ending::TooDeep(at),
        Err(FilterError::NoMemory) => Ending::Other,
    }
}

fn passes(alloc: Global, text: &[u8], attribute: Option<&[u8]>) -> Option<bool> {
    if text.len() > 4096 {
        return None;
    }
    let filter = Filter::parse(alloc, text).ok()?;
    let copy = filter.try_clone(alloc).ok()?;
    let answer = filter.passes(attribute);
    (copy.passes(attribute) == answer).then_some(answer)
}

#[test]
fn places(rt: HostRuntime) -> Result<(), Fail> {
    let cases: [(&[u8], Ending); 16] = [
        (b".year >= 1980 and .rating > 8.5", Ending::Filter),
        (b".year >", Ending::Syntax(7)),
        (b"", Ending::Syntax(0)),
        (b" \t\r\n", Ending::Syntax(4)),
        (b"1 2", Ending::Syntax(2)),
        (b"(1", Ending::Syntax(2)),
        (b"1 = 2", Ending::Syntax(2)),
        (b"1 < 2 < 3", Ending::Syntax(6)),
        (b"notx 1", Ending::Syntax(0)),
        (b"'open", Ending::Syntax(0)),
        (b"[1, -2, 'a', true]", Ending::Filter),
        (b"[1,,2]", Ending::Syntax(3)),
        (b"[1, 2", Ending::Syntax(5)),
        (b".5", Ending::Syntax(0)),
        (b"1.e5", Ending::Syntax(1)),
        (b"- - 1", Ending::Filter),
    ];
    for (text, wanted) in cases {
        assert_eq!(rt; ending_of(rt.alloc(), text), wanted);
    }
    Ok(())
}

#[test]
fn depths(rt: HostRuntime) -> Result<(), Fail> {
    let alloc = rt.alloc();
    let cases: [(&[u8], usize, &[u8], &[u8], Ending); 6] = [
        (b"(", 64, b"1", b")", Ending::Filter),
        (b"(", 65, b"1", b")", Ending::TooDeep(64)),
        (b"!", 64, b"true", b"", Ending::Filter),
        (b"!", 65, b"true", b"", Ending::TooDeep(64)),
        (b"-", 65, b"1", b"", Ending::TooDeep(64)),
        (b"not ", 65, b"true", b"", Ending::TooDeep(256)),
    ];
    for (before, count, inner, after, wanted) in cases {
        let mut text = Vec::new(alloc);
        for _ in 0..count {
            text.extend_from_slice(before)?;
        }
        text.extend_from_slice(inner)?;
        for _ in 0..count {
            text.extend_from_slice(after)?;
        }
        assert_eq!(rt; ending_of(alloc, text.as_slice()), wanted);
    }
    Ok(())
}

fn check_all(rt: &impl Abort, alloc: Global, wanted: bool, texts: &[&[u8]]) {
    for text in texts {
        let answer = passes(alloc, text, Some(FILM));
        assert!(rt; answer == Some(wanted), "{:?}", *text);
    }
}

#[test]
fn films_that_pass(rt: HostRuntime) {
    let texts: [&[u8]; 40] = [
        b".year >= 1980 and .rating > 8.5",
        b"1 + 2 * 3 == 7",
        b"(1 + 2) * 3 == 9",
        b"10 - 4 - 3 == 3",
        b"2 * 3 % 4 == 2",
        b"-2 * 3 == -6",
        b"not 1 == 2",
        b"1 or 0 and 0",
        b"(1 || 0) && !0",
        b"'space' in .tags",
        b"7 in .tags",
        b"true in .tags",
        b".name in ['x', \"Alien\"]",
        b"not (1 in [])",
        b"not (false in .tags)",
        b"-7 % 2 == -1",
        b"7 % -2 == 1",
        b"-7 / 2 == -3.5",
        b"1 / 3 == 0.333333333",
        b"2 / 3 == 0.666666666",
        b"-2 / 3 == -0.666666666",
        b"0.000000001 * 0.5 == 0",
        b"-0.000000001 * 0.5 == 0",
        b"13043817825 * 13043817825 > 0",
        b"13043817825 * 13043817825 / 1 > 0",
        b"'a' < 'b'",
        b"'a' < 'ab'",
        b"'b' >= 'a'",
        b"'it\\'s' == \"it's\"",
        b"\"\\\\\" == '\\\\'",
        b".quote == 'a\"bA'",
        b".year",
        b".seen",
        b"not .zero",
        b".rating == 8.600000000",
        b".year != 1985",
        b"true == (not false)",
        b".seen == true",
        b"1.5 <= 1.5",
        b"--1 == 1",
    ];
    check_all(&rt, rt.alloc(), true, &texts);
}

#[test]
fn films_that_do_not_pass(rt: HostRuntime) {
    let texts: [&[u8]; 30] = [
        b".year < 1980 or .rating > 8.7",
        b"0",
        b"false",
        b"'text'",
        b"[1]",
        b".tags",
        b".none",
        b".cost",
        b"not .cost",
        b"1e3 == 1000",
        b".missing == 1",
        b"not .missing",
        b"1 or .missing",
        b"not (0 and .missing)",
        b"not (0 and 'text')",
        b"1 or 'text'",
        b"1 / 0 == 0",
        b"not (1 % 0)",
        b"13043817826 * 13043817826 > 0",
        b"not (13043817826 * 13043817826 > 0)",
        b"not ((13043817825 * 13043817825 + 10000000000) / 1 < 0)",
        b"not ('a' == 1)",
        b"not ('a' < 1)",
        b"not (true == 1)",
        b"not (true < false)",
        b"not ([1] == [1])",
        b"not ([1] in [1])",
        b"not (1 in 1)",
        b"-'a' == 1",
        b"'a' + 'b' == 'ab'",
    ];
    check_all(&rt, rt.alloc(), false, &texts);
}

#[test]
fn attributes_that_are_no_objects(rt: HostRuntime) -> Result<(), Fail> {
    let cases: [(Option<&[u8]>, bool); 6] = [
        (Some(b"{}"), true),
        (Some(b" { \"a\" : [ ] } "), true),
        (Some(b"x"), false),
        (Some(b"[1]"), false),
        (Some(b"{} {}"), false),
        (None, false),
    ];
    for (attribute, wanted) in cases {
        assert_eq!(rt; passes(rt.alloc(), b"1", attribute), Some(wanted));
    }
    Ok(())
}

#[test]
fn a_long_filter_on_a_thread(rt: HostRuntime) -> Result<(), Fail> {
    let alloc = rt.alloc();
    let mut text = Vec::new(alloc);
    for _ in 0..2039 {
        text.extend_from_slice(b"1+")?;
    }
    text.extend_from_slice(b"1 == 2040")?;
    let child = thread::spawn(&rt, move || passes(alloc, text.as_slice(), Some(b"{}")))?;
    assert_eq!(rt; child.join(&rt), Some(true));
    Ok(())
}
