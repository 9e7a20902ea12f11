//! What attributes have under the name `k`: cases of RFC 8259, and hostile
//! texts.
#![tactic(auto)]

use super::*;
use std::process::Abort;
use std::test::Fail;

/// A value that is no list.
#[derive(Drop)]
enum Single {
    Number(i128),
    Text(&'static [u8]),
    Truth(bool),
    NoKind,
}

/// What a field is to be.
#[derive(Drop)]
enum Wanted {
    Absent,
    One(Single),
    List(&'static [Single]),
}

use Single::{NoKind, Number, Text, Truth};
use Wanted::{Absent, List, One};

fn expect_text(rt: &impl Abort, mut text: JsonText<'_>, wanted: &[u8]) {
    for byte in wanted {
        assert_eq!(rt; text.next_byte(), Some(*byte));
    }
    assert_eq!(rt; text.next_byte(), None);
}

fn expect_single(rt: &impl Abort, field: Field<'_>, wanted: &Single) {
    match (field, wanted) {
        (Field::Number(number), Number(other)) => assert_eq!(rt; number, *other),
        (Field::Text(text), Text(other)) => expect_text(rt, text, other),
        (Field::Truth(truth), Truth(other)) => assert_eq!(rt; truth, *other),
        (Field::NoKind, NoKind) => {}
        _ => panic!(rt; "another kind"),
    }
}

fn expect_items(rt: &impl Abort, mut list: JsonList<'_>, wanted: &[Single]) {
    for single in wanted {
        match list.next_item() {
            Some(item) => expect_single(rt, item, single),
            None => panic!(rt; "an item is missing"),
        }
    }
    assert!(rt; list.next_item().is_none());
}

fn expect(rt: &impl Abort, text: &[u8], wanted: &Wanted) {
    match (field(text, b"k"), wanted) {
        (None, Absent) => {}
        (Some(Field::List(list)), List(items)) => expect_items(rt, list, items),
        (Some(single), One(other)) => expect_single(rt, single, other),
        _ => panic!(rt; "another field"),
    }
}

#[test]
fn members(rt: HostRuntime) -> Result<(), Fail> {
    let cases: [(&[u8], Wanted); 22] = [
        (br#"{"k":1984}"#, One(Number(1_984_000_000_000))),
        (b" \t\r\n{ \"k\" : -2.5 } \n", One(Number(-2_500_000_000))),
        (br#"{}"#, Absent),
        (br#"{"j":1}"#, Absent),
        (br#"{"j":{"k":1}}"#, Absent),
        (br#"{"k":1,"k":true}"#, One(Truth(true))),
        (br#"{"k":false,"K":1,"k2":2}"#, One(Truth(false))),
        (br#"{"\u006b":1}"#, One(Number(1_000_000_000))),
        (br#"{"k":1,"\u006B":null}"#, One(NoKind)),
        (br#"{"k\ud800":1}"#, Absent),
        (br#"{"k":1,}"#, Absent),
        (br#"{,"k":1}"#, Absent),
        (br#"{"k" 1}"#, Absent),
        (br#"{"k":1 "j":2}"#, Absent),
        (br#"{"k":1}{}"#, Absent),
        (br#"{"k":1"#, Absent),
        (br#"{k:1}"#, Absent),
        (br#"["k",1]"#, Absent),
        (br#""k""#, Absent),
        (br#""#, Absent),
        (b"\xef\xbb\xbf{\"k\":1}", Absent),
        (b"{\"k\":1}\x0b", Absent),
    ];
    for (text, wanted) in &cases {
        expect(&rt, text, wanted);
    }
    Ok(())
}

#[test]
fn numbers_and_words(rt: HostRuntime) -> Result<(), Fail> {
    let cases: [(&[u8], Wanted); 18] = [
        (br#"{"k":-0}"#, One(Number(0))),
        (br#"{"k":0.000000001}"#, One(Number(1))),
        (
            br#"{"k":999999999999999999}"#,
            One(Number(999_999_999_999_999_999_000_000_000)),
        ),
        (br#"{"k":1000000000000000000}"#, One(NoKind)),
        (br#"{"k":0.0000000001}"#, One(NoKind)),
        (br#"{"k":1E+2}"#, One(NoKind)),
        (br#"{"k":01}"#, Absent),
        (br#"{"k":-}"#, Absent),
        (br#"{"k":1.}"#, Absent),
        (br#"{"k":.5}"#, Absent),
        (br#"{"k":+1}"#, Absent),
        (br#"{"k":1e}"#, Absent),
        (br#"{"k":NaN}"#, Absent),
        (br#"{"k":null}"#, One(NoKind)),
        (br#"{"k":{"a":[]}}"#, One(NoKind)),
        (br#"{"k":tru}"#, Absent),
        (br#"{"k":True}"#, Absent),
        (br#"{"k":nullx}"#, Absent),
    ];
    for (text, wanted) in &cases {
        expect(&rt, text, wanted);
    }
    Ok(())
}

#[test]
fn texts(rt: HostRuntime) -> Result<(), Fail> {
    let cases: [(&[u8], Wanted); 20] = [
        (br#"{"k":""}"#, One(Text(b""))),
        (
            br#"{"k":"a\"\\\/\b\f\n\r\tz"}"#,
            One(Text(b"a\"\\/\x08\x0c\n\r\tz")),
        ),
        (br#"{"k":"\u0000"}"#, One(Text(b"\0"))),
        (
            br#"{"k":"\u00e9\u20AC\ud83d\ude00"}"#,
            One(Text(b"\xc3\xa9\xe2\x82\xac\xf0\x9f\x98\x80")),
        ),
        (b"{\"k\":\"\xc3\xa9\x7f\"}", One(Text(b"\xc3\xa9\x7f"))),
        (br#"{"k":"\ud83d"}"#, One(NoKind)),
        (br#"{"k":"\ude00\ud83d"}"#, One(NoKind)),
        (br#"{"k":"\ud83d\ud83d\ude00"}"#, One(NoKind)),
        (br#"{"k":"\ud83dx\ude00"}"#, One(NoKind)),
        (br#"{"k":"\u12g4"}"#, Absent),
        (br#"{"k":"\x41"}"#, Absent),
        (br#"{"k":"\"}"#, Absent),
        (b"{\"k\":\"a\x1fb\"}", Absent),
        (b"{\"k\":\"a\nb\"}", Absent),
        (b"{\"k\":\"\xc0\xaf\"}", Absent),
        (b"{\"k\":\"\xe2\x82\"}", Absent),
        (b"{\"k\":\"\xed\xa0\x80\"}", Absent),
        (b"{\"k\":\"\xf4\x90\x80\x80\"}", Absent),
        (br#"{'k':1}"#, Absent),
        (br#"{"k":[]}"#, List(&[])),
    ];
    for (text, wanted) in &cases {
        expect(&rt, text, wanted);
    }
    Ok(())
}

#[test]
fn arrays_and_depth(rt: HostRuntime) -> Result<(), Fail> {
    let cases: [(&[u8], Wanted); 8] = [
        (
            br#"{"k":[ 1 , "x\u0079" , [2,3] , {"a":1} , null , true , 1e3 , "\ud800" ]}"#,
            List(&[
                Number(1_000_000_000),
                Text(b"xy"),
                NoKind,
                NoKind,
                NoKind,
                Truth(true),
                NoKind,
                NoKind,
            ]),
        ),
        (br#"{"k":[1,]}"#, Absent),
        (br#"{"k":[1 2]}"#, Absent),
        (br#"{"k":[1}"#, Absent),
        (
            br#"{"k":[[[[[[[[[[[[[[[[[[[[[[[[[[[[[[[[[[[[[[[[[[[[[[[[[[[[[[[[[[[[[[[]]]]]]]]]]]]]]]]]]]]]]]]]]]]]]]]]]]]]]]]]]]]]]]]]]]]]]]]]]]]]]]}"#,
            List(&[NoKind]),
        ),
        (
            br#"{"k":[[[[[[[[[[[[[[[[[[[[[[[[[[[[[[[[[[[[[[[[[[[[[[[[[[[[[[[[[[[[[[[[]]]]]]]]]]]]]]]]]]]]]]]]]]]]]]]]]]]]]]]]]]]]]]]]]]]]]]]]]]]]]]]]}"#,
            Absent,
        ),
        (
            br#"{"j":{"a":{"a":{"a":{"a":{"a":{"a":{"a":{"a":{"a":{"a":{"a":{"a":{"a":{"a":{"a":{"a":{"a":{"a":{"a":{"a":{"a":{"a":{"a":{"a":{"a":{"a":{"a":{"a":{"a":{"a":{"a":{"a":{"a":{"a":{"a":{"a":{"a":{"a":{"a":{"a":{"a":{"a":{"a":{"a":{"a":{"a":{"a":{"a":{"a":{"a":{"a":{"a":{"a":{"a":{"a":{"a":{"a":{"a":{"a":{"a":{"a":{"a":{"a":1}}}}}}}}}}}}}}}}}}}}}}}}}}}}}}}}}}}}}}}}}}}}}}}}}}}}}}}}}}}}}}},"k":1}"#,
            One(Number(1_000_000_000)),
        ),
        (
            br#"{"j":{"a":{"a":{"a":{"a":{"a":{"a":{"a":{"a":{"a":{"a":{"a":{"a":{"a":{"a":{"a":{"a":{"a":{"a":{"a":{"a":{"a":{"a":{"a":{"a":{"a":{"a":{"a":{"a":{"a":{"a":{"a":{"a":{"a":{"a":{"a":{"a":{"a":{"a":{"a":{"a":{"a":{"a":{"a":{"a":{"a":{"a":{"a":{"a":{"a":{"a":{"a":{"a":{"a":{"a":{"a":{"a":{"a":{"a":{"a":{"a":{"a":{"a":{"a":{"a":1}}}}}}}}}}}}}}}}}}}}}}}}}}}}}}}}}}}}}}}}}}}}}}}}}}}}}}}}}}}}}}}},"k":1}"#,
            Absent,
        ),
    ];
    for (text, wanted) in &cases {
        expect(&rt, text, wanted);
    }
    Ok(())
}

#[test]
fn long_texts(rt: HostRuntime) -> Result<(), Fail> {
    expect(&rt, &[b'['; 16_384], &Absent);
    let mut text = [b'x'; 16_384];
    text[0] = b'{';
    text[1] = b'"';
    text[2] = b'k';
    text[3] = b'"';
    text[4] = b':';
    text[5] = b'"';
    text[16_382] = b'"';
    text[16_383] = b'}';
    match field(&text, b"k") {
        Some(Field::Text(inside)) => expect_text(&rt, inside, &[b'x'; 16_376]),
        _ => panic!(rt; "another kind"),
    }
    Ok(())
}
