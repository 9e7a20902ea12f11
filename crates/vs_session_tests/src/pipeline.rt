//! A pipeline of many members, as a client would send it.
use crate::requests::{push_bulk, push_number, push_request};
use crate::served::served;
use std::alloc::Global;
use std::test::Fail;
use vs_connection::SessionEnd;
use vs_outside::{NoMemory, Text};

const MEMBERS: usize = 300;

// Component k of member i is positive where k is below the remainder of i by 128.
fn push_components(line: &mut Text, i: usize) -> Result<(), NoMemory> {
    for k in 0..128 {
        let component = if k < i % 128 {
            b"0.5|".as_slice()
        } else {
            b"-0.25|".as_slice()
        };
        line.extend_from_slice(component)?;
    }
    Ok(())
}

fn addition(alloc: Global, i: usize) -> Result<Text, NoMemory> {
    let mut line = Text::from_slice(alloc, b"VADD|v|VALUES|128|")?;
    push_components(&mut line, i)?;
    line.push(b'm')?;
    push_number(alloc, &mut line, i)?;
    line.extend_from_slice(b"|SETATTR|{\"n\":")?;
    push_number(alloc, &mut line, i)?;
    line.extend_from_slice(if i % 2 == 0 {
        b",\"even\":true}".as_slice()
    } else {
        b",\"even\":false}".as_slice()
    })?;
    Ok(line)
}

fn pipeline(alloc: Global, search: &[u8]) -> Result<Text, NoMemory> {
    let mut input = Text::new(alloc);
    for i in 0..MEMBERS {
        let line = addition(alloc, i)?;
        push_request(alloc, &mut input, line.as_slice())?;
    }
    push_request(alloc, &mut input, search)?;
    Ok(input)
}

fn replies(alloc: Global, last: &[u8]) -> Result<Text, NoMemory> {
    let mut output = Text::new(alloc);
    for _member in 0..MEMBERS {
        output.extend_from_slice(b":1\r\n")?;
    }
    output.extend_from_slice(last)?;
    Ok(output)
}

#[test]
fn a_pipeline_of_members_is_searched_with_a_filter(rt: HostRuntime) -> Result<(), Fail> {
    let alloc = rt.alloc();
    let input = pipeline(
        alloc,
        b"VSIM|v|ELE|m10|COUNT|5|WITHSCORES|FILTER|.n < 100 and .even|TRUTH",
    )?;
    let found =
        b"*10\r\n$3\r\nm10\r\n$1\r\n1\r\n$3\r\nm12\r\n$11\r\n0.984375000\r\n$2\r\nm8\r\n$11\r\n0.984375000\r\n$3\r\nm14\r\n$11\r\n0.968750000\r\n$2\r\nm6\r\n$11\r\n0.968750000\r\n";
    let (end, sink) = served(alloc, input, 16_384, 0, 0)?;
    assert_eq!(rt; end, SessionEnd::Ended);
    assert_eq!(rt; sink.written(), replies(alloc, found)?.as_slice());
    Ok(())
}

#[test]
fn a_pipeline_of_members_is_searched_for_attributes(rt: HostRuntime) -> Result<(), Fail> {
    let alloc = rt.alloc();
    let input = pipeline(
        alloc,
        b"VSIM|v|ELE|m10|COUNT|2|WITHSCORES|WITHATTRIBS|TRUTH",
    )?;
    let found =
        b"*6\r\n$3\r\nm10\r\n$1\r\n1\r\n$20\r\n{\"n\":10,\"even\":true}\r\n$4\r\nm138\r\n$1\r\n1\r\n$21\r\n{\"n\":138,\"even\":true}\r\n";
    let (end, sink) = served(alloc, input, 1_000, 0, 0)?;
    assert_eq!(rt; end, SessionEnd::Ended);
    assert_eq!(rt; sink.written(), replies(alloc, found)?.as_slice());
    Ok(())
}

// The members that pass `.n < 100 and .even`, by their distance to m10, and of equal distances by name.
const NEAREST: [usize; 50] = [
    10, 12, 8, 14, 6, 16, 4, 18, 2, 0, 20, 22, 24, 26, 28, 30, 32, 34, 36, 38, 40, 42, 44, 46, 48,
    50, 52, 54, 56, 58, 60, 62, 64, 66, 68, 70, 72, 74, 76, 78, 80, 82, 84, 86, 88, 90, 92, 94, 96,
    98,
];

// A member of these in a reply, with its score: of 128 bits as many differ as its number is away from 10.
fn hit(alloc: Global, member: usize) -> Result<Text, NoMemory> {
    let mut name = Text::from_slice(alloc, b"m")?;
    push_number(alloc, &mut name, member)?;
    let mut score = Text::new(alloc);
    match member.abs_diff(10) {
        0 => score.extend_from_slice(b"1")?,
        distance => {
            score.extend_from_slice(b"0.")?;
            // 1 / 128 is 0.007812500.
            push_number(
                alloc,
                &mut score,
                128_usize.saturating_sub(distance) * 7_812_500,
            )?;
        }
    }
    let mut text = Text::new(alloc);
    push_bulk(alloc, &mut text, name.as_slice())?;
    push_bulk(alloc, &mut text, score.as_slice())?;
    Ok(text)
}

// What follows a beginning of a text.
fn rest_after<'a>(text: &'a [u8], beginning: &[u8]) -> Option<&'a [u8]> {
    if text.len() < beginning.len() {
        return None;
    }
    let (head, rest) = text.split_at(beginning.len());
    if head == beginning { Some(rest) } else { None }
}

// How many of the nearest these hits are, where they are some of them in their order; else none.
fn count_of_nearest(alloc: Global, hits: &[u8]) -> Result<Option<usize>, NoMemory> {
    let mut rest = hits;
    let mut count: usize = 0;
    for member in NEAREST {
        if let Some(after) = rest_after(rest, hit(alloc, member)?.as_slice()) {
            rest = after;
            count = count.saturating_add(1);
        }
    }
    Ok(if rest.is_empty() { Some(count) } else { None })
}

// A search by links may miss near members, so not its bytes are fixed, but what they are among.
#[test]
fn a_search_by_links_answers_some_of_those_that_pass(rt: HostRuntime) -> Result<(), Fail> {
    let alloc = rt.alloc();
    let input = pipeline(
        alloc,
        b"VSIM|v|ELE|m10|COUNT|5|WITHSCORES|FILTER|.n < 100 and .even",
    )?;
    let (end, sink) = served(alloc, input, 16_384, 0, 0)?;
    assert_eq!(rt; end, SessionEnd::Ended);
    let heads: [&[u8]; 6] = [
        b"*0\r\n", b"*2\r\n", b"*4\r\n", b"*6\r\n", b"*8\r\n", b"*10\r\n",
    ];
    let mut found = None;
    for (count, head) in heads.iter().enumerate() {
        if let Some(hits) = rest_after(sink.written(), replies(alloc, head)?.as_slice()) {
            found = Some((count, count_of_nearest(alloc, hits)?));
        }
    }
    assert!(rt; matches!(found, Some((told, Some(count))) if told == count));
    Ok(())
}
