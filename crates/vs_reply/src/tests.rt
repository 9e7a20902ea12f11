//! Replies byte for byte, written out by hand from the tables of texts and of RESP2's framing.
ghost use Rattle.std.specs.Prelude.{◌≡◌, ◌≤◌, All, IfOk};
ghost use Rattle.vs_command.specs.Scores.{HasScores};

use super::*;
use std::alloc::Global;
use std::test::Fail;
use vs_command::{Answer, Info, NamedHit, Refusal};
use vs_outside::{List, NoMemory, Text};
use vs_resp::Fault;

fn is_short(outcome: &Result<Answer, Refusal>, wanted: &[u8]) -> bool {
    match short_reply(outcome) {
        Some(short) => short.as_slice() == wanted,
        None => false,
    }
}

fn reply_to(alloc: Global, answer: &Answer) -> Result<Text, NoMemory>
    requires { HasScores answer.now }
{
    let mut out = Text::new(alloc);
    reply_into(&mut out, answer, Proto::Two)?;
    Ok(out)
}

#[test]
fn refusals_of_commands_and_vectors(rt: HostRuntime) {
    let cases: [(Refusal, &[u8]); 10] = [
        (Refusal::UnknownCommand, b"-ERR unknown command\r\n"),
        (Refusal::WrongArity, b"-ERR wrong number of arguments\r\n"),
        (
            Refusal::BadKey { len: 1025 },
            b"-ERR key has 1025 bytes, allowed are 1 to 1024\r\n",
        ),
        (
            Refusal::BadVectorForm { at: 2 },
            b"-ERR word 2: vector form expected\r\n",
        ),
        (Refusal::Fp32, b"-ERR FP32 is not supported\r\n"),
        (Refusal::Reduce, b"-ERR REDUCE is not supported\r\n"),
        (
            Refusal::BadDimension { at: 3 },
            b"-ERR word 3: dimension 1 to 4096 expected\r\n",
        ),
        (
            Refusal::ShortVector { want: 5, have: 4 },
            b"-ERR 5 words expected after the dimension, 4 given\r\n",
        ),
        (
            Refusal::BadComponent { at: 65_535 },
            b"-ERR word 65535: number expected\r\n",
        ),
        (
            Refusal::BadName { len: 0 },
            b"-ERR name has 0 bytes, allowed are 1 to 1024\r\n",
        ),
    ];
    for (refusal, wanted) in cases {
        assert!(rt; is_short(&Err(refusal), wanted), "{refusal:?}");
    }
}

#[test]
fn refusals_of_options(rt: HostRuntime) {
    let cases: [(Refusal, &[u8]); 13] = [
        (
            Refusal::UnknownOption { at: 9 },
            b"-ERR word 9: unknown option\r\n",
        ),
        (
            Refusal::MissingValue { at: 10 },
            b"-ERR word 10: option needs a value\r\n",
        ),
        (
            Refusal::Quantiser { at: 7 },
            b"-ERR word 7: only BIN is supported\r\n",
        ),
        (
            Refusal::BadEf { at: 8 },
            b"-ERR word 8: EF 1 to 65536 expected\r\n",
        ),
        (
            Refusal::BadM { at: 8 },
            b"-ERR word 8: M 4 to 256 expected\r\n",
        ),
        (
            Refusal::LongAttribute { len: 16_385 },
            b"-ERR attribute has 16385 bytes, allowed are 16384\r\n",
        ),
        (
            Refusal::BadCount { at: 5 },
            b"-ERR word 5: COUNT out of range\r\n",
        ),
        (
            Refusal::Epsilon { at: 5 },
            b"-ERR word 5: EPSILON is not supported\r\n",
        ),
        (
            Refusal::BadFilterEf { at: 6 },
            b"-ERR word 6: FILTER-EF 0 to 2147483647 expected\r\n",
        ),
        (
            Refusal::LongFilter { len: 4097 },
            b"-ERR filter has 4097 bytes, allowed are 4096\r\n",
        ),
        (
            Refusal::FilterSyntax { at: 0 },
            b"-ERR filter syntax at byte 0\r\n",
        ),
        (
            Refusal::FilterTooDeep { at: 64 },
            b"-ERR filter nests too deep at byte 64\r\n",
        ),
        (Refusal::Raw, b"-ERR RAW is not supported\r\n"),
    ];
    for (refusal, wanted) in cases {
        assert!(rt; is_short(&Err(refusal), wanted), "{refusal:?}");
    }
}

#[test]
fn refusals_of_the_store(rt: HostRuntime) {
    let cases: [(Refusal, &[u8]); 9] = [
        (Refusal::NoSuchKey, b"-ERR no such key\r\n"),
        (Refusal::NoSuchElement, b"-ERR no such element\r\n"),
        (
            Refusal::WrongDimension { given: 3, has: 4 },
            b"-ERR vector has 3 components, the set has 4\r\n",
        ),
        (
            Refusal::WrongM { given: 8, has: 16 },
            b"-ERR M is 8, the set has 16\r\n",
        ),
        (
            Refusal::FullSet { members: 2 },
            b"-ERR set is full with 2 members\r\n",
        ),
        (
            Refusal::FullKeys { keys: 1 },
            b"-ERR store is full with 1 keys\r\n",
        ),
        (
            Refusal::FullAll { members: 2 },
            b"-ERR store is full with 2 members\r\n",
        ),
        (
            Refusal::ChangeLimit {
                changes: 18_446_744_073_709_551_615,
            },
            b"-ERR change limit reached: 18446744073709551615\r\n",
        ),
        (Refusal::NoMemory, b"-OOM not enough memory\r\n"),
    ];
    for (refusal, wanted) in cases {
        assert!(rt; is_short(&Err(refusal), wanted), "{refusal:?}");
    }
}

// Whether both calls give these bytes.
fn is_reply_in_short(alloc: Global, answer: Answer, wanted: &[u8]) -> Result<bool, NoMemory>
    requires { HasScores answer }
{
    let out = reply_to(alloc, &answer)?;
    Ok(out.as_slice() == wanted && is_short(&Ok(answer), wanted))
}

#[test]
fn short_answers(rt: HostRuntime) -> Result<(), Fail> {
    let alloc = rt.alloc();
    assert!(rt; is_reply_in_short(alloc, Answer::Int(0), b":0\r\n")?);
    assert!(rt; is_reply_in_short(alloc, Answer::Int(65_536), b":65536\r\n")?);
    assert!(rt; is_reply_in_short(alloc, Answer::Int(i64::MIN), b":-9223372036854775808\r\n")?);
    assert!(rt; is_reply_in_short(alloc, Answer::Pong, b"+PONG\r\n")?);
    assert!(rt; is_reply_in_short(alloc, Answer::Bye, b"+OK\r\n")?);
    assert!(rt; is_reply_in_short(alloc, Answer::NullText, b"$-1\r\n")?);
    assert!(rt; is_reply_in_short(alloc, Answer::NullList, b"*-1\r\n")?);
    Ok(())
}

// Whether the reply is this, and none is given that takes no memory.
fn is_reply(alloc: Global, answer: Answer, wanted: &[u8]) -> Result<bool, NoMemory>
    requires { HasScores answer }
{
    let out = reply_to(alloc, &answer)?;
    Ok(out.as_slice() == wanted && short_reply(&Ok(answer)).is_none())
}

#[test]
fn texts(rt: HostRuntime) -> Result<(), Fail> {
    let alloc = rt.alloc();
    let cases: [(&[u8], &[u8]); 3] = [
        (b"", b"$0\r\n\r\n"),
        (b"a\r\n\x00", b"$4\r\na\r\n\x00\r\n"),
        (b"{\"k\":1.5}", b"$9\r\n{\"k\":1.5}\r\n"),
    ];
    for (text, wanted) in cases {
        let answer = Answer::Bulk(Text::from_slice(alloc, text)?);
        assert!(rt; is_reply(alloc, answer, wanted)?);
    }
    Ok(())
}

#[test]
fn lists(rt: HostRuntime) -> Result<(), Fail> {
    let alloc = rt.alloc();
    let mut names = List::new(alloc);
    assert!(rt; is_reply(alloc, Answer::Names(List::new(alloc)), b"*0\r\n")?);
    names.push(Text::from_slice(alloc, b"ab")?)?;
    names.push(Text::from_slice(alloc, b"")?)?;
    assert!(rt; is_reply(alloc, Answer::Names(names), b"*2\r\n$2\r\nab\r\n$0\r\n\r\n")?);
    let signs = List::from_slice(alloc, &[true, false, false])?;
    let wanted = b"*3\r\n$1\r\n1\r\n$2\r\n-1\r\n$2\r\n-1\r\n";
    assert!(rt; is_reply(alloc, Answer::Signs(signs), wanted)?);
    Ok(())
}

#[test]
fn what_a_set_tells(rt: HostRuntime) -> Result<(), Fail> {
    let info = Info {
        m: 16,
        dim: 4096,
        size: 3,
        max_level: 0,
        attributes: 2,
    };
    let wanted =
        b"*12\r\n$10\r\nquant-type\r\n$3\r\nbin\r\n$6\r\nhnsw-m\r\n:16\r\n$10\r\nvector-dim\r\n:4096\r\n\
$4\r\nsize\r\n:3\r\n$9\r\nmax-level\r\n:0\r\n$16\r\nattributes-count\r\n:2\r\n";
    assert!(rt; is_reply(rt.alloc(), Answer::Info(info), wanted)?);
    Ok(())
}

fn hit(alloc: Global, name: &[u8], dist: u32, attr: Option<&[u8]>) -> Result<NamedHit, NoMemory>
    ensures { IfOk result (λ hit. hit.dist ≡ dist) }
{
    let attr = match attr {
        Some(text) => Some(Text::from_slice(alloc, text)?),
        None => None,
    };
    let name = Text::from_slice(alloc, name)?;
    Ok(NamedHit { name, dist, attr })
}

// Two members of three components.
fn two_hits(alloc: Global) -> Result<List<NamedHit>, NoMemory>
    ensures { IfOk result (λ hits. All (λ hit. hit.dist ≤ 3) hits) }
{
    let mut hits = List::new(alloc);
    hits.push(hit(alloc, b"b", 0, None)?)?;
    hits.push(hit(alloc, b"a", 1, Some(b"{}"))?)?;
    Ok(hits)
}

fn are_hits(alloc: Global, scores: bool, attrs: bool, wanted: &[u8]) -> Result<bool, NoMemory> {
    let answer = Answer::Hits {
        dim: 3,
        scores,
        attrs,
        hits: two_hits(alloc)?,
    };
    is_reply(alloc, answer, wanted)
}

#[test]
fn hits_with_and_without_scores_and_attributes(rt: HostRuntime) -> Result<(), Fail> {
    let cases: [(bool, bool, &[u8]); 4] = [
        (false, false, b"*2\r\n$1\r\nb\r\n$1\r\na\r\n"),
        (
            true,
            false,
            b"*4\r\n$1\r\nb\r\n$1\r\n1\r\n$1\r\na\r\n$11\r\n0.666666666\r\n",
        ),
        (
            false,
            true,
            b"*4\r\n$1\r\nb\r\n$-1\r\n$1\r\na\r\n$2\r\n{}\r\n",
        ),
        (
            true,
            true,
            b"*6\r\n$1\r\nb\r\n$1\r\n1\r\n$-1\r\n$1\r\na\r\n$11\r\n0.666666666\r\n$2\r\n{}\r\n",
        ),
    ];
    for (scores, attrs, wanted) in cases {
        assert!(rt;
            are_hits(rt.alloc(), scores, attrs, wanted)?,
            "{scores} {attrs}"
        );
    }
    Ok(())
}

fn are_layers(alloc: Global, scores: bool, wanted: &[u8]) -> Result<bool, NoMemory> {
    let mut layers = List::new(alloc);
    layers.push(List::new(alloc))?;
    layers.push(two_hits(alloc)?)?;
    let answer = Answer::Layers {
        dim: 3,
        scores,
        layers,
    };
    is_reply(alloc, answer, wanted)
}

#[test]
fn layers_are_arrays_in_an_array(rt: HostRuntime) -> Result<(), Fail> {
    let alloc = rt.alloc();
    assert!(rt; are_layers(alloc, false, b"*2\r\n*0\r\n*2\r\n$1\r\nb\r\n$1\r\na\r\n")?);
    let wanted = b"*2\r\n*0\r\n*4\r\n$1\r\nb\r\n$1\r\n1\r\n$1\r\na\r\n$11\r\n0.666666666\r\n";
    assert!(rt; are_layers(alloc, true, wanted)?);
    Ok(())
}

#[test]
fn faults_of_the_protocol(rt: HostRuntime) {
    let cases: [(Fault, u64, &[u8]); 8] = [
        (
            Fault::BadCount,
            1,
            b"-ERR Protocol error: bad array count at byte 1\r\n",
        ),
        (
            Fault::CountTooLarge,
            5,
            b"-ERR Protocol error: array count too large at byte 5\r\n",
        ),
        (
            Fault::ExpectedBulk,
            4,
            b"-ERR Protocol error: bulk expected at byte 4\r\n",
        ),
        (
            Fault::BadLength,
            5,
            b"-ERR Protocol error: bad bulk length at byte 5\r\n",
        ),
        (
            Fault::LengthTooLarge,
            9,
            b"-ERR Protocol error: bulk too long at byte 9\r\n",
        ),
        (
            Fault::MessageTooLarge,
            4_194_400,
            b"-ERR Protocol error: message too long at byte 4194400\r\n",
        ),
        (
            Fault::BadEnd,
            11,
            b"-ERR Protocol error: bad bulk end at byte 11\r\n",
        ),
        (
            Fault::InlineTooLong,
            65_536,
            b"-ERR Protocol error: inline line too long at byte 65536\r\n",
        ),
    ];
    for (fault, at, wanted) in cases {
        assert!(rt; fault_line(fault, at).as_slice() == wanted, "{fault:?}");
    }
}
