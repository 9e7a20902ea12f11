//! Sessions with replies that were worked out by hand.
use crate::requests::requests;
use crate::served::{Worked, are_replied, gives};
use std::test::Fail;
use vs_connection::SessionEnd;
use vs_outside::Text;
use vs_resp::Fault;

// Members added, replaced and shown.
const ADDED: &[Worked] = &[
    (b"VADD|s|VALUES|3|1|-2|0|a|BIN", b":1\r\n"),
    (
        b"VADD|s|VALUES|3|1|-2|0|a|BIN\nVADD|s|VALUES|3|1|-2|0|a|BIN",
        b":1\r\n:0\r\n",
    ),
    (
        b"VADD|u|VALUES|4|0.25|-1e-9|-0.0|+7|x\nVEMB|u|x",
        b":1\r\n*4\r\n$1\r\n1\r\n$2\r\n-1\r\n$2\r\n-1\r\n$1\r\n1\r\n",
    ),
];

// Exact searches: the nearest by distance, then by the bytes of the name.
const EXACT: &[Worked] = &[
    (
        b"VADD|s|VALUES|3|1|-2|0|a|BIN\nVADD|s|VALUES|3|1|1|1|b\nVSIM|s|VALUES|3|1|1|1|TRUTH|WITHSCORES",
        b":1\r\n:1\r\n*4\r\n$1\r\nb\r\n$1\r\n1\r\n$1\r\na\r\n$11\r\n0.333333333\r\n",
    ),
    (
        b"VADD|t|VALUES|2|1|1|b\nVADD|t|VALUES|2|1|1|B\nVADD|t|VALUES|2|1|1|a\nVSIM|t|ELE|a|TRUTH",
        b":1\r\n:1\r\n:1\r\n*3\r\n$1\r\nB\r\n$1\r\na\r\n$1\r\nb\r\n",
    ),
];

// Words that do not fit: the first one decides.
const REFUSED: &[Worked] = &[
    (
        b"VADD|s|VALUES|3|1|-2|0|a|BIN\nVADD|s|VALUES|3|1|1|1|b\nVADD|s|VALUES|3|1|1|1|c|Q8\nVADD|s|FP32|abcd|c\nVCARD|s",
        b":1\r\n:1\r\n-ERR word 8: only BIN is supported\r\n-ERR FP32 is not supported\r\n:2\r\n",
    ),
    (
        b"VADD|q|VALUES|4|1|1|1|1|a\nVADD|q|VALUES|3|1|1|1|b\nVADD|q|VALUES|3|1|1|1|b|FOO",
        b":1\r\n-ERR vector has 3 components, the set has 4\r\n-ERR word 8: unknown option\r\n",
    ),
    (
        b"VADD|q|VALUES|1|1|a|M|4\nVADD|q|VALUES|1|1|b|M|5\nVSIM|q|ELE|b|TRUTH\nVDIM|r",
        b":1\r\n-ERR M is 5, the set has 4\r\n-ERR no such element\r\n-ERR no such key\r\n",
    ),
    (
        b"VADD|s|VALUES|3|1|-2|0|a|BIN\nVADD|s|VALUES|3|1|1|1|b\nVSIM|s|VALUES|3|1|1|1|TRUTH|EPSILON|0.5",
        b":1\r\n:1\r\n-ERR word 8: EPSILON is not supported\r\n",
    ),
    (
        b"HELLO|3\nFROB|q\nVCARD\nVINFO|a|b\nVLINKS|a",
        b"-ERR unknown command\r\n-ERR unknown command\r\n-ERR wrong number of arguments\r\n-ERR wrong number of arguments\r\n-ERR wrong number of arguments\r\n",
    ),
];

// Absent keys and names.
const ABSENT: &[Worked] = &[
    (
        b"VCARD|z\nVREM|z|a\nVSETATTR|z|a|x\nVISMEMBER|z|a\nVSIM|z|ELE|a|TRUTH\nVRANDMEMBER|z\nVRANDMEMBER|z|2\nVEMB|z|a\nVGETATTR|z|a\nDEL|z\nEXISTS|z",
        b":0\r\n:0\r\n:0\r\n:0\r\n*0\r\n$-1\r\n*0\r\n*-1\r\n$-1\r\n:0\r\n:0\r\n",
    ),
    (
        b"VADD|s|VALUES|1|1|a\nVREM|s|b\nVSETATTR|s|b|x\nVISMEMBER|s|b\nVEMB|s|b\nVGETATTR|s|b\nVGETATTR|s|a\nVISMEMBER|s|a\nVRANDMEMBER|s",
        b":1\r\n:0\r\n:0\r\n:0\r\n*-1\r\n$-1\r\n$-1\r\n:1\r\n$1\r\na\r\n",
    ),
];

// Removals and attributes.
const KEPT: &[Worked] = &[
    (
        b"VADD|s|VALUES|1|1|a\nVADD|t|VALUES|1|1|a\nEXISTS|s|s|t|u\nDEL|s|s|u\nEXISTS|s|t\nVREM|t|a\nEXISTS|t",
        b":1\r\n:1\r\n:3\r\n:1\r\n:1\r\n:1\r\n:0\r\n",
    ),
    (
        b"VADD|r|VALUES|1|1|a\nVADD|r|VALUES|1|1|b\nVADD|r|VALUES|1|1|c\nVADD|r|VALUES|1|1|d\nVADD|r|VALUES|1|1|e\nVREM|r|d\nVISMEMBER|r|d\nVISMEMBER|r|e\nVCARD|r",
        b":1\r\n:1\r\n:1\r\n:1\r\n:1\r\n:1\r\n:0\r\n:1\r\n:4\r\n",
    ),
    (
        b"VADD|s|VALUES|1|1|a|SETATTR|x y\nVADD|s|VALUES|1|-1|a\nVGETATTR|s|a\nVSETATTR|s|a|\nVGETATTR|s|a",
        b":1\r\n:0\r\n$3\r\nx y\r\n:1\r\n$-1\r\n",
    ),
    (
        b"VADD|s|VALUES|2|1|1|a\nVADD|s|VALUES|2|1|1|b|SETATTR|k\nVADD|s|VALUES|2|1|1|c\nVREM|s|a\nVSIM|s|ELE|b|TRUTH|WITHATTRIBS|COUNT|2",
        b":1\r\n:1\r\n:1\r\n:1\r\n*4\r\n$1\r\nb\r\n$1\r\nk\r\n$1\r\nc\r\n$-1\r\n",
    ),
];

// Filters, up to the depth that is allowed.
const FILTERED: &[Worked] = &[
    (
        b"VADD|f|VALUES|1|1|a|SETATTR|{\"year\":1984,\"rating\":8.6}\nVADD|f|VALUES|1|1|b|SETATTR|{\"year\":1984}\nVADD|f|VALUES|1|1|c|SETATTR|x\nVADD|f|VALUES|1|1|d|SETATTR|{\"year\":1979,\"rating\":9.9}\nVADD|f|VALUES|1|1|e|SETATTR|{\"year\":1980,\"rating\":8.50}\nVSIM|f|VALUES|1|1|TRUTH|FILTER|.year >= 1980 and .rating > 8.5\nVSIM|f|VALUES|1|1|TRUTH|FILTER|.year >",
        b":1\r\n:1\r\n:1\r\n:1\r\n:1\r\n*1\r\n$1\r\na\r\n-ERR filter syntax at byte 7\r\n",
    ),
    (
        b"VADD|f|VALUES|1|1|a|SETATTR|{\"year\":1984,\"rating\":8.6}\nVADD|f|VALUES|1|1|b|SETATTR|{\"year\":1984}\nVADD|f|VALUES|1|1|c|SETATTR|x\nVADD|f|VALUES|1|1|d|SETATTR|{\"year\":1979,\"rating\":9.9}\nVADD|f|VALUES|1|1|e|SETATTR|{\"year\":1980,\"rating\":8.50}\nVSETATTR|f|b|{\"k\":1}",
        b":1\r\n:1\r\n:1\r\n:1\r\n:1\r\n:1\r\n",
    ),
    (
        b"VADD|k|VALUES|1|1|a|SETATTR|{}\nVADD|k|VALUES|1|1|b|SETATTR|[1]\nVADD|k|VALUES|1|1|c\nVSIM|k|VALUES|1|1|TRUTH|FILTER|((((((((((((((((((((((((((((((((((((((((((((((((((((((((((((((((1))))))))))))))))))))))))))))))))))))))))))))))))))))))))))))))))\nVSIM|k|VALUES|1|1|TRUTH|FILTER|(((((((((((((((((((((((((((((((((((((((((((((((((((((((((((((((((1)))))))))))))))))))))))))))))))))))))))))))))))))))))))))))))))))",
        b":1\r\n:1\r\n:1\r\n*1\r\n$1\r\na\r\n-ERR filter nests too deep at byte 64\r\n",
    ),
    (
        b"VADD|k|VALUES|1|1|a|SETATTR|{}\nVADD|k|VALUES|1|1|b|SETATTR|[1]\nVADD|k|VALUES|1|1|c\nVSIM|k|VALUES|1|1|TRUTH|FILTER|!!!!!!!!!!!!!!!!!!!!!!!!!!!!!!!!!!!!!!!!!!!!!!!!!!!!!!!!!!!!!!!!true\nVSIM|k|VALUES|1|1|TRUTH|FILTER|!!!!!!!!!!!!!!!!!!!!!!!!!!!!!!!!!!!!!!!!!!!!!!!!!!!!!!!!!!!!!!!!!true",
        b":1\r\n:1\r\n:1\r\n*1\r\n$1\r\na\r\n-ERR filter nests too deep at byte 64\r\n",
    ),
];

#[test]
fn members_are_added_replaced_and_shown(rt: HostRuntime) -> Result<(), Fail> {
    assert!(rt; are_replied(rt.alloc(), ADDED)?);
    Ok(())
}

#[test]
fn exact_searches_answer_the_nearest_by_distance_then_name(rt: HostRuntime) -> Result<(), Fail> {
    assert!(rt; are_replied(rt.alloc(), EXACT)?);
    Ok(())
}

#[test]
fn the_first_word_that_does_not_fit_decides(rt: HostRuntime) -> Result<(), Fail> {
    assert!(rt; are_replied(rt.alloc(), REFUSED)?);
    Ok(())
}

#[test]
fn absent_keys_and_names_have_answers(rt: HostRuntime) -> Result<(), Fail> {
    assert!(rt; are_replied(rt.alloc(), ABSENT)?);
    Ok(())
}

#[test]
fn removals_and_attributes_are_kept(rt: HostRuntime) -> Result<(), Fail> {
    assert!(rt; are_replied(rt.alloc(), KEPT)?);
    Ok(())
}

#[test]
fn filters_choose_among_the_members(rt: HostRuntime) -> Result<(), Fail> {
    assert!(rt; are_replied(rt.alloc(), FILTERED)?);
    Ok(())
}

// Inputs, how their connections end, and what is written.
const ENDS: &[(&[u8], SessionEnd, &[u8])] = &[
    (b"", SessionEnd::Ended, b""),
    (
        b"*1\r\n$4\r\nPING\r\n*1\r\n$4\r\nPING\r\n*1\r\n$4\r\nPING\r\n",
        SessionEnd::Ended,
        b"+PONG\r\n+PONG\r\n+PONG\r\n",
    ),
    (
        b"PING\r\n\r\nVCARD  s\n",
        SessionEnd::Ended,
        b"+PONG\r\n:0\r\n",
    ),
    (b"ping a-b\r\n", SessionEnd::Ended, b"$3\r\na-b\r\n"),
    (
        b"*0\r\n*-1\r\n*1\r\n$4\r\nPING\r\n",
        SessionEnd::Ended,
        b"+PONG\r\n",
    ),
    (b"QUIT\r\nPING\r\n", SessionEnd::Quit, b"+OK\r\n"),
    (b"QUIT\r\n*x", SessionEnd::Quit, b"+OK\r\n"),
    (
        b"*1\r\n$4\r\nQUIT\r\n*1\r\n$4\r\nPING\r\n",
        SessionEnd::Quit,
        b"+OK\r\n",
    ),
    (b"*1\r\n$4\r\nQUIT\r\n*x", SessionEnd::Quit, b"+OK\r\n"),
    (
        b"*1\r\n$4\r\nPING\r\n*2\r\n$5\r\nab",
        SessionEnd::CutShort,
        b"+PONG\r\n",
    ),
    (
        b"PING\n*65537",
        SessionEnd::Protocol {
            fault: Fault::CountTooLarge,
            at: 10,
        },
        b"+PONG\r\n-ERR Protocol error: array count too large at byte 10\r\n",
    ),
    (
        b"*1\r\n$3\r\nabcX",
        SessionEnd::Protocol {
            fault: Fault::BadEnd,
            at: 11,
        },
        b"-ERR Protocol error: bad bulk end at byte 11\r\n",
    ),
];

#[test]
fn connections_end_by_their_causes(rt: HostRuntime) -> Result<(), Fail> {
    let alloc = rt.alloc();
    for (input, end, output) in ENDS {
        let input = Text::from_slice(alloc, input)?;
        assert!(rt; gives(alloc, &input, *end, output)?);
    }
    Ok(())
}
