//! Messages and replies as large as they come.
use crate::requests::{push_number, push_request, requests};
use crate::served::served;
use std::alloc::Global;
use std::test::Fail;
use vs_connection::SessionEnd;
use vs_outside::{NoMemory, Text};

#[test]
fn a_message_of_65_536_words_is_answered(rt: HostRuntime) -> Result<(), Fail> {
    let alloc = rt.alloc();
    let mut line = Text::from_slice(alloc, b"EXISTS")?;
    for _key in 1..65_536 {
        line.extend_from_slice(b"|s")?;
    }
    let mut input = requests(alloc, b"VADD|s|VALUES|1|1|a")?;
    push_request(alloc, &mut input, line.as_slice())?;
    let (end, sink) = served(alloc, input, 16_384, 0, 0)?;
    assert_eq!(rt; end, SessionEnd::Ended);
    assert_eq!(rt; sink.written(), b":1\r\n:65535\r\n".as_slice());
    Ok(())
}

#[test]
fn a_message_of_as_many_bytes_as_may_be_is_answered(rt: HostRuntime) -> Result<(), Fail> {
    let alloc = rt.alloc();
    let mut input = Text::from_slice(alloc, b"*65536\r\n$6\r\nEXISTS\r\n")?;
    for number in 0..65_535 {
        input.extend_from_slice(format!(in alloc; "$64\r\n{number:064}\r\n")?.as_bytes())?;
    }
    let (end, sink) = served(alloc, input, 16_384, 0, 0)?;
    assert_eq!(rt; end, SessionEnd::Ended);
    assert_eq!(rt; sink.written(), b":0\r\n".as_slice());
    Ok(())
}

// The addition of a member that is named by this number of four digits, and bears it as its attribute.
fn addition(alloc: Global, number: usize) -> Result<Text, NoMemory> {
    let mut line = Text::from_slice(alloc, b"VADD|s|VALUES|1|1|m")?;
    push_number(alloc, &mut line, number)?;
    line.extend_from_slice(b"|EF|16|SETATTR|{\"n\":")?;
    push_number(alloc, &mut line, number)?;
    line.push(b'}')?;
    Ok(line)
}

// Puts the member's part of a reply after a text.
fn push_hit(alloc: Global, reply: &mut Text, number: usize) -> Result<(), NoMemory> {
    reply.extend_from_slice(b"$5\r\nm")?;
    push_number(alloc, reply, number)?;
    reply.extend_from_slice(b"\r\n$10\r\n{\"n\":")?;
    push_number(alloc, reply, number)?;
    reply.extend_from_slice(b"}\r\n")
}

#[test]
fn a_thousand_members_are_answered_with_their_attributes(rt: HostRuntime) -> Result<(), Fail> {
    let alloc = rt.alloc();
    let mut input = Text::new(alloc);
    let mut output = Text::new(alloc);
    let mut found = Text::from_slice(alloc, b"*2000\r\n")?;
    for number in 1_000..2_000 {
        push_request(alloc, &mut input, addition(alloc, number)?.as_slice())?;
        output.extend_from_slice(b":1\r\n")?;
        push_hit(alloc, &mut found, number)?;
    }
    push_request(
        alloc,
        &mut input,
        b"VSIM|s|VALUES|1|1|COUNT|1000|WITHATTRIBS|TRUTH",
    )?;
    output.extend_from_slice(found.as_slice())?;
    let (end, sink) = served(alloc, input, 16_384, 0, 0)?;
    assert_eq!(rt; end, SessionEnd::Ended);
    assert_eq!(rt; sink.written(), output.as_slice());
    Ok(())
}
