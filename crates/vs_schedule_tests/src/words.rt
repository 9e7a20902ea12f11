//! The words and numbers of lines, and replies in one line.
use std::alloc::Global;
use std::test::Fail;
use vs_outside::{NoMemory, Text};
use vs_schedule_words::{
    Verb, drawn_words, line_words, number_within, push_in_one_line, take_line, word_number,
};

#[test]
fn numbers(rt: HostRuntime) -> Result<(), Fail> {
    assert_eq!(rt; word_number(b"0"), Some(0));
    assert_eq!(rt; word_number(b"4294967295"), Some(u32::MAX));
    let bad: [&[u8]; 7] = [
        b"",
        b"00",
        b"01",
        b"+1",
        b"-1",
        b"4294967296",
        b"99999999999999999999999",
    ];
    for word in bad {
        assert_eq!(rt; word_number(word), None);
    }
    assert_eq!(rt; number_within(1, 64, b"0"), None);
    assert_eq!(rt; number_within(1, 64, b"1"), Some(1));
    assert_eq!(rt; number_within(1, 64, b"64"), Some(64));
    assert_eq!(rt; number_within(1, 64, b"65"), None);
    Ok(())
}

#[test]
fn drawn(rt: HostRuntime) -> Result<(), Fail> {
    let cases: [(&[u8], Option<&[u32]>); 9] = [
        (b"-", Some(&[])),
        (b"7", Some(&[7])),
        (b"0,0", Some(&[0, 0])),
        (b"4294967295,1,2", Some(&[4294967295, 1, 2])),
        (b"", None),
        (b"1,", None),
        (b",1", None),
        (b"1,-", None),
        (b"1, 2", None),
    ];
    for (word, wanted) in cases {
        let numbers = drawn_words(rt.alloc(), word)?;
        assert_eq!(rt; numbers.as_ref().map(|list| list.as_slice()), wanted);
    }
    Ok(())
}

// The words of a line, joined by `|`; none where it is bad.
fn joined(alloc: Global, line: &[u8]) -> Result<Option<Text>, NoMemory> {
    let Some(words) = line_words(alloc, line)? else {
        return Ok(None);
    };
    let mut text = Text::new(alloc);
    for word in words.as_slice() {
        text.extend_from_slice(word.as_slice())?;
        text.push(b'|')?;
    }
    Ok(Some(text))
}

#[test]
fn words(rt: HostRuntime) -> Result<(), Fail> {
    let cases: [(&[u8], Option<&[u8]>); 7] = [
        (b"a", Some(b"a|")),
        (b"1 do - PING", Some(b"1|do|-|PING|")),
        (b" a", None),
        (b"a ", None),
        (b"a  b", None),
        (b"a\rb", None),
        (b"a \r", None),
    ];
    for (line, wanted) in cases {
        let words = joined(rt.alloc(), line)?;
        assert_eq!(rt; words.as_ref().map(|text| text.as_slice()), wanted);
    }
    Ok(())
}

#[test]
fn lines_in_pieces(rt: HostRuntime) -> Result<(), Fail> {
    let mut line = Text::new(rt.alloc());
    assert_eq!(rt; take_line(&mut line, b"ab")?, None);
    assert_eq!(rt; take_line(&mut line, b"c\nd\n")?, Some(b"d\n".as_slice()));
    assert_eq!(rt; line.as_slice(), b"abc".as_slice());
    Ok(())
}

#[test]
fn one_line(rt: HostRuntime) -> Result<(), Fail> {
    let cases: [(&[u8], &[u8]); 6] = [
        (b"", b""),
        (b":1\r\n", b":1"),
        (b"*1\r\n$1\r\na\r\n", b"*1 $1 a"),
        (b"$2\r\n\r\n\r\n", b"$2  "),
        (b"a\rb\n", b"a\rb\n"),
        (b"a\r\r\n", b"a\r"),
    ];
    for (reply, wanted) in cases {
        let mut out = Text::new(rt.alloc());
        push_in_one_line(&mut out, reply)?;
        assert_eq!(rt; out.as_slice(), wanted);
    }
    Ok(())
}

#[test]
fn verbs(rt: HostRuntime) -> Result<(), Fail> {
    let verbs = [
        Verb::Do,
        Verb::Look,
        Verb::Finish,
        Verb::Draft,
        Verb::Prepare,
        Verb::Commit,
    ];
    for verb in verbs {
        assert_eq!(rt; Verb::named(verb.text()), Some(verb));
    }
    assert_eq!(rt; Verb::named(b"Do"), None);
    assert_eq!(rt; Verb::named(b"stop"), None);
    Ok(())
}
