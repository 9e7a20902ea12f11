//! Sets of 1, 2 and 17 members, of one component, of about a word of them, and of the most: the first lines by what was asked for, and the
//! same text at each call. Three whole texts are stored runs of the program.
use crate::summary;
use std::test::Fail;

fn begins(text: &[u8], front: &[u8]) -> bool {
    text.starts_with(front)
}

fn lines(text: &[u8]) -> usize {
    text.iter().filter(|byte| **byte == b'\n').count()
}

#[test]
fn first_lines(rt: HostRuntime) -> Result<(), Fail> {
    let cases: [(u32, u32, &[u8]); 9] = [
        (
            1,
            1,
            b"members 1\ndim 1\nmax-level 1\nlinks 0\ntruth m0\nbeam m0\nagree 1\n",
        ),
        (1, 31, b"members 1\ndim 31\n"),
        (2, 32, b"members 2\ndim 32\n"),
        (2, 33, b"members 2\ndim 33\n"),
        (2, 4096, b"members 2\ndim 4096\n"),
        (17, 1, b"members 17\ndim 1\n"),
        (17, 31, b"members 17\ndim 31\n"),
        (17, 32, b"members 17\ndim 32\n"),
        (17, 33, b"members 17\ndim 33\n"),
    ];
    for (members, dim, front) in cases {
        assert!(rt; 1 <= members && members <= 1_048_576 && 1 <= dim && dim <= 4096);
        let text = summary(rt.alloc(), 0, members, dim)?;
        assert!(rt; begins(text.as_slice(), front));
        assert_eq!(rt; lines(text.as_slice()), 7);
        let again = summary(rt.alloc(), 0, members, dim)?;
        assert_eq!(rt; again.as_slice(), text.as_slice());
    }
    Ok(())
}

// Two members are linked, which is one pair.
#[test]
fn one_pair(rt: HostRuntime) -> Result<(), Fail> {
    let text = summary(rt.alloc(), 0, 2, 32)?;
    let found = text
        .as_slice()
        .windows(9)
        .any(|window| window == b"\nlinks 1\n".as_slice());
    assert!(rt; found);
    Ok(())
}
