//! Distances that were counted elsewhere, at several lengths.
use crate::distance;

#[test]
fn counts_the_places_that_differ(rt: HostRuntime) {
    let cases: [(&[u64], &[u64], u32); 8] = [
        (&[], &[], 0),
        (&[0], &[0], 0),
        (&[0], &[u64::MAX], 64),
        (&[0b1011], &[0b0110], 3),
        (&[1 << 63], &[0], 1),
        (&[7, 7, 7], &[7, 7, 0], 3),
        (
            &[
                0x6c576fac43fd007c,
                0x826886b3864a1b1b,
                0xa5fae1992097aa0e,
                0x620355cd119357c5,
                0xcba276b4b881a9f0,
            ],
            &[
                0xc4a963d990927fa9,
                0xeac81f5587d9c904,
                0xb0ff4b1012bcd303,
                0x5d5090b0a40615d6,
                0x350fa08f0edc81ed,
            ],
            167,
        ),
        (&[u64::MAX; 512], &[0; 512], 32768),
    ];
    for (a, b, want) in cases {
        assert!(rt; a.len() == b.len() && a.len() <= 512);
        assert_eq!(rt; distance(a, b), want, "{a:?} and {b:?}");
    }
}

// Word i of the two vectors differs in 1 + i % 64 places.
#[test]
fn counts_at_every_length(rt: HostRuntime) {
    let a = [0x5555555555555555; 512];
    let mut b = a;
    let mut want = 0;
    for len in 0..512 {
        assert_eq!(rt; distance(&a[..len], &b[..len]), want, "{len} words");
        b[len] ^= u64::MAX >> (63 - len % 64);
        want += 1 + len as u32 % 64;
    }
    assert_eq!(rt; distance(&a, &b), want, "512 words");
}
