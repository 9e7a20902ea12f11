//! Texts and what they spell, from the rules of these forms.
#![tactic(auto)]

use super::*;
use std::test::Fail;

#[test]
fn whole_numbers(rt: HostRuntime) -> Result<(), Fail> {
    let cases: [(&[u8], Option<i64>); 14] = [
        (b"0", Some(0)),
        (b"-0", Some(0)),
        (b"007", Some(7)),
        (b"-42", Some(-42)),
        (b"9223372036854775807", Some(9_223_372_036_854_775_807)),
        (b"9223372036854775808", None),
        (b"-9223372036854775808", Some(i64::MIN)),
        (b"-9223372036854775809", None),
        (b"0000000000000000007", Some(7)),
        (b"00000000000000000007", None),
        (b"", None),
        (b"-", None),
        (b"+1", None),
        (b"1 ", None),
    ];
    for (text, wanted) in cases {
        assert_eq!(rt; read_int(text), wanted);
    }
    Ok(())
}

#[test]
fn fixed_numbers(rt: HostRuntime) -> Result<(), Fail> {
    let cases: [(&[u8], Option<i128>); 14] = [
        (b"0", Some(0)),
        (b"1984", Some(1_984_000_000_000)),
        (b"8.6", Some(8_600_000_000)),
        (b"-2.5", Some(-2_500_000_000)),
        (b"-0.000000001", Some(-1)),
        (b"0.123456789", Some(123_456_789)),
        (b"00.50", Some(500_000_000)),
        (
            b"-999999999999999999.999999999",
            Some(-999_999_999_999_999_999_999_999_999),
        ),
        (b"1000000000000000000", None),
        (b"1.0000000000", None),
        (b"1.", None),
        (b".5", None),
        (b"1e3", None),
        (b"--1", None),
    ];
    for (text, wanted) in cases {
        assert_eq!(rt; read_fixed(text), wanted);
    }
    Ok(())
}

#[test]
fn scores(rt: HostRuntime) -> Result<(), Fail> {
    let cases: [(u32, u32, &[u8]); 9] = [
        (0, 3, b"1"),
        (3, 3, b"0"),
        (2, 3, b"0.333333333"),
        (1, 3, b"0.666666666"),
        (2, 128, b"0.984375000"),
        (127, 128, b"0.007812500"),
        (1, 128, b"0.992187500"),
        (32_767, 32_768, b"0.000030517"),
        (1, 32_768, b"0.999969482"),
    ];
    for (differ, dim, wanted) in cases {
        assert_eq!(rt; score_text(differ, dim).as_slice(), wanted);
    }
    Ok(())
}
