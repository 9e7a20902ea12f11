//! Small cases: how many words a member has, its name, and the end. That the words are the definitions' is proved.
use crate::generated;
use std::test::Fail;
use vs_outside::{List, Text};

fn is_at(words: &List<Text>, place: usize, text: &[u8]) -> bool {
    match words.get(place) {
        Some(word) => word.as_slice() == text,
        None => false,
    }
}

// Two members of each dimension: one component, a whole word of them, one less, one more, and the most.
#[test]
fn each_member_comes_once(rt: HostRuntime) -> Result<(), Fail> {
    let cases: [(u32, &[u8]); 5] = [
        (1, b"1"),
        (31, b"31"),
        (32, b"32"),
        (33, b"33"),
        (4096, b"4096"),
    ];
    for (dim, text) in cases {
        let mut members = generated(rt.alloc(), 0, 2, dim);
        for name in [b"m0", b"m1"] {
            let words = members.next_words()?.expect(&rt, "a member");
            assert_eq!(rt; words.len(), dim as usize + 7);
            assert!(rt; is_at(&words, 0, b"VADD"));
            assert!(rt; is_at(&words, 3, text));
            assert!(rt; is_at(&words, dim as usize + 4, name));
            assert!(rt; is_at(&words, dim as usize + 6, b"64"));
        }
        assert!(rt; members.next_words()?.is_none());
        assert!(rt; members.next_words()?.is_none());
    }
    Ok(())
}
