//! The least few of a table of keys, the order of a frontier, and a test over a captured value.
ghost use Rattle.std.specs.Prelude.{◌≡◌, length, nat_le, false};
ghost use Rattle.std.specs.Option.{option_map_or, option_copied};
ghost use Rattle.vs_rank.specs.Tests.{AnswersOne};

use crate::{Best, Frontier, Key, Testing, Wanted};
use std::alloc::Global;
use std::test::Fail;

const OFFERED: [(u32, u32); 9] = [
    (5, 1),
    (3, 9),
    (5, 0),
    (7, 2),
    (3, 4),
    (9, 3),
    (0, 8),
    (3, 9),
    (5, 7),
];

fn key((dist, id): (u32, u32)) -> Key {
    Key { dist, id }
}

fn best_of(alloc: Global, most: u32) -> Result<Best, Fail> {
    let mut best = Best::new(alloc, most);
    for pair in OFFERED {
        best.reserve(1)?;
        best.offer(key(pair));
    }
    Ok(best)
}

#[test]
fn keeps_the_least_few(rt: HostRuntime) -> Result<(), Fail> {
    let alloc = rt.alloc();
    let cases: [(u32, &[(u32, u32)]); 5] = [
        (0, &[]),
        (1, &[(0, 8)]),
        (4, &[(0, 8), (3, 4), (3, 9), (3, 9)]),
        (6, &[(0, 8), (3, 4), (3, 9), (3, 9), (5, 0), (5, 1)]),
        (
            20,
            &[
                (0, 8),
                (3, 4),
                (3, 9),
                (3, 9),
                (5, 0),
                (5, 1),
                (5, 7),
                (7, 2),
                (9, 3),
            ],
        ),
    ];
    for (most, want) in cases {
        let best = best_of(alloc, most)?;
        assert_eq!(rt;
            best.worst(),
            want.last().copied().map(key),
            "the worst of {most}"
        );
        let kept = best.into_sorted();
        assert_eq!(rt; kept.len(), want.len(), "how many of {most}");
        for (found, pair) in kept.iter().zip(want.iter()) {
            assert_eq!(rt; *found, key(*pair), "among the least {most}");
        }
    }
    let best = best_of(alloc, 4)?;
    assert!(rt; best.is_beyond(key((3, 10))));
    assert!(rt; !best.is_beyond(key((3, 9))));
    assert!(rt; !best_of(alloc, 20)?.is_beyond(key((90, 0))));
    Ok(())
}

#[test]
fn gives_the_least_first(rt: HostRuntime) -> Result<(), Fail> {
    let mut frontier = Frontier::new(rt.alloc());
    for pair in OFFERED {
        frontier.reserve(1)?;
        frontier.offer(key(pair));
    }
    for pair in [
        (0, 8),
        (3, 4),
        (3, 9),
        (3, 9),
        (5, 0),
        (5, 1),
        (5, 7),
        (7, 2),
        (9, 3),
    ] {
        assert_eq!(rt; frontier.pop(), Some(key(pair)));
    }
    assert_eq!(rt; frontier.pop(), None);
    Ok(())
}

fn answers<F: Testing + Drop>(test: F, attrs: [Option<&[u8]>; 3]) -> [bool; 3]
    requires single { IsProp (F.ready test) }
    requires callable { F.ready test }
    requires answers { AnswersOne (F.gives test) }
{
    let wanted = Wanted::new(test);
    attrs.map(|attr| wanted.passes(attr))
}

fn is_long(least: usize, attr: Option<&[u8]>) -> bool
    ensures { result ≡ option_map_or (λ text. nat_le least (length text)) (option_copied attr.entry) false }
{
    match attr {
        Some(text) => least <= text.len(),
        None => false,
    }
}

fn answers_of_length(least: usize, attrs: [Option<&[u8]>; 3]) -> [bool; 3] {
    answers(|attr: Option<&[u8]>| is_long(least, attr), attrs)
}

#[test]
fn keeps_a_test_over_a_captured_value(rt: HostRuntime) {
    let attrs: [Option<&[u8]>; 3] = [Some(b"ab"), Some(b"a"), None];
    assert_eq!(rt; answers_of_length(2, attrs), [true, false, false]);
    assert_eq!(rt; answers_of_length(0, attrs), [true, true, false]);
}
