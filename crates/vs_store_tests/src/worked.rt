//! Requests with their drawn words, and answers that were worked out by hand.
ghost use Rattle.vs_store.specs.Kept.{AreUsual};
ghost use Rattle.vs_store.specs.Seen.{limits_seen};

use crate::asking::{Asked, check};
use std::alloc::Global;
use std::process::Abort;
use std::test::Fail;
use vs_outside::NoMemory;
use vs_store::Limits;

/// The drawn word of an addition, or none; a line; its answer.
pub type Step = (&'static [u32], &'static str, &'static str);

// The hub has as many links as it may have, none farther than the ninth leaf, which is linked to the first.
const FULL_HUB: &[Step] = &[
    (
        &[1],
        "VADD g VALUES 9 -1 -1 -1 -1 -1 -1 -1 -1 -1 hub M 4",
        "1",
    ),
    (&[1], "VADD g VALUES 9 1 -1 -1 -1 -1 -1 -1 -1 -1 a", "1"),
    (&[1], "VADD g VALUES 9 -1 1 -1 -1 -1 -1 -1 -1 -1 b", "1"),
    (&[1], "VADD g VALUES 9 -1 -1 1 -1 -1 -1 -1 -1 -1 c", "1"),
    (&[1], "VADD g VALUES 9 -1 -1 -1 1 -1 -1 -1 -1 -1 d", "1"),
    (&[1], "VADD g VALUES 9 -1 -1 -1 -1 1 -1 -1 -1 -1 e", "1"),
    (&[1], "VADD g VALUES 9 -1 -1 -1 -1 -1 1 -1 -1 -1 f", "1"),
    (&[1], "VADD g VALUES 9 -1 -1 -1 -1 -1 -1 1 -1 -1 g", "1"),
    (&[1], "VADD g VALUES 9 -1 -1 -1 -1 -1 -1 -1 1 -1 h", "1"),
    (&[1], "VADD g VALUES 9 -1 -1 -1 -1 -1 -1 -1 -1 1 i", "1"),
    (&[], "VLINKS g i", "/ a 2"),
    (&[], "VLINKS g a", "/ hub 1 i 2"),
    (&[], "VLINKS g hub", "/ a 1 b 1 c 1 d 1 e 1 f 1 g 1 h 1"),
];

const LEVELS: &[Step] = &[
    (&[4], "VADD s VALUES 2 1 1 a", "1"),
    (&[1], "VADD s VALUES 2 1 -1 b", "1"),
    (&[16], "VADD s VALUES 2 -1 -1 c", "1"),
    (&[], "VINFO s", "m 16 dim 2 size 3 max-level 2 attributes 0"),
    (&[], "VREM s c", "1"),
    (&[], "VINFO s", "m 16 dim 2 size 2 max-level 1 attributes 0"),
    (&[], "VREM s zz", "0"),
    (&[], "VREM s b", "1"),
    (&[], "VREM s a", "1"),
    (&[], "EXISTS s", "0"),
    (&[], "VREM s a", "0"),
];

const EFFORT: &[Step] = &[
    (&[1], "VADD s VALUES 1 1 a SETATTR {\"k\":1}", "1"),
    (&[1], "VADD s VALUES 1 1 b SETATTR {\"k\":2}", "1"),
    (&[], "VSIM s VALUES 1 1 FILTER .k==2 FILTER-EF 1", ""),
    (&[], "VSIM s VALUES 1 1 FILTER .k==2 FILTER-EF 0", " b 0"),
];

const LESSER_LIMITS: &[Step] = &[
    (&[1], "VADD s VALUES 1 1 a", "1"),
    (&[1], "VADD s VALUES 1 1 b", "1"),
    (&[1], "VADD s VALUES 1 1 c", "1"),
    (&[1], "VADD s VALUES 1 1 d", "1"),
    (&[1], "VADD s VALUES 1 1 e", "FullSet { members: 4 }"),
    (&[1], "VADD s VALUES 1 -1 a", "0"),
];

// Two leaves of the hub are paired, and the third is joined to both.
const STAR: &[Step] = &[
    (&[1], "VADD s VALUES 3 -1 -1 -1 hub", "1"),
    (&[1], "VADD s VALUES 3 1 -1 -1 a", "1"),
    (&[1], "VADD s VALUES 3 -1 1 -1 b", "1"),
    (&[1], "VADD s VALUES 3 -1 -1 1 c", "1"),
    (&[], "VLINKS s hub", "/ a 1 b 1 c 1"),
    (&[], "VLINKS s c", "/ hub 1"),
    (&[], "VREM s hub", "1"),
    (&[], "VLINKS s a", "/ b 2 c 2"),
    (&[], "VLINKS s b", "/ a 2 c 2"),
    (&[], "VLINKS s c", "/ a 2 b 2"),
];

// Members in their places by the words that pick them.
const PICKS: &[Step] = &[
    (&[1], "VADD s VALUES 2 1 1 a", "1"),
    (&[1], "VADD s VALUES 2 1 1 b", "1"),
    (&[1], "VADD s VALUES 2 1 1 c", "1"),
    (&[0, 0], "VRANDMEMBER s 2", " a b"),
    (&[2147483648, 4294967295], "VRANDMEMBER s -2", " b c"),
    (&[4294967295], "VRANDMEMBER s", "c"),
    (&[], "VRANDMEMBER s 0", ""),
];

// A member of level 3 is replaced by one of level 0, which keeps the attribute.
const REPLACED: &[Step] = &[
    (&[64], "VADD s VALUES 3 1 1 1 a SETATTR {\"n\":1}", "1"),
    (&[16], "VADD s VALUES 3 1 1 -1 b CAS", "1"),
    (&[], "VLINKS s a", "// b 1/ b 1/ b 1"),
    (&[1], "VADD s VALUES 3 -1 -1 -1 a", "0"),
    (&[], "VGETATTR s a", "{\"n\":1}"),
    (&[], "VSETATTR s b {\"n\":2}", "1"),
    (&[], "VEMB s a", "---"),
    (&[], "VLINKS s b", "/// a 2"),
    (
        &[],
        "VSIM s VALUES 3 1 1 -1 COUNT 2 WITHATTRIBS TRUTH",
        " b 0 {\"n\":2} a 2 {\"n\":1}",
    ),
    (
        &[],
        "VSIM s VALUES 3 1 1 -1 COUNT 2 WITHATTRIBS",
        " b 0 {\"n\":2} a 2 {\"n\":1}",
    ),
    (&[], "VSIM s ELE a FILTER .n>1", " b 2"),
    (&[], "DEL s t", "1"),
    (&[], "VCARD s", "0"),
];

/// All of them that are for a store of the usual limits.
pub const ALL: [&'static [Step]; 6] = [FULL_HUB, LEVELS, EFFORT, STAR, PICKS, REPLACED];

fn run(rt: &impl Abort, alloc: Global, limits: Limits, steps: &[Step]) -> Result<(), NoMemory>
    requires { AreUsual (limits_seen limits) }
{
    let mut asked = Asked::new(alloc, limits);
    for (drawn, line, wanted) in steps {
        check(rt, &mut asked, line, drawn, wanted)?;
    }
    Ok(())
}

#[test]
fn worked_requests_are_answered(rt: HostRuntime) -> Result<(), Fail> {
    for steps in ALL {
        run(&rt, rt.alloc(), Limits::usual(), steps)?;
    }
    let limits = Limits {
        set: 4,
        keys: 4,
        all: 16,
        ..Limits::usual()
    };
    run(&rt, rt.alloc(), limits, LESSER_LIMITS)?;
    Ok(())
}
