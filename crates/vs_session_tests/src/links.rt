//! Sessions with links, worked out by hand. Their words are those of the seed 7: the levels of the first four are 0, as are those of the ten
//! after the first 98; the levels of the 26th, the 27th and the 30th are 1, 0 and 2. A VRANDMEMBER of an absent key passes words over.
use crate::served::{Worked, are_replied};
use std::test::Fail;

// Searches by links: with scores, with a bound on how many are tried, and what they are refused for.
const SEARCHED: &[Worked] = &[
    (
        b"VADD|s|VALUES|3|1|-2|0|a|BIN\nVADD|s|VALUES|3|1|1|1|b\nVADD|s|VALUES|3|-1|1|1|c\nVSIM|s|VALUES|3|1|1|1|WITHSCORES\nVSIM|s|ELE|a|COUNT|2|NOTHREAD",
        b":1\r\n:1\r\n:1\r\n*6\r\n$1\r\nb\r\n$1\r\n1\r\n$1\r\nc\r\n$11\r\n0.666666666\r\n$1\r\na\r\n$11\r\n0.333333333\r\n*2\r\n$1\r\na\r\n$1\r\nb\r\n",
    ),
    (
        b"VADD|s|VALUES|1|1|a|SETATTR|{\"k\":1}\nVADD|s|VALUES|1|1|b|SETATTR|{\"k\":2}\nVSIM|s|VALUES|1|1|FILTER|.k==2|FILTER-EF|1\nVSIM|s|VALUES|1|1|FILTER|.k==2|FILTER-EF|0\nVSIM|s|VALUES|1|1|FILTER|.k==2|WITHSCORES|WITHATTRIBS",
        b":1\r\n:1\r\n*0\r\n*1\r\n$1\r\nb\r\n*3\r\n$1\r\nb\r\n$1\r\n1\r\n$7\r\n{\"k\":2}\r\n",
    ),
    (
        b"VSIM|s|ELE|a\nVADD|s|VALUES|1|1|a\nVSIM|s|ELE|b\nVSIM|s|VALUES|2|1|1\nVSIM|s|ELE|a|EF|1|COUNT|1\nDEL|s\nVSIM|s|ELE|a",
        b"*0\r\n:1\r\n-ERR no such element\r\n-ERR vector has 2 components, the set has 1\r\n*1\r\n$1\r\na\r\n:1\r\n*0\r\n",
    ),
];

// Links of members, each layer from the nearest on.
const NEIGHBOURS: &[Worked] = &[
    (
        b"VLINKS|s|a\nVADD|s|VALUES|3|1|-2|0|a\nVLINKS|s|a\nVLINKS|s|b\nVLINKS|s|a|SCORES\nVADD|s|VALUES|3|1|1|1|b\nVLINKS|s|a|WITHSCORES\nVREM|s|a\nVLINKS|s|b",
        b"*-1\r\n:1\r\n*1\r\n*0\r\n*-1\r\n-ERR word 3: unknown option\r\n:1\r\n*1\r\n*2\r\n$1\r\nb\r\n$11\r\n0.333333333\r\n:1\r\n*1\r\n*0\r\n",
    ),
    (
        b"VADD|s|VALUES|3|1|-2|0|a\nVADD|s|VALUES|3|1|1|1|b\nVADD|s|VALUES|3|-1|1|1|c\nVLINKS|s|b|WITHSCORES\nVLINKS|s|a\nVLINKS|s|c",
        b":1\r\n:1\r\n:1\r\n*1\r\n*4\r\n$1\r\nc\r\n$11\r\n0.666666666\r\n$1\r\na\r\n$11\r\n0.333333333\r\n*1\r\n*1\r\n$1\r\nb\r\n*1\r\n*1\r\n$1\r\nb\r\n",
    ),
];

// The hub of a star is removed: two of its leaves are paired, and the third is joined to both.
const STAR: &[Worked] = &[(
    b"VADD|s|VALUES|3|-1|-1|-1|hub\nVADD|s|VALUES|3|1|-1|-1|a\nVADD|s|VALUES|3|-1|1|-1|b\nVADD|s|VALUES|3|-1|-1|1|c\nVLINKS|s|hub\nVLINKS|s|c\nVREM|s|hub\nVLINKS|s|a\nVLINKS|s|b\nVLINKS|s|c",
    b":1\r\n:1\r\n:1\r\n:1\r\n*1\r\n*3\r\n$1\r\na\r\n$1\r\nb\r\n$1\r\nc\r\n*1\r\n*1\r\n$3\r\nhub\r\n:1\r\n*1\r\n*2\r\n$1\r\nb\r\n$1\r\nc\r\n*1\r\n*2\r\n$1\r\na\r\n$1\r\nc\r\n*1\r\n*2\r\n$1\r\na\r\n$1\r\nb\r\n",
)];

// The hub has as many links as it may have, so the ninth leaf is linked to the first.
const FULL_HUB: &[Worked] = &[(
    b"VRANDMEMBER|g|98\nVADD|g|VALUES|9|-1|-1|-1|-1|-1|-1|-1|-1|-1|hub|M|4\nVADD|g|VALUES|9|1|-1|-1|-1|-1|-1|-1|-1|-1|a\nVADD|g|VALUES|9|-1|1|-1|-1|-1|-1|-1|-1|-1|b\nVADD|g|VALUES|9|-1|-1|1|-1|-1|-1|-1|-1|-1|c\nVADD|g|VALUES|9|-1|-1|-1|1|-1|-1|-1|-1|-1|d\nVADD|g|VALUES|9|-1|-1|-1|-1|1|-1|-1|-1|-1|e\nVADD|g|VALUES|9|-1|-1|-1|-1|-1|1|-1|-1|-1|f\nVADD|g|VALUES|9|-1|-1|-1|-1|-1|-1|1|-1|-1|g\nVADD|g|VALUES|9|-1|-1|-1|-1|-1|-1|-1|1|-1|h\nVADD|g|VALUES|9|-1|-1|-1|-1|-1|-1|-1|-1|1|i\nVLINKS|g|i\nVLINKS|g|a\nVLINKS|g|hub",
    b"*0\r\n:1\r\n:1\r\n:1\r\n:1\r\n:1\r\n:1\r\n:1\r\n:1\r\n:1\r\n:1\r\n*1\r\n*1\r\n$1\r\na\r\n*1\r\n*2\r\n$3\r\nhub\r\n$1\r\ni\r\n*1\r\n*8\r\n$1\r\na\r\n$1\r\nb\r\n$1\r\nc\r\n$1\r\nd\r\n$1\r\ne\r\n$1\r\nf\r\n$1\r\ng\r\n$1\r\nh\r\n",
)];

// Members of the levels 1, 0 and 2, links at each of these, and the greatest level after a removal.
const LEVELS: &[Worked] = &[(
    b"VINFO|s\nVRANDMEMBER|s|25\nVADD|s|VALUES|2|1|1|a|SETATTR|x\nVADD|s|VALUES|2|1|-1|b\nVRANDMEMBER|t|2\nVADD|s|VALUES|2|-1|-1|c\nVLINKS|s|c\nVLINKS|s|a\nVINFO|s\nVREM|s|c\nVINFO|s\nVREM|s|zz\nVREM|s|b\nVREM|s|a\nEXISTS|s\nVREM|s|a",
    b"*-1\r\n*0\r\n:1\r\n:1\r\n*0\r\n:1\r\n*3\r\n*0\r\n*1\r\n$1\r\na\r\n*1\r\n$1\r\nb\r\n*2\r\n*1\r\n$1\r\nc\r\n*1\r\n$1\r\nb\r\n*12\r\n$10\r\nquant-type\r\n$3\r\nbin\r\n$6\r\nhnsw-m\r\n:16\r\n$10\r\nvector-dim\r\n:2\r\n$4\r\nsize\r\n:3\r\n$9\r\nmax-level\r\n:2\r\n$16\r\nattributes-count\r\n:1\r\n:1\r\n*12\r\n$10\r\nquant-type\r\n$3\r\nbin\r\n$6\r\nhnsw-m\r\n:16\r\n$10\r\nvector-dim\r\n:2\r\n$4\r\nsize\r\n:2\r\n$9\r\nmax-level\r\n:1\r\n$16\r\nattributes-count\r\n:1\r\n:0\r\n:1\r\n:1\r\n:0\r\n:0\r\n",
)];

#[test]
fn searches_follow_the_links(rt: HostRuntime) -> Result<(), Fail> {
    assert!(rt; are_replied(rt.alloc(), SEARCHED)?);
    Ok(())
}

#[test]
fn links_are_shown_from_the_nearest_on(rt: HostRuntime) -> Result<(), Fail> {
    assert!(rt; are_replied(rt.alloc(), NEIGHBOURS)?);
    Ok(())
}

#[test]
fn a_star_without_its_hub_is_joined_again(rt: HostRuntime) -> Result<(), Fail> {
    assert!(rt; are_replied(rt.alloc(), STAR)?);
    Ok(())
}

#[test]
fn a_leaf_past_a_full_hub_is_linked_to_another_leaf(rt: HostRuntime) -> Result<(), Fail> {
    assert!(rt; are_replied(rt.alloc(), FULL_HUB)?);
    Ok(())
}

#[test]
fn levels_come_from_the_drawn_words(rt: HostRuntime) -> Result<(), Fail> {
    assert!(rt; are_replied(rt.alloc(), LEVELS)?);
    Ok(())
}
