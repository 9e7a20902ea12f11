//! Schedules of requests that are done at once, with texts that were worked out by hand.
use crate::ran::{Worked, are_printed};
use std::test::Fail;

const AT_ONCE: &[Worked] = &[
    // A full hub, so the ninth leaf is linked to the first.
    (
        b"\
        actors 1\n\
        1 do 1 VADD g VALUES 9 -1 -1 -1 -1 -1 -1 -1 -1 -1 hub M 4\n\
        1 do 1 VADD g VALUES 9 1 -1 -1 -1 -1 -1 -1 -1 -1 a\n\
        1 do 1 VADD g VALUES 9 -1 1 -1 -1 -1 -1 -1 -1 -1 b\n\
        1 do 1 VADD g VALUES 9 -1 -1 1 -1 -1 -1 -1 -1 -1 c\n\
        1 do 1 VADD g VALUES 9 -1 -1 -1 1 -1 -1 -1 -1 -1 d\n\
        1 do 1 VADD g VALUES 9 -1 -1 -1 -1 1 -1 -1 -1 -1 e\n\
        1 do 1 VADD g VALUES 9 -1 -1 -1 -1 -1 1 -1 -1 -1 f\n\
        1 do 1 VADD g VALUES 9 -1 -1 -1 -1 -1 -1 1 -1 -1 g\n\
        1 do 1 VADD g VALUES 9 -1 -1 -1 -1 -1 -1 -1 1 -1 h\n\
        1 do 1 VADD g VALUES 9 -1 -1 -1 -1 -1 -1 -1 -1 1 i\n\
        1 do - VLINKS g i\n\
        1 do - VLINKS g a\n\
        1 do - VLINKS g hub\n",
        b"\
        1 do :1\n\
        1 do :1\n\
        1 do :1\n\
        1 do :1\n\
        1 do :1\n\
        1 do :1\n\
        1 do :1\n\
        1 do :1\n\
        1 do :1\n\
        1 do :1\n\
        1 do *1 *1 $1 a\n\
        1 do *1 *2 $3 hub $1 i\n\
        1 do *1 *8 $1 a $1 b $1 c $1 d $1 e $1 f $1 g $1 h\n",
    ),
    // A star whose hub is removed: its leaves are linked to each other.
    (
        b"\
        actors 1\n\
        1 do 1 VADD s VALUES 3 -1 -1 -1 hub\n\
        1 do 1 VADD s VALUES 3 1 -1 -1 a\n\
        1 do 1 VADD s VALUES 3 -1 1 -1 b\n\
        1 do 1 VADD s VALUES 3 -1 -1 1 c\n\
        1 do - VLINKS s hub\n\
        1 do - VLINKS s c\n\
        1 do - VREM s hub\n\
        1 do - VLINKS s a\n\
        1 do - VLINKS s b\n\
        1 do - VLINKS s c\n",
        b"\
        1 do :1\n\
        1 do :1\n\
        1 do :1\n\
        1 do :1\n\
        1 do *1 *3 $1 a $1 b $1 c\n\
        1 do *1 *1 $3 hub\n\
        1 do :1\n\
        1 do *1 *2 $1 b $1 c\n\
        1 do *1 *2 $1 a $1 c\n\
        1 do *1 *2 $1 a $1 b\n",
    ),
    // Levels by the drawn words, and the greatest one after a removal; the key goes with the last member.
    (
        b"\
        actors 1\n\
        1 do 4 VADD s VALUES 2 1 1 a\n\
        1 do 1 VADD s VALUES 2 1 -1 b\n\
        1 do 16 VADD s VALUES 2 -1 -1 c\n\
        1 do - VINFO s\n\
        1 do - VREM s c\n\
        1 do - VINFO s\n\
        1 do - VREM s zz\n\
        1 do - VREM s b\n\
        1 do - VREM s a\n\
        1 do - EXISTS s\n\
        1 do - VREM s a\n",
        b"\
        1 do :1\n\
        1 do :1\n\
        1 do :1\n\
        1 do *12 $10 quant-type $3 bin $6 hnsw-m :16 $10 vector-dim :2 $4 size :3 $9 max-level :2 $16 attributes-count :0\n\
        1 do :1\n\
        1 do *12 $10 quant-type $3 bin $6 hnsw-m :16 $10 vector-dim :2 $4 size :2 $9 max-level :1 $16 attributes-count :0\n\
        1 do :0\n\
        1 do :1\n\
        1 do :1\n\
        1 do :0\n\
        1 do :0\n",
    ),
    // Random members by the drawn words.
    (
        b"\
        actors 1\n\
        1 do 1 VADD s VALUES 1 1 a\n\
        1 do 1 VADD s VALUES 1 1 b\n\
        1 do 1 VADD s VALUES 1 1 c\n\
        1 do 0,0 VRANDMEMBER s 2\n\
        1 do 2147483648,4294967295 VRANDMEMBER s -2\n\
        1 do 4294967295 VRANDMEMBER s\n\
        1 do - VRANDMEMBER s 0\n",
        b"\
        1 do :1\n\
        1 do :1\n\
        1 do :1\n\
        1 do *2 $1 a $1 b\n\
        1 do *2 $1 b $1 c\n\
        1 do $1 c\n\
        1 do *0\n",
    ),
    // A filtered search that tries one member alone, and one without a bound.
    (
        b"\
        actors 1\n\
        1 do 1 VADD s VALUES 1 1 a SETATTR {\"k\":1}\n\
        1 do 1 VADD s VALUES 1 1 b SETATTR {\"k\":2}\n\
        1 do - VSIM s VALUES 1 1 FILTER .k==2 FILTER-EF 1\n\
        1 do - VSIM s VALUES 1 1 FILTER .k==2 FILTER-EF 0\n",
        b"\
        1 do :1\n\
        1 do :1\n\
        1 do *0\n\
        1 do *1 $1 b\n",
    ),
    // A full set takes no new name, but a member once more.
    (
        b"\
        actors 1 4 4 16\n\
        1 do 1 VADD s VALUES 1 1 a\n\
        1 do 1 VADD s VALUES 1 1 b\n\
        1 do 1 VADD s VALUES 1 1 c\n\
        1 do 1 VADD s VALUES 1 1 d\n\
        1 do 1 VADD s VALUES 1 1 e\n\
        1 do 1 VADD s VALUES 1 -1 a\n",
        b"\
        1 do :1\n\
        1 do :1\n\
        1 do :1\n\
        1 do :1\n\
        1 do -ERR set is full with 4 members\n\
        1 do :0\n",
    ),
];

#[test]
fn requests_are_done_at_once(rt: HostRuntime) -> Result<(), Fail> {
    assert!(rt; are_printed(rt.alloc(), AT_ONCE)?);
    Ok(())
}
