//! Schedules in which searches and additions are split into their events, with texts that were worked out by hand.
use crate::ran::{Worked, are_printed, gives};
use std::alloc::Global;
use std::test::Fail;
use vs_outside::{NoMemory, Text};
use vs_schedule::ScheduleEnd;

const SPLIT: &[Worked] = &[
    // Errors of actors, and an addition on an absent key, which can't be drafted.
    (
        b"\
        actors 2\n\
        1 finish\n\
        3 do - PING\n\
        2 draft 1 VADD z VALUES 1 1 b CAS\n\
        1 do 1 VADD s VALUES 1 1 a\n\
        1 draft 1 VADD s VALUES 1 1 b CAS\n\
        1 do - PING\n",
        b"\
        1 finish actor idle\n\
        3 do no such actor\n\
        2 draft direct\n\
        1 do :1\n\
        1 draft drafted\n\
        1 do actor busy\n",
    ),
    // A search answers in the set as it was at its look.
    (
        b"\
        actors 2\n\
        1 do 1 VADD s VALUES 2 1 1 a\n\
        1 do 1 VADD s VALUES 2 1 -1 b\n\
        1 look VSIM s VALUES 2 1 1\n\
        2 do - VREM s a\n\
        1 finish\n\
        2 do - VSIM s VALUES 2 1 1\n",
        b"\
        1 do :1\n\
        1 do :1\n\
        1 look looked\n\
        2 do :1\n\
        1 finish *2 $1 a $1 b\n\
        2 do *1 $1 b\n",
    ),
    // A member that was removed between draft and commit.
    (
        b"\
        actors 2\n\
        1 do 1 VADD s VALUES 2 1 1 a\n\
        1 do 1 VADD s VALUES 2 1 -1 b\n\
        1 draft 1 VADD s VALUES 2 -1 1 c CAS\n\
        2 do - VREM s b\n\
        1 prepare\n\
        1 commit\n",
        b"\
        1 do :1\n\
        1 do :1\n\
        1 draft drafted\n\
        2 do :1\n\
        1 prepare ready\n\
        1 commit stale 3 0 :1\n",
    ),
    // Two drafts that both commit; a third whose name is taken meanwhile.
    (
        b"\
        actors 2\n\
        1 do 1 VADD s VALUES 2 1 1 a\n\
        1 draft 1 VADD s VALUES 2 -1 1 c CAS\n\
        2 draft 1 VADD s VALUES 2 -1 -1 d CAS\n\
        1 prepare\n\
        2 prepare\n\
        2 commit\n\
        1 commit\n\
        2 draft 1 VADD s VALUES 2 1 -1 e CAS\n\
        1 do 1 VADD s VALUES 2 1 -1 e\n\
        2 prepare\n\
        2 commit\n",
        b"\
        1 do :1\n\
        1 draft drafted\n\
        2 draft drafted\n\
        1 prepare ready\n\
        2 prepare ready\n\
        2 commit :1\n\
        1 commit :1\n\
        2 draft drafted\n\
        1 do :1\n\
        2 prepare ready\n\
        2 commit stale 1 1 :0\n",
    ),
];

#[test]
fn events_are_answered_where_they_belong(rt: HostRuntime) -> Result<(), Fail> {
    assert!(rt; are_printed(rt.alloc(), SPLIT)?);
    Ok(())
}

// The errors of an actor come before the refusal of words, whatever the actor is at; a refused commit leaves it idle.
const ERRORS: &[Worked] = &[
    (
        b"\
        actors 1\n\
        1 do - NOTHING\n\
        1 look NOTHING\n\
        1 draft 1 NOTHING\n\
        0 do - NOTHING\n\
        2 look NOTHING\n\
        4294967295 draft 1 NOTHING\n",
        b"\
        1 do -ERR unknown command\n\
        1 look -ERR unknown command\n\
        1 draft -ERR unknown command\n\
        0 do no such actor\n\
        2 look no such actor\n\
        4294967295 draft no such actor\n",
    ),
    (
        b"\
        actors 1\n\
        1 do 1 VADD s VALUES 1 1 a\n\
        1 look VSIM s ELE a\n\
        1 do - NOTHING\n\
        1 look NOTHING\n\
        1 prepare\n\
        1 commit\n\
        1 finish\n\
        1 finish\n\
        1 draft 1 VADD s VALUES 1 1 b CAS\n\
        1 draft 1 NOTHING\n\
        1 finish\n\
        1 commit\n\
        1 prepare\n\
        1 do - NOTHING\n\
        1 prepare\n\
        1 commit\n\
        1 commit\n",
        b"\
        1 do :1\n\
        1 look looked\n\
        1 do actor busy\n\
        1 look actor busy\n\
        1 prepare actor idle\n\
        1 commit actor idle\n\
        1 finish *1 $1 a\n\
        1 finish actor idle\n\
        1 draft drafted\n\
        1 draft actor busy\n\
        1 finish actor idle\n\
        1 commit actor idle\n\
        1 prepare ready\n\
        1 do actor busy\n\
        1 prepare actor idle\n\
        1 commit :1\n\
        1 commit actor idle\n",
    ),
    (
        b"\
        actors 2 2 4 16\n\
        1 do 1 VADD s VALUES 1 1 a\n\
        1 draft 1 VADD s VALUES 1 1 b CAS\n\
        1 prepare\n\
        2 do 1 VADD s VALUES 1 1 c\n\
        1 commit\n\
        1 commit\n\
        1 do - PING\n\
        1 draft 1 VADD s VALUES 2 1 1 d CAS\n\
        1 look VSIM s ELE x\n\
        1 do - VCARD s\n",
        b"\
        1 do :1\n\
        1 draft drafted\n\
        1 prepare ready\n\
        2 do :1\n\
        1 commit -ERR set is full with 2 members\n\
        1 commit actor idle\n\
        1 do +PONG\n\
        1 draft -ERR vector has 2 components, the set has 1\n\
        1 look -ERR no such element\n\
        1 do :2\n",
    ),
];

#[test]
fn errors_of_an_actor_come_first(rt: HostRuntime) -> Result<(), Fail> {
    assert!(rt; are_printed(rt.alloc(), ERRORS)?);
    Ok(())
}

/// What an actor does while another's addition is drafted: its lines, what they print, and what the commit prints.
struct Meanwhile {
    first: &'static [u8],
    lines: &'static [u8],
    printed: &'static [u8],
    committed: &'static [u8],
}

const MEANWHILE: &[Meanwhile] = &[
    // The member that is there is replaced.
    Meanwhile {
        first: b"actors 2\n",
        lines: b"2 do 1 VADD s VALUES 2 -1 -1 a\n",
        printed: b"2 do :0\n",
        committed: b"stale 2 0 :1\n",
    },
    // The key goes.
    Meanwhile {
        first: b"actors 2\n",
        lines: b"2 do - DEL s\n",
        printed: b"2 do :1\n",
        committed: b"stale 0 0 :1\n",
    },
    // The key goes and comes again.
    Meanwhile {
        first: b"actors 2\n",
        lines: b"2 do - DEL s\n2 do 1 VADD s VALUES 2 1 1 a\n",
        printed: b"2 do :1\n2 do :1\n",
        committed: b"stale 3 0 :1\n",
    },
    // It comes again with another dimension.
    Meanwhile {
        first: b"actors 2\n",
        lines: b"2 do - DEL s\n2 do 1 VADD s VALUES 3 1 1 1 a\n",
        printed: b"2 do :1\n2 do :1\n",
        committed: b"stale 3 0 -ERR vector has 2 components, the set has 3\n",
    },
    // An attribute is set, which changes no link.
    Meanwhile {
        first: b"actors 2\n",
        lines: b"2 do - VSETATTR s a x\n",
        printed: b"2 do :1\n",
        committed: b":1\n",
    },
    // The name is taken.
    Meanwhile {
        first: b"actors 2\n",
        lines: b"2 do 1 VADD s VALUES 2 -1 1 c\n",
        printed: b"2 do :1\n",
        committed: b"stale 1 1 :0\n",
    },
    // The set is full.
    Meanwhile {
        first: b"actors 2 2 4 16\n",
        lines: b"2 do 1 VADD s VALUES 2 1 -1 d\n",
        printed: b"2 do :1\n",
        committed: b"-ERR set is full with 2 members\n",
    },
];

// The whole schedule.
fn schedule(alloc: Global, case: &Meanwhile) -> Result<Text, NoMemory> {
    let mut input = Text::from_slice(alloc, case.first)?;
    input.extend_from_slice(b"1 do 1 VADD s VALUES 2 1 1 a\n")?;
    input.extend_from_slice(b"1 draft 1 VADD s VALUES 2 -1 1 c CAS\n")?;
    input.extend_from_slice(case.lines)?;
    input.extend_from_slice(b"1 prepare\n1 commit\n")?;
    Ok(input)
}

// What it prints.
fn printed(alloc: Global, case: &Meanwhile) -> Result<Text, NoMemory> {
    let mut output = Text::from_slice(alloc, b"1 do :1\n1 draft drafted\n")?;
    output.extend_from_slice(case.printed)?;
    output.extend_from_slice(b"1 prepare ready\n1 commit ")?;
    output.extend_from_slice(case.committed)?;
    Ok(output)
}

#[test]
fn a_commit_sees_what_came_between(rt: HostRuntime) -> Result<(), Fail> {
    let alloc = rt.alloc();
    for case in MEANWHILE {
        let input = schedule(alloc, case)?;
        let output = printed(alloc, case)?;
        assert!(rt; gives(alloc, &input, ScheduleEnd::Ended, output.as_slice())?);
    }
    Ok(())
}
