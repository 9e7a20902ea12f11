//! Connections that a gate holds at a place of one request while another is answered. A server that serves one after the other waits in
//! vain, and fails.
ghost use Rattle.std.specs.Prelude.{◌≡◌};

use crate::holding::Holding;
use crate::serving::is_answered;
use std::alloc::Global;
use std::marker::Brand;
use std::process::Abort;
use std::sync::Wait;
use std::test::*;
use std::thread;
use std::thread::Threads;
use vs_history::TableName;
use vs_outside::{NoGate, Place};
use vs_pass::Pass;
use vs_shared::Opened;
use vs_store::Limits;

/// Lines, and their replies.
type Exchange = (&'static [u8], &'static [u8]);

/// What two passes are asked over a set with two members.
#[derive(Clone, Copy)]
struct Scene {
    place: Place,
    held: Exchange,
    other: Exchange,
}

const BEGUN: Exchange = (
    b"VADD s VALUES 3 1 1 1 a\r\nVADD s VALUES 3 -1 -1 -1 b\r\n",
    b":1\r\n:1\r\n",
);

/// One connection is held, and another is served from the first to the last message meanwhile.
fn is_held<N: TableName + Send + Sync, R: Threads + Wait + Abort + Sync>(
    rt: &R,
    alloc: Global,
    opened: Opened,
    scene: Scene,
) -> Result<(), Fail>
    requires { opened ≡ record { table = N.table; limits = N.limits } }
{
    let (shared, mut passes) = opened.named::<N>(alloc, 1, 2, 2)?;
    let all = &shared;
    for pass in passes.iter_mut().take(1) {
        assert!(rt; is_answered(rt, alloc, all, pass, BEGUN.0, BEGUN.1, &NoGate));
    }
    let gate = Holding::new(scene.place, 2);
    thread::for_each_mut(
        rt,
        passes.as_mut_slice(),
        2,
        &|place, pass: &mut Pass<N>| {
            if place == 0 {
                let (lines, replies) = scene.held;
                assert!(rt; is_answered(rt, alloc, all, pass, lines, replies, &gate));
            } else {
                assert!(rt; gate.is_reached_by(1));
                let (lines, replies) = scene.other;
                assert!(rt; is_answered(rt, alloc, all, pass, lines, replies, &NoGate));
                gate.let_go();
            }
        },
    );
    assert!(rt; gate.held());
    Ok(())
}

#[test]
fn a_search_is_held_while_a_member_is_added(rt: HostRuntime) -> Result<(), Fail> {
    let opened = Opened::new(rt.alloc(), Limits::usual())?;
    // The search is answered in the set at its look, and what follows it in the set as it is.
    let scene = Scene {
        place: Place::Looked,
        held: (
            b"VSIM s VALUES 3 1 1 1\r\nVCARD s\r\n",
            b"*2\r\n$1\r\na\r\n$1\r\nb\r\n:3\r\n",
        ),
        other: (b"VADD s VALUES 3 1 1 1 A\r\n", b":1\r\n"),
    };
    is_held::<Brand, _>(&rt, rt.alloc(), opened, scene)
}

#[test]
fn an_addition_is_held_while_a_member_is_added(rt: HostRuntime) -> Result<(), Fail> {
    let opened = Opened::new(rt.alloc(), Limits::usual())?;
    let scene = Scene {
        place: Place::Drafted,
        held: (
            b"VADD s VALUES 3 1 1 -1 c CAS\r\nVCARD s\r\n",
            b":1\r\n:4\r\n",
        ),
        other: (b"VADD s VALUES 3 1 -1 1 d\r\n", b":1\r\n"),
    };
    is_held::<Brand, _>(&rt, rt.alloc(), opened, scene)
}

#[test]
fn two_changes_wait_for_each_other(rt: HostRuntime) -> Result<(), Fail> {
    let opened = Opened::new(rt.alloc(), Limits::usual())?;
    wait_for_each_other::<Brand, _>(&rt, rt.alloc(), opened)
}

fn wait_for_each_other<N: TableName + Send + Sync, R: Threads + Wait + Abort + Sync>(
    rt: &R,
    alloc: Global,
    opened: Opened,
) -> Result<(), Fail>
    requires { opened ≡ record { table = N.table; limits = N.limits } }
{
    let (shared, mut passes) = opened.named::<N>(alloc, 1, 2, 2)?;
    let all = &shared;
    let gate = Holding::new(Place::Committed, 2);
    thread::for_each_mut(
        rt,
        passes.as_mut_slice(),
        2,
        &|place, pass: &mut Pass<N>| {
            let lines = [
                b"VADD s VALUES 3 1 1 1 a\r\n".as_slice(),
                b"VADD s VALUES 3 1 1 -1 b\r\n".as_slice(),
            ][place % 2];
            assert!(rt; is_answered(rt, alloc, all, pass, lines, b":1\r\n", &gate));
        },
    );
    assert!(rt; gate.held());
    Ok(())
}
