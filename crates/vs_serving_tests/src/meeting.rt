//! Two passes of one shared store, asked request by request: what one changed is what the other sees once they have met.
ghost use Rattle.std.specs.Prelude.{◌≡◌};

use crate::calls::answered;
use std::alloc::Global;
use std::marker::Brand;
use std::process::Abort;
use std::sync::Wait;
use std::test::*;
use std::thread::Threads;
use vs_command::Answer;
use vs_history::TableName;
use vs_pass::Pass;
use vs_shared::{Opened, Shared};
use vs_store::Limits;

// Whether the line is answered with this number.
fn is_answered_with<N: TableName, R: Threads + Wait + Abort + Sync>(
    rt: &R,
    alloc: Global,
    shared: &Shared<N>,
    pass: &mut Pass<N>,
    line: &str,
    number: i64,
) -> Result<bool, Fail> {
    match answered(rt, alloc, shared, pass, line)? {
        Ok(Answer::Int(answer)) => Ok(answer == number),
        _ => Ok(false),
    }
}

#[test]
fn a_pass_sees_what_another_changed(rt: HostRuntime) -> Result<(), Fail> {
    let opened = Opened::new(rt.alloc(), Limits::usual())?;
    met::<Brand, _>(&rt, rt.alloc(), opened)
}

fn met<N: TableName, R: Threads + Wait + Abort + Sync>(
    rt: &R,
    alloc: Global,
    opened: Opened,
) -> Result<(), Fail>
    requires { opened ≡ record { table = N.table; limits = N.limits } }
{
    let (shared, mut passes) = opened.named::<N>(alloc, 1, 1, 2)?;
    let mut second = passes.pop().ok_or("two passes")?;
    let mut first = passes.pop().ok_or("two passes")?;
    assert!(rt; is_answered_with(rt, alloc, &shared, &mut first, "VADD s VALUES 1 1 a", 1)?);
    assert!(rt; is_answered_with(rt, alloc, &shared, &mut first, "VCARD s", 1)?);
    shared.meet(&mut first, &mut second);
    assert_eq!(rt; first.known(), 1);
    assert_eq!(rt; second.known(), 1);
    assert!(rt; is_answered_with(rt, alloc, &shared, &mut second, "VCARD s", 1)?);
    shared.end(rt, first);
    shared.end(rt, second);
    Ok(())
}
