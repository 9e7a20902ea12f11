//! Additions by one pass, and how long their holds of the lock are.
ghost use Rattle.vs_defs.specs.Bounds.{IsInBounds};
ghost use Rattle.vs_command.specs.Requests.{request_of};

use crate::case::{Additions, Case, Way};
use crate::counting::Worker;
use crate::drawing::Drawn;
use crate::error::MeasureError;
use crate::holding::{add_at_once, add_in_steps, now};
use crate::requests::card;
use crate::times::Times;
use std::alloc::Global;
use std::sync::Wait;
use std::time::CpuClock;
use vs_command::{Answer, Request};
use vs_history::TableName;
use vs_pass::Pass;
use vs_shared::Shared;
use vs_slot::Slot;

/// The times of the holds, and of the preparations between them.
#[derive(Clone, Copy, Debug, PartialEq, Eq)]
struct Holds {
    now: Times,
    draft: Times,
    prepare: Times,
    commit: Times,
}

impl Holds {
    /// Of no addition.
    fn new() -> Holds {
        Holds {
            now: Times::new(),
            draft: Times::new(),
            prepare: Times::new(),
            commit: Times::new(),
        }
    }
}

/// Adds a member and notes how long the steps took.
fn add<N: TableName, R: Wait + CpuClock>(
    rt: &R,
    shared: &Shared<N>,
    pass: &mut Pass<N>,
    request: &Request,
    word: u32,
    slot: &mut Slot,
    holds: &mut Holds,
) -> anyhow::Result<()>
    requires { IsInBounds (request_of request.now) }
{
    match request {
        Request::Vadd(add) if add.cas => {
            let spans = add_in_steps(rt, shared, pass, request, word, slot)?;
            holds.draft.note(spans.draft);
            holds.prepare.note(spans.prepare);
            holds.commit.note(spans.commit);
        }
        _ => {
            let nanos = add_at_once(rt, shared, pass, request, word, slot)?;
            holds.now.note(nanos);
        }
    }
    Ok(())
}

/// Adds the members that are drawn next, and answers how long the steps took.
fn add_each<N: TableName, R: Wait + CpuClock>(
    rt: &R,
    alloc: Global,
    shared: &Shared<N>,
    pass: &mut Pass<N>,
    case: &Case,
    drawn: &mut Drawn,
    additions: Additions,
) -> anyhow::Result<Holds> {
    let mut holds = Holds::new();
    let mut slot = shared.take_slot(rt)?;
    for _ in 0..additions.members {
        let word = drawn.word(additions.level);
        let request = drawn.addition(alloc, case, additions.way)?;
        add(rt, shared, pass, &request, word, &mut slot, &mut holds)?;
    }
    shared.give_slot(rt, slot);
    Ok(holds)
}

/// How many members there are.
fn count_of<N: TableName, R: Wait>(
    rt: &R,
    alloc: Global,
    shared: &Shared<N>,
    pass: &mut Pass<N>,
) -> anyhow::Result<i64> {
    let mut slot = shared.take_slot(rt)?;
    let answer = now(rt, shared, pass, &card(alloc)?, &[], &mut slot)?;
    shared.give_slot(rt, slot);
    match answer {
        Answer::Int(count) => Ok(count),
        _ => Err(MeasureError::Refused.into()),
    }
}

fn print_holds<R: Eprint>(rt: &R, way: Way, holds: &Holds) -> anyhow::Result<()> {
    match way {
        Way::Now => eprintln!(rt; "now {}", holds.now)?,
        Way::Draft => {
            eprintln!(rt; "draft {}", holds.draft)?;
            eprintln!(rt; "prepare {}", holds.prepare)?;
            eprintln!(rt; "commit {}", holds.commit)?;
        }
    }
    Ok(())
}

/// Adds members, and prints how many there are then, and how long the steps took.
pub fn add_all<N: TableName, R: Print + Eprint + Wait + CpuClock>(
    rt: &R,
    alloc: Global,
    shared: &Shared<N>,
    worker: Option<&mut Worker<N>>,
    case: &Case,
    drawn: &mut Drawn,
    additions: Additions,
) -> anyhow::Result<()> {
    let Some(worker) = worker else {
        return Ok(());
    };
    let pass = &mut worker.pass;
    let holds = add_each(rt, alloc, shared, pass, case, drawn, additions)?;
    let count = count_of(rt, alloc, shared, pass)?;
    println!(rt; "{count} members")?;
    print_holds(rt, additions.way, &holds)
}
