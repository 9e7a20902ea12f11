//! The facts of a set.
ghost use Rattle.std.specs.Prelude.{◌≡◌, ◌<◌, Some, length, IfOk};
ghost use Rattle.vs_defs.specs.Answers.{info_answer};
ghost use Rattle.vs_command.specs.Answers.{answer_of};

use vs_command::{Answer, Info};
use vs_graph::Nodes;
use vs_outside::NoMemory;
use vs_set::Set;

/// What VINFO answers: M, the dimension, how many members, the level of the entry, and how many members have an attribute. It goes through
/// none of them.
pub fn info<N: Nodes>(set: &Set<N>) -> Result<Answer, NoMemory>
    requires { 0 < length set.now.contents.members }
    ensures { IfOk result (λ answer. answer_of answer ≡ info_answer (Some set.now)) }
{
    let snap = set.snapshot()?;
    Ok(Answer::Info(Info {
        m: set.m(),
        dim: set.dim(),
        size: set.count(),
        max_level: snap.top(),
        attributes: set.attribute_count(),
    }))
}
