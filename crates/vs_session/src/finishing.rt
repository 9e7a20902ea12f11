//! How a search with TRUTH is answered once it has looked: as a trait, so that a connection's server can hold what its threads need.
ghost use Rattle.std.specs.Prelude.{◌≡◌, true, IfOk};
ghost use Rattle.vs_defs.specs.Answers.{FindsOf};
ghost use Rattle.vs_command.specs.Answers.{answer_of};
ghost use Rattle.vs_command.specs.Scores.{HasScores};

use std::sync::Wait;
use std::thread::Threads;
use vs_command::Answer;
use vs_outside::NoMemory;
use vs_store::{Looked, Store};

/// What answers searches with TRUTH.
pub(crate) trait Finishing {
    /// What it needs, which its owner knows.
    ghost ready: { Self → Type 0 };

    fn finish(&self, looked: Looked) -> Result<Answer, NoMemory>
        requires ready { ready self.now }
        requires truth { looked.search.truth ≡ true }
        ensures found { IfOk result (λ answer. FindsOf looked.search looked.set (answer_of answer)) }
        ensures scores { IfOk result HasScores };
}

/// By several threads, where the set has many members.
impl<R: Threads + Wait + Sync> Finishing for R {
    ghost use Rattle.vs_session.specs.Threads.{IsSharable};

    ghost ready = { λ _. IsSharable R.row };

    #[tactic(auto, using(crate::proofs::Sharing::syncs))]
    fn finish(&self, looked: Looked) -> Result<Answer, NoMemory> {
        Store::finish_wide(self, looked)
    }
}
