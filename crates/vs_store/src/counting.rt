//! Requests that change nothing and take no memory.
ghost use Rattle.std.specs.Prelude.{◌≡◌, ◌≢◌, [], Err, IfOk};
ghost use Rattle.vs_defs.specs.Answers.{Answers};
ghost use Rattle.vs_defs.specs.Request as request;
ghost use Rattle.vs_thread_defs.specs.Machine.{StoreDoes};
ghost use Rattle.vs_command.specs.Answers.{answer_of};
ghost use Rattle.vs_command.specs.Outcomes.{outcome_of};
ghost use Rattle.vs_command.specs.Scores.{HasScores};

use crate::Store;
use vs_command::{Answer, Refusal};
use vs_outside::Text;

impl Store {
    /// EXISTS. The keys are a `Vec`, whose length fits the answer.
    pub(crate) fn exists(&self, keys: &Vec<Text>) -> Answer
        ensures answers { Answers self.now (request.Exists keys.now.items) [] (answer_of result) }
        ensures scores { HasScores result }
    {
        let mut count: u64 = 0;
        for key in keys {
            if self.has_key(key.as_slice()) {
                count += 1;
            }
        }
        Answer::Int(count as i64)
    }

    /// VCARD.
    pub(crate) fn cardinality(&self, key: &[u8]) -> Answer
        ensures answers { Answers self.now (request.Vcard key.now) [] (answer_of result) }
        ensures scores { HasScores result }
    {
        match self.set_at(key) {
            Some(set) => Answer::Int(i64::from(set.count())),
            None => Answer::Int(0),
        }
    }

    /// VDIM.
    pub(crate) fn dimension(&self, key: &[u8]) -> Result<Answer, Refusal>
        ensures does { StoreDoes self.now (request.Vdim key.now) [] (outcome_of result) self.now }
        ensures scores { IfOk result HasScores }
        ensures memory { result ≢ Err Refusal.NoMemory }
    {
        match self.set_at(key) {
            Some(set) => Ok(Answer::Int(i64::from(set.dim()))),
            None => Err(Refusal::NoSuchKey),
        }
    }

    /// VISMEMBER.
    pub(crate) fn is_member(&self, key: &[u8], name: &[u8]) -> Answer
        ensures answers { Answers self.now (request.Vismember key.now name.now) [] (answer_of result) }
        ensures scores { HasScores result }
    {
        match self.set_at(key) {
            Some(set) if set.has(name) => Answer::Int(1),
            _ => Answer::Int(0),
        }
    }
}
