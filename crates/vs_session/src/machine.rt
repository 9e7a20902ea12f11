//! What carries requests out.
ghost use Rattle.std.specs.Prelude.{◌≡◌, ◌≢◌, ℕ, true, length, None, Err, IfOk};
ghost use Rattle.vs_defs.specs.Read.{draws as draws_of};
ghost use Rattle.vs_defs.specs.Bounds.{IsInBounds};
ghost use Rattle.vs_defs.specs.Memory.{needs_no_memory};
ghost use Rattle.vs_defs.specs.Reply as outcome;
ghost use Rattle.vs_command.specs.Outcomes.{outcome_of};
ghost use Rattle.vs_command.specs.Requests.{request_of};
ghost use Rattle.vs_command.specs.Scores.{HasScores};
ghost use Rattle.vs_reply.specs.Replies.{short_of};
ghost use Rattle.vs_connection.specs.Stage.{CallOn};
ghost use Rattle.vs_session.specs.Does.{Does};

use vs_command::{Answer, Refusal, Request};

/// Carries an author's requests out, one after another. Others may lengthen the history between two requests.
pub trait Machine {
    /// What is known of a history.
    ghost Known: { Type 0 };

    /// What a call of an author does to it.
    ghost call: { CallOn Known };

    /// It carries out this author's requests, and this is known of the history.
    ghost knows: { Self → ℕ → Known → Type 0 };

    /// Carries a request out at once. `words` are the drawn ones, as many as the request takes. A refusal, that of memory included,
    /// changes nothing, and neither does an answer with a reply that takes memory: so that reply may be refused.
    fn do_now(&mut self, request: Request, words: &[u32]) -> Result<Answer, Refusal>
        requires bounds { IsInBounds (request_of request) }
        requires words { length words.now ≡ draws_of (request_of request) }
        ensures does { (author : ℕ) (h : Known) → knows self.old author h
            → Does call author (knows self.new author) h (request_of request) words.now (outcome_of result) }
        ensures long { short_of result ≡ None → (author : ℕ) (h : Known) → knows self.old author h
            → Does call author (knows self.new author) h (request_of request) words.now outcome.OutOfMemory }
        ensures scores { IfOk result HasScores }
        ensures memory { needs_no_memory (request_of request) ≡ true → result ≢ Err Refusal.NoMemory }
        ensures short { needs_no_memory (request_of request) ≡ true → short_of result ≢ None };
}
