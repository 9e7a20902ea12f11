//! Events of actors, and what comes of them.
ghost use Rattle.std.specs.Prelude.{◌≡◌};
ghost use Rattle.vs_thread_defs.specs.Interleaving.{actor_of};
ghost use Rattle.vs_core.specs.Events.{event_of};

use vs_bits::Add;
use vs_command::{Answer, Refusal, Request, Search};
use vs_outside::List;

/// One atomic step of an actor; actors are numbered from 1. `Do` carries a request out at once; a search looks, and is answered at its
/// finish; an addition with CAS is drafted, prepared and committed.
#[derive(Drop)]
pub enum Event {
    Do {
        actor: u32,
        request: Request,
        words: List<u32>,
    },
    Look {
        actor: u32,
        search: Search,
    },
    Finish {
        actor: u32,
    },
    Draft {
        actor: u32,
        add: Add,
        word: u32,
    },
    Prepare {
        actor: u32,
    },
    Commit {
        actor: u32,
    },
}

impl Event {
    /// The number of its actor.
    pub fn actor(&self) -> u32
        ensures { result ≡ actor_of (event_of self.now) }
    {
        match self {
            Event::Do { actor, .. }
            | Event::Look { actor, .. }
            | Event::Finish { actor }
            | Event::Draft { actor, .. }
            | Event::Prepare { actor }
            | Event::Commit { actor } => *actor,
        }
    }
}

/// What comes of a step. `Direct`: the addition can't be drafted, and is to be done at once. `Redone`: a stale commit did its request again;
/// `cut_now` is the set's cut as it was then, 0 where the key was gone, and `taken` whether the name was a member.
#[derive(Drop)]
pub enum StepOutcome {
    Answered(Answer),
    Looked,
    Drafted,
    Direct,
    Ready,
    Redone {
        cut_now: u64,
        taken: bool,
        answer: Result<Answer, Refusal>,
    },
    Refused(Refusal),
}

/// Why there was no step: no actor has the number, or it is at something else than the event needs.
#[derive(Clone, Copy, Debug, PartialEq, Eq)]
pub enum StepError {
    NoSuchActor,
    ActorBusy,
    ActorIdle,
}
