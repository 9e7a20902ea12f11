//! What an actor is at.
ghost use Rattle.std.specs.Prelude.{◌≡◌};
ghost use Rattle.vs_core.specs.Actors.{actor_seen, is_idle};

use vs_store::{Drafting, Looked, Ready};

/// Nothing, a search that has looked, or an addition that is drafted, or ready.
#[derive(Drop)]
pub(crate) enum Actor {
    Idle,
    Looking(Looked),
    Drafting(Drafting),
    Ready(Ready),
}

impl Actor {
    /// Whether it is at nothing.
    pub(crate) fn is_idle(&self) -> bool
        ensures { result ≡ is_idle (actor_seen self.now) }
    {
        matches!(self, Actor::Idle)
    }
}
