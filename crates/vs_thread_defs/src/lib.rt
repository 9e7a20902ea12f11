//! The definitions of what several threads do to one store with links: the machine of histories, actors and their events, drafts, the
//! passes of a store that is shared, the rule on its one atomic word, schedules, and generated members. No crate below the store cites
//! them. The one function has no code: its contract is the law that the machine rests on.
#![tactic(auto)]

ghost use Rattle.vs_thread_defs.specs.Laws.{DraftKeepsChosen};

/// The law of drafts: over every legal history, a draft that isn't stale finds the dimension and M of its set as they were, and
/// each member that was chosen with the bits and the level that it had.
///
/// The call does nothing: its clause is what it is for.
pub fn draft_laws()
    ensures keeps_chosen { DraftKeepsChosen }
{}
