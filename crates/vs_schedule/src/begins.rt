//! The first line of a schedule, which names the actors and may name lesser limits.
ghost use Rattle.std.specs.Prelude.{◌≡◌, ◌∷◌, [], option_map, IfOk, IfSome};
ghost use Rattle.vs_store.specs.Kept.{AreUsual};
ghost use Rattle.vs_store.specs.Seen.{limits_seen};
ghost use Rattle.vs_thread_defs.specs.Schedule.{begins, line_by};
ghost use Rattle.vs_schedule.specs.Lines.{beginning_of, beginning_by, limits_named, HasUsualLimits};

use std::alloc::Global;
use vs_outside::{NoMemory, Text};
use vs_schedule_words::{line_words, number_within};
use vs_store::Limits;

/// What the first line that isn't empty means.
#[derive(Clone, Copy, Debug, PartialEq, Eq)]
pub(crate) enum Beginning {
    Blank,
    Bad,
    Begins { actors: u32, limits: Limits },
}

/// The most actors of a schedule.
const MAX_ACTORS: u32 = 64;

// The limits that three words name, each within the usual ones.
fn lesser_limits(set: &[u8], keys: &[u8], all: &[u8]) -> Option<Limits>
    ensures named { option_map limits_seen result ≡ limits_named set.now keys.now all.now }
    ensures usual { IfSome result (λ l. AreUsual (limits_seen l)) }
{
    let usual = Limits::usual();
    Some(Limits {
        set: number_within(1, usual.set, set)?,
        keys: number_within(1, usual.keys, keys)?,
        all: number_within(1, usual.all, all)?,
        changes: usual.changes,
    })
}

// Both numbers and limits must be read.
fn begun(actors: Option<u32>, limits: Option<Limits>) -> Beginning
    requires { IfSome limits (λ l. AreUsual (limits_seen l)) }
    ensures is { beginning_of result ≡ beginning_by actors (option_map limits_seen limits) }
    ensures limits { HasUsualLimits result }
{
    match (actors, limits) {
        (Some(actors), Some(limits)) => Beginning::Begins { actors, limits },
        _ => Beginning::Bad,
    }
}

fn begin_with_limits(name: &[u8], actors: &[u8], set: &[u8], keys: &[u8], all: &[u8]) -> Beginning
    ensures means { beginning_of result ≡ begins (name.now ∷ actors.now ∷ set.now ∷ keys.now ∷ all.now ∷ []) }
    ensures limits { HasUsualLimits result }
{
    if name != b"actors".as_slice() {
        return Beginning::Bad;
    }
    begun(
        number_within(1, MAX_ACTORS, actors),
        lesser_limits(set, keys, all),
    )
}

// What the words of the first line mean.
fn words_begin(words: &[Text]) -> Beginning
    ensures means { beginning_of result ≡ begins words.now }
    ensures limits { HasUsualLimits result }
{
    match words {
        [name, actors] if name.as_slice() == b"actors".as_slice() => begun(
            number_within(1, MAX_ACTORS, actors.as_slice()),
            Some(Limits::usual()),
        ),
        [name, actors, set, keys, all] => begin_with_limits(
            name.as_slice(),
            actors.as_slice(),
            set.as_slice(),
            keys.as_slice(),
            all.as_slice(),
        ),
        _ => Beginning::Bad,
    }
}

/// What a line means where no line before it had words.
pub(crate) fn read_beginning(alloc: Global, line: &[u8]) -> Result<Beginning, NoMemory>
    ensures means { IfOk result (λ meant. beginning_of meant ≡ line_by begins line.now) }
    ensures limits { IfOk result HasUsualLimits }
{
    if line.is_empty() {
        return Ok(Beginning::Blank);
    }
    match line_words(alloc, line)? {
        Some(words) => Ok(words_begin(words.as_slice())),
        None => Ok(Beginning::Bad),
    }
}
