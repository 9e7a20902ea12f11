//! Why a store refuses an addition, by the plain list.
use crate::plain::{Member, Plain};
use vs_command::Refusal;
use vs_store::Limits;

/// The keys that the tests use.
pub const KEYS: [u8; 4] = *b"klmn";

/// Why a key isn't added.
fn refusal_of_key(plain: &Plain, limits: Limits) -> Option<Refusal> {
    let keys = plain.count_keys(&KEYS);
    if keys >= limits.keys {
        return Some(Refusal::FullKeys { keys });
    }
    refusal_of_one_more(plain, limits)
}

/// Why there is no room for one member more in all.
fn refusal_of_one_more(plain: &Plain, limits: Limits) -> Option<Refusal> {
    let members = plain.count_all();
    (members >= limits.all).then_some(Refusal::FullAll { members })
}

/// Why a new name isn't added to a set that suits it.
fn refusal_of_name(plain: &Plain, limits: Limits, key: u8) -> Option<Refusal> {
    let members = plain.count(key);
    if members >= limits.set {
        return Some(Refusal::FullSet { members });
    }
    refusal_of_one_more(plain, limits)
}

/// Why an addition is refused: its member, and the M that it names. The number of changes is left out.
pub fn refusal_of_addition(
    plain: &Plain,
    limits: Limits,
    member: &Member,
    m: Option<u16>,
) -> Option<Refusal> {
    let Some(first) = plain.first_of(member.key) else {
        return refusal_of_key(plain, limits);
    };
    if first.dim != member.dim {
        return Some(Refusal::WrongDimension {
            given: member.dim,
            has: first.dim,
        });
    }
    match m {
        Some(m) if m != first.m => Some(Refusal::WrongM {
            given: m,
            has: first.m,
        }),
        _ if plain.has(member.key, member.name) => None,
        _ => refusal_of_name(plain, limits, member.key),
    }
}
