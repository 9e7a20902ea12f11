//! Why a request is refused.
ghost use Rattle.std.specs.Prelude.{◌≡◌};

use vs_outside::NoMemory;

/// A cause of refusal, or want of memory.
///
/// `at` counts the words of the message from 0, the command being word 0; the causes of a filter alone count the bytes
/// of its text. `len` counts bytes. The first causes, up to `Raw`, lie in the words of a request; the others lie in the
/// store that it meets.
#[derive(Clone, Copy, Debug, PartialEq, Eq)]
pub enum Refusal {
    UnknownCommand,
    WrongArity,
    BadKey { len: u32 },
    BadVectorForm { at: u32 },
    Fp32,
    Reduce,
    BadDimension { at: u32 },
    ShortVector { want: u32, have: u32 },
    BadComponent { at: u32 },
    BadName { len: u32 },
    UnknownOption { at: u32 },
    MissingValue { at: u32 },
    Quantiser { at: u32 },
    BadEf { at: u32 },
    BadM { at: u32 },
    LongAttribute { len: u32 },
    BadCount { at: u32 },
    Epsilon { at: u32 },
    BadFilterEf { at: u32 },
    LongFilter { len: u32 },
    FilterSyntax { at: u32 },
    FilterTooDeep { at: u32 },
    Raw,
    NoSuchKey,
    NoSuchElement,
    WrongDimension { given: u32, has: u32 },
    WrongM { given: u16, has: u16 },
    FullSet { members: u32 },
    FullKeys { keys: u32 },
    FullAll { members: u32 },
    ChangeLimit { changes: u64 },
    NoMemory,
}

impl From<NoMemory> for Refusal {
    ghost use Rattle.vs_command.specs.declared.refusal.Refusal.TheVariants.{NoMemory as OutOfMemory};

    ghost from_gives = { λ _ e. e ≡ OutOfMemory };

    fn from(_error: NoMemory) -> Refusal {
        Refusal::NoMemory
    }
}
