//! What is wrong with an answer.
use vs_outside::NoMemory;

/// Why an answer isn't one that the list allows, or `NoMemory` where it couldn't be judged.
#[derive(Clone, Copy, Debug, PartialEq, Eq)]
pub enum Fault {
    NoMemory,
    /// A name that isn't one letter.
    LongName,
    /// A hit or a link that is no member of the set.
    NoMember,
    /// A hit whose attribute doesn't pass the filter.
    NotPassing,
    WrongDistance,
    WrongAttribute,
    /// More hits than COUNT.
    TooManyHits,
    /// No hit, though all members pass.
    NoHit,
    /// Two hits that aren't in the order by distance, then name.
    OutOfOrder,
    /// Another number of layers than that of the level.
    WrongLayers,
    LinkToItself,
    /// A link to a member that isn't at the layer.
    LinkAboveLevel,
    /// More links than M, or 2M at layer 0.
    TooManyLinks,
    /// A member without a link, though another is at the layer.
    Alone,
    /// A link that isn't there from its other end.
    OneWay,
}

impl From<NoMemory> for Fault {
    fn from(_error: NoMemory) -> Fault {
        Fault::NoMemory
    }
}

/// This fault, where something doesn't hold.
pub(crate) fn ensure(holds: bool, fault: Fault) -> Result<(), Fault> {
    if holds { Ok(()) } else { Err(fault) }
}
