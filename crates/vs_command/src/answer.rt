//! What an accepted request is answered.
use vs_outside::{List, Text};

/// A member in an answer, with the number of bits in which it differs from the asked one, and its attribute where that
/// was asked for and is there.
#[derive(Drop)]
pub struct NamedHit {
    pub name: Text,
    pub dist: u32,
    pub attr: Option<Text>,
}

/// What VINFO tells of a set. `max_level` is the level of the graph's entry, and `attributes` the number of members with
/// an attribute.
#[derive(Clone, Copy, Debug, PartialEq, Eq)]
pub struct Info {
    pub m: u16,
    pub dim: u32,
    pub size: u32,
    pub max_level: u8,
    pub attributes: u32,
}

/// `dim` is the dimension of the set, by which the distances become scores; `scores` and `attrs` say what is shown of a
/// hit. The first of `layers` is the member's own level, and the last is layer 0.
#[derive(Drop)]
pub enum Answer {
    Int(i64),
    Pong,
    Bye,
    Bulk(Text),
    NullText,
    NullList,
    Names(List<Text>),
    Signs(List<bool>),
    Hits {
        dim: u32,
        scores: bool,
        attrs: bool,
        hits: List<NamedHit>,
    },
    Layers {
        dim: u32,
        scores: bool,
        layers: List<List<NamedHit>>,
    },
    Info(Info),
}
