//! The tokens of a filter's text.

use crate::operator::Operator;
use vs_outside::Text;

#[derive(Drop)]
pub enum Token<'a> {
    Open,
    Close,
    OpenList,
    CloseList,
    Comma,
    Minus,
    Not,
    /// An operator other than `-`.
    Between(Operator),
    Numeral(&'a [u8]),
    /// A text without its marks, each escape replaced by the byte that it stands for.
    Quoted(Text),
    Truth(bool),
    /// The name of a field, without its point.
    Selector(&'a [u8]),
    /// No token begins here.
    Bad,
    End,
}

/// A token and the offset of its first byte.
#[derive(Drop)]
pub struct Placed<'a> {
    pub at: u32,
    pub token: Token<'a>,
}
