//! What comes of beginning an addition with CAS.
use vs_command::Answer;
use vs_store::Drafting;

/// An addition that was drafted, and is to be prepared and committed, or the answer where it was done at once.
#[derive(Drop)]
pub enum Begun {
    Drafted(Drafting),
    Done(Answer),
}
