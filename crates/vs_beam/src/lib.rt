//! Search of a layered graph: the greedy descent from the entry, and the beam at one layer.
#![tactic(auto)]

mod answer;
mod descent;
mod layer_search;
mod looking;
mod search;
mod steps_nearer;

pub use answer::Beam;
pub use descent::{Descent, descend};
pub use layer_search::beam;
