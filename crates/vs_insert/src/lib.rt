//! How a member is added: drafts, which choose whom it is linked to in a graph as it was, and commits, which link it without a search. And
//! how one is taken out, with those joined again that it leaves alone.
#![tactic(auto)]

mod choosing;
mod committing;
mod draft;
mod highest;
mod joining;
mod laws;
mod preparing;
mod relinking;
mod removing;

pub use committing::commit;
pub use draft::{Chosen, Draft};
pub use highest::highest_but;
pub use laws::{
    a_choice_has_few_different_members_of_each_layer, a_member_added_again_keeps_its_place,
    members_found_by_name_may_be_linked_to,
};
pub use preparing::prepare;
pub use relinking::relink;
pub use removing::without;
