//! What the tests of whole stores share: a plain list of members, requests as words, and answers judged by the list. Nothing here calls a
//! store.
#![tactic(auto)]

mod fault;
mod hits;
mod links;
mod picks;
mod plain;
mod random;
mod refusals;
mod shown;
mod texts;

pub use fault::Fault;
pub use hits::{Sought, check_hits, nearest_text};
pub use links::{Linked, check_links, check_own_links};
pub use picks::{picked, picked_again};
pub use plain::{Member, Plain, count_attributes, count_of, greatest_level};
pub use random::Random;
pub use refusals::{KEYS, refusal_of_addition};
pub use shown::show;
pub use texts::{attribute_of, component_words, signs_of, words_for};
