//! Fields of attributes: what stands under a name in a JSON object, read in place.
#![tactic(auto)]

mod find;
mod kind;
mod law;
mod list;
mod number;
mod piece;
mod space;
mod text;
mod value;

pub use find::{field, is_object};
pub use kind::Field;
pub use law::json_is_what_is_derived;
pub use list::JsonList;
pub use text::JsonText;

#[cfg(test)]
mod tests;
