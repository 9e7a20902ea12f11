//! The words of a schedule's lines and the lines that are printed: bytes in, numbers and texts out, with no store.
#![tactic(auto)]

mod cut;
mod drawn;
mod number;
mod print;
mod verb;
mod words;

pub use cut::{is_too_long, take_line};
pub use drawn::drawn_words;
pub use number::{number_within, word_number};
pub use print::{push_bad_line, push_decimal, push_in_one_line, push_result};
pub use verb::Verb;
pub use words::line_words;
