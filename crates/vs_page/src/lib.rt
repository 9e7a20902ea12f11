//! Maps from ids to items that lie in pages of 16, which copies of the map share until a change touches them.
#![tactic(auto)]

mod chunk;
mod copied;
mod draining;
mod opening;
mod page_list;
mod page_map;
mod page_nodes;
mod page_words;
mod placing;
mod reading;
#[cfg(test)]
mod row_tests;
mod rows;
mod shared_list;
#[cfg(test)]
mod tests;

pub use copied::Copied;
pub use page_list::PageList;
pub use page_map::{Change, PageMap};
pub use page_nodes::PageNodes;
pub use rows::{Rows, Run};
