//! A connection served alone, by a store of its own, or by a pass over a shared store.
#![tactic(auto)]

mod alone;
mod call;
mod finishing;
mod machine;
mod replies;
mod server;
mod shared;

pub use alone::serve_alone;
pub use call::call_shared;
pub use machine::Machine;
pub use server::Server;
pub use shared::serve_connection;
