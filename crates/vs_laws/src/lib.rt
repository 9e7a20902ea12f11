//! Laws in the library's words alone that several crates cite, each proved once. There is no code here.
#![tactic(auto)]
