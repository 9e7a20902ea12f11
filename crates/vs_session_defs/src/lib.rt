//! The definitions of a connection and of the words that it draws from its generator. There is no code here.
#![tactic(auto)]
