// A kernel as `tables` prints it.
#![tactic(auto)]

pub mod internal;
