// The objects of a kernel as `tables` prints them.
#![tactic(auto)]

pub mod internal;
