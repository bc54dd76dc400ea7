// The records of a list call as `tables` prints them.
#![tactic(auto)]

pub mod internal;
