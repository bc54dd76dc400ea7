// What release and signal share. No calls.
#![tactic(auto)]

pub mod internal;
