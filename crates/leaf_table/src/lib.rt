// What the calls are made of. No calls.
#![tactic(auto)]

pub mod internal;
