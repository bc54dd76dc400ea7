// The rank of each slot (02, W-205). No call.
#![tactic(auto)]

pub mod internal;
