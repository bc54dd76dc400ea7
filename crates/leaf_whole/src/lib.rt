// Whether a kernel is whole, which every call asks first.
#![tactic(auto)]

pub mod internal;
