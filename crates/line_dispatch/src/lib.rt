// A frame of the notation of `turns` or `tables`, played on a kernel. No calls: what is here asks something of its caller.
#![tactic(auto)]

pub mod internal;
