// The task table of document 01: its types, with their constants and constructors. The definitions that every contract cites are in specs/.
#![tactic(auto)]

pub mod control;
pub mod event;
pub mod internal;
pub mod mutex;
pub mod scheduler;
pub mod semaphore;
pub mod wait_queue;
