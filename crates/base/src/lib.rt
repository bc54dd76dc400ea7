// Choices and counted loops, as specifications and proofs of every other crate cite them.
#![tactic(auto)]
