// The kit's names that proofs use, so that a file takes them from one place. The crate has no code.
#![tactic(auto)]
