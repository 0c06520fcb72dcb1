// What is proved of signed values, for the crates that print them. The crate has no code.
#![tactic(auto)]
