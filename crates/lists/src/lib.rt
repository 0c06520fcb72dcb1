// What is said and proved of lists and of choices by a test, for the crates above. The crate has no code.
#![tactic(auto)]
