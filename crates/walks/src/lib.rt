// Steps of proofs by hand about functions that hold slices of structs. They are in proofs/ and say nothing of what a
// caller computes. The crate has no code.
#![tactic(auto)]
