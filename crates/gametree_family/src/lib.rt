// What holds of searches made of null-window tests beyond what a call needs, in proofs/: Theorems states what is for
// use.
#![tactic(auto)]
