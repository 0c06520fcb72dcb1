// What holds of trees and searches, in proofs/: Theorems states what is for use.
#![tactic(auto)]
