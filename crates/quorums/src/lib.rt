// The mathematics of weights and quorums: definitions (specs/) and theorems (proofs/), no function.
#![tactic(auto)]
