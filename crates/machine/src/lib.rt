// The plain machine of paper 01, "The runs of demand 3": definitions (specs/) and theorems about every list of steps (proofs/), no function.
#![tactic(auto)]
