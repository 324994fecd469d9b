// Runs of the program (paper 01, "The runs of demand 3"): definitions (specs/), the simulation by the plain machine, and demand 3 (proofs/), no function.
#![tactic(auto)]
