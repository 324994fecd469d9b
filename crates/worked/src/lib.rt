// Paper 01's cases 1 to 11 as one theorem, its share in hex, bad inputs with their numbers, and whole runs of the program: theorems over the
// definitions (proofs/), no function.
#![tactic(auto)]
