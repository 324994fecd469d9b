// Runs of the plain machine by computation, and wrong stores that come close, each with a list of steps that shows it wrong (specs/, proofs/); no function.
#![tactic(auto)]
