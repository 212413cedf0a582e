// Runs of calls, and what the table holds after them: what is stated is in specs/, and the proofs are in proofs/.
#![tactic(auto)]
