// The cases by number of document 01: what they state is in specs/, and their proofs are in proofs/.
#![tactic(auto)]
