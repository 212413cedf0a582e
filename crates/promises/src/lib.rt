// What each public entry promises, and the laws of those promises: what they state is in specs/, and their proofs are in proofs/.
#![tactic(auto)]
