// What the reader doesn't know in a map changes nothing: the theorems are in specs/Demand.antt, their proofs in proofs/.
#![tactic(auto)]
