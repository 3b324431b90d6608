// The promises in one place: a page of specs/ for each demand, that reads like its sentences. The proofs cite the theorems of the crates, and do nothing else.
#![tactic(auto)]
