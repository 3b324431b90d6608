// Readings that the checker computes: those that the paper marks P, as one table with one proved statement (proofs/Table.antt), and those by which no contract is kept by a function that refuses all (proofs/Given.antt).
#![tactic(auto)]
