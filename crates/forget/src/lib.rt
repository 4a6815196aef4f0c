// No functions: demand 3 for every machine is definitions (specs/) and theorems (proofs/).

#![tactic(auto)]
