// No functions: what a program gets from the calls of `tag`, one after another, is definitions (specs/) and theorems (proofs/).

#![tactic(auto)]
