// No functions: the rows with logins are definitions (specs/), and that the tag of `model` meets them is a theorem (proofs/).

#![tactic(auto)]
