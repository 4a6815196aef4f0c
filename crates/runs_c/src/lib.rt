// Demands 1 and 3 of the C form: no code, only theorems about what the calls of `tag_c` hand back, which `kazdumera` exports with the
// same promises, in proofs/.

#![tactic(auto)]
