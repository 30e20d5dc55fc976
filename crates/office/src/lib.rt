#![tactic(auto)]
// No code: demand 3 of what a program in C calls, `dem_open` and then any list of `dem_deliver`. The theorems stand in proofs/DeskDemand3.
