#![tactic(auto)]
// No code: demand 3 of blocks and runs of blocks as they arrive, mixed. The theorems stand in proofs/MixedDemand3.
