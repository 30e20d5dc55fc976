#![tactic(auto)]
// No code: the meaning of a text of whole blocks, and demand 3.
