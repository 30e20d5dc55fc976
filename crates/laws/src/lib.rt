#![tactic(auto)]
// No code: the laws that every crate above cites stand in specs/ and proofs/.
