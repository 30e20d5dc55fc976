#![tactic(auto)]
// The head of a profile's first block, and record C: one block each, no state. Document 01, "Record B".
pub mod record_b;
pub mod record_c;
