#![tactic(auto)]
// No code: what the writer sends reads back as the cells it was given.
