#![tactic(auto)]
// No code: document 01's marked examples, one table and one proved claim. Every floor below is held to it.
