#![tactic(auto)]
// What posts and cells come to. The definitions stand in specs/; here is the one type that they name.

// Filled heights so far, with their least and greatest in hundredths; zeros while there is none.
#[derive(Clone, Copy)]
pub struct Tally {
    pub filled: u64,
    pub low: i64,
    pub high: i64,
}
