#![tactic(auto)]
// What a delivery answers: document 01. The definitions stand in specs/; here are the types that they name.
use session::Session;

// A refusal has document 01's kind, the block and the byte.
// Kept: no Result, and the kind as its number, since 01 names this form: "an enum with data .. whose refusal case carries three numbers".
#[derive(Drop)]
pub enum Answer {
    Taken,
    Held,
    Refused(u32, u64, u32),
}

#[derive(Drop)]
pub struct Delivered {
    pub answer: Answer,
    pub session: Session,
}
