#![tactic(auto)]
// What a run of blocks answers: document 02, request 3. The definitions stand in specs/; here is the type that they name.
use delivery::Answer;
use session::Session;

// The refusal, or the last block's answer; the session after it; and how many blocks were taken or held before the refusal.
#[derive(Drop)]
pub struct Ran {
    pub answer: Answer,
    pub session: Session,
    pub count: u64,
}
