// What the first tests leave, and what a delivery comes to as the code has it: nothing is written yet.
ghost use Rattle.std.specs.Prelude.{◌≡◌};
ghost use Rattle.gate.specs.Gate.{judged_of, taken};
ghost use Rattle.delivery.specs.Deliver.{again, wrong};
ghost use Rattle.kinds.specs.Kinds.{number_of};

use delivery::Answer;
use kinds::Kind;
use session::Session;

// A refusal, a held block, block 0, or a later block.
#[derive(Drop)]
pub enum Gate {
    Stop(Kind),
    Again,
    Begin,
    Later,
}

// The answer and the session after it; how many of the first cells become void; and the first of the cells that get a
// height, with how many do.
#[derive(Drop)]
pub struct Judged {
    pub answer: Answer,
    pub session: Session,
    pub voids: u64,
    pub at: u64,
    pub heights: u64,
}

pub fn held(s: Session) -> Judged
    ensures { result ≡ judged_of s again }
{
    Judged {
        answer: Answer::Held,
        session: s,
        voids: 0,
        at: 0,
        heights: 0,
    }
}

// Whatever number a caller names as the kind.
pub fn refused(s: Session, kind: u32, block: u64, byte: u32) -> Judged
    ensures { result ≡ judged_of s (wrong kind block byte) }
{
    Judged {
        answer: Answer::Refused(kind, block, byte),
        session: s,
        voids: 0,
        at: 0,
        heights: 0,
    }
}

pub fn refused_for(s: Session, kind: Kind, block: u64, byte: u32) -> Judged
    ensures { result ≡ judged_of s (wrong (number_of kind) block byte) }
{
    refused(s, kind.number(), block, byte)
}

// A block taken: the session after it, cells void from the first on, and heights from a cell on.
pub fn taken(after: Session, voids: u64, at: u64, heights: u64) -> Judged
    ensures { result ≡ taken after voids at heights }
{
    Judged {
        answer: Answer::Taken,
        session: after,
        voids,
        at,
        heights,
    }
}
