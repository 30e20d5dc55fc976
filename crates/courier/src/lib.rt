#![tactic(auto)]
// A run of blocks to a session kept as numbers by a caller in C: document 02, request 3.
ghost use Rattle.std.specs.Prelude.{◌≡◌};
ghost use Rattle.delivery.specs.Deliver.{answer_kind};
ghost use Rattle.slip.specs.Slip.{handed};
ghost use Rattle.courier.specs.Steps.{taken_kept};
ghost use Rattle.courier.specs.Courier.{ran_to, numbers_run, grid_run, beside_run};

use delivery::Answer;
use runs::Ran;
use session::Session;

// The numbers of the session after a run that took a block; one that took none leaves them.
fn keep_taken(before: u64, after: Session, numbers: &mut [i64])
    ensures { numbers.new ≡ taken_kept before after numbers.old }
{
    if before < after.taken {
        ledger::keep(after, numbers);
    }
}

// The answer as a number, and what stands beside it.
// Kept: not one with ledger's `settle`, which also keeps the session and hands two numbers; a common one would be public and take what is handed.
fn tell(ran: Ran, answer: &mut [u64]) -> u32
    ensures { (result ≡ answer_kind ran.answer) × (answer.new ≡ handed (beside_run ran.answer ran.count) answer.old) }
{
    let count = ran.count;
    match ran.answer {
        Answer::Taken => {
            slip::hand(&[0, 0, count], answer);
            0
        }
        Answer::Held => {
            slip::hand(&[0, 0, count], answer);
            255
        }
        Answer::Refused(kind, block, byte) => {
            slip::hand(&[block, u64::from(byte), count], answer);
            kind
        }
    }
}

// Several blocks in one call: 0 taken, 255 held, else document 01's kind; beside it block and byte of the refusal, and how many blocks
// were taken or held before it.
pub fn deliver_run(
    numbers: &mut [i64],
    number: u32,
    blocks: &[u8],
    grid: &mut [i32],
    answer: &mut [u64],
) -> u32
    ensures { (result ≡ answer_kind (ran_to numbers.old number blocks.now grid.old).answer) × ((numbers.new ≡ numbers_run numbers.old number blocks.now grid.old) × ((grid.new ≡ grid_run numbers.old number blocks.now grid.old) × (answer.new ≡ handed (beside_run (ran_to numbers.old number blocks.now grid.old).answer (ran_to numbers.old number blocks.now grid.old).count) answer.old))) }
{
    let s = ledger::session_of(numbers);
    let ran = load::deliver_run(s, number as u64, blocks, grid);
    keep_taken(s.taken, ran.session, numbers);
    tell(ran, answer)
}
