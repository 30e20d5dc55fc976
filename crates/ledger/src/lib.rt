#![tactic(auto)]
// A session kept as numbers by a caller in C, and what is asked of it: deliveries, soundness, completeness, the lister's lines.
mod reading;
mod row;

ghost use Rattle.std.specs.Prelude.{◌≡◌};
ghost use Rattle.session.specs.Session.{opened};
ghost use Rattle.delivery.specs.Deliver.{answer_kind, answer_place};
ghost use Rattle.delivery.proofs.SoundOut.{Idle};
ghost use Rattle.lines.specs.Lines.{Given};
ghost use Rattle.slip.specs.Slip.{handed};
ghost use Rattle.ledger.specs.Ledger.{session_said, sound_said, complete_said, open_kind, opened_with, delivered_to, grid_left, numbers_left, numbers_after_answer, report_said};
ghost use Rattle.ledger.specs.Row.{row_kept};
ghost use Rattle.ledger.specs.Steps.{Keepable};

use delivery::{Answer, Delivered};
use frame::Header;
use kinds::Kind;
use session::Session;

// The numbers of a session; include/desk.h names them DEM_SESSION.
pub const NUMBERS: usize = 39;

// The session that numbers say; one that is not sound where they say none.
pub fn session_of(numbers: &[i64]) -> Session
    ensures { (result ≡ session_said numbers.now) × Idle result }
{
    if reading::is_session(numbers) {
        reading::session_kept(numbers)
    } else {
        session::begun(0, Header::default())
    }
}

// A fresh session for sheets of a family, whatever its number: 0, or 12 and nothing changed where there are too few numbers.
pub fn open(family: u32, numbers: &mut [i64]) -> u32
    ensures { (result ≡ open_kind numbers.old) × (numbers.new ≡ opened_with (opened family) numbers.old) }
{
    if numbers.len() < NUMBERS {
        return Kind::Room.number();
    }
    row::keep(session::opened(u64::from(family)), numbers);
    0
}

// The numbers of a session at the front of a slice; nothing changed where there are too few.
pub fn keep(s: Session, numbers: &mut [i64])
    ensures { numbers.new ≡ row_kept s numbers.old }
{
    if NUMBERS <= numbers.len() {
        row::keep(s, numbers);
    }
}

// What a delivery came to, told: the numbers are changed only where the block was taken.
fn settle(d: Delivered, numbers: &mut [i64], answer: &mut [u64]) -> u32
    requires { Keepable d numbers.old }
    ensures { (result ≡ answer_kind d.answer) × ((numbers.new ≡ numbers_after_answer d.answer d.session numbers.old) × (answer.new ≡ handed (answer_place d.answer) answer.old)) }
{
    match d.answer {
        Answer::Taken => {
            row::keep(d.session, numbers);
            slip::hand(&[0, 0], answer);
            0
        }
        Answer::Held => {
            slip::hand(&[0, 0], answer);
            255
        }
        Answer::Refused(kind, block, byte) => {
            slip::hand(&[block, u64::from(byte)], answer);
            kind
        }
    }
}

// One delivery to the session that the numbers say: 0 taken, 255 held, else document 01's kind, with block and byte beside it.
pub fn deliver(
    numbers: &mut [i64],
    number: u32,
    block: &[u8],
    grid: &mut [i32],
    answer: &mut [u64],
) -> u32
    ensures { (result ≡ answer_kind (delivered_to numbers.old number block.now grid.old).answer) × ((numbers.new ≡ numbers_left numbers.old number block.now grid.old) × ((grid.new ≡ grid_left numbers.old number block.now grid.old) × (answer.new ≡ handed (answer_place (delivered_to numbers.old number block.now grid.old).answer) answer.old))) }
{
    let s = session_of(numbers);
    let d = load::deliver(s, number as u64, block, grid);
    settle(d, numbers, answer)
}

pub fn is_sound(numbers: &[i64]) -> bool
    ensures { result ≡ sound_said numbers.now }
{
    session::is_sound(session_of(numbers))
}

// A sound session whose sheet is complete.
pub fn is_complete(numbers: &[i64]) -> bool
    ensures { result ≡ complete_said numbers.now }
{
    let s = session_of(numbers);
    session::is_sound(s) && session::is_complete(s)
}

// The lister's four lines of a complete session; 0, and nothing changed, for any other or where they do not fit.
pub fn report(numbers: &[i64], out: &mut [u8]) -> usize
    ensures { Given (report_said numbers.now) out.old out.new result }
{
    if is_complete(numbers) {
        lines::put_report(session_of(numbers), out)
    } else {
        0
    }
}
