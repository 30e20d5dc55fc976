// A run of whole blocks to a sound session. What the first tests ask of session and grid holds from block to block, so it is asked once.
ghost use Rattle.std.specs.Prelude.{◌≡◌, true, ◌≤◌, ◌<◌, ◌^◌, length};
ghost use Rattle.ground.specs.Blocks.{blocks_in};
ghost use Rattle.session.specs.Session.{sound};
ghost use Rattle.delivery.specs.Deliver.{lend};
ghost use Rattle.delivery.specs.declared.Answer.TheVariants.{Held, Refused};
ghost use Rattle.runs.specs.Run.{with_block, run_to};
ghost use Rattle.kinds.specs.Kinds.{number_of};
ghost use Rattle.load.specs.Steps.{Pacing, standing, paced_by};

use delivery::{Answer, Delivered};
use kinds::Kind;
use runs::Ran;
use session::Session;

// Where a run stands: what it would return, whether the cells lent are enough for the session's sheet, and whether no block was refused.
// Kept: that last beside the answer, which is moved into what is returned.
#[derive(Drop)]
pub(crate) struct Pace {
    pub ran: Ran,
    pub roomy: bool,
    pub more: bool,
}

pub(crate) fn refused(s: Session, kind: Kind, number: u64) -> Ran
    ensures { result ≡ record { answer = Refused (number_of kind) number 0; session = s; count = 0 } }
{
    Ran {
        answer: Answer::Refused(kind.number(), number, 0),
        session: s,
        count: 0,
    }
}

pub(crate) fn set_out(s: Session) -> Ran
    ensures { result ≡ record { answer = Held; session = s; count = 0 } }
{
    Ran {
        answer: Answer::Held,
        session: s,
        count: 0,
    }
}

// The run with one answer more.
fn paced(roomy: bool, count: u64, d: Delivered) -> Pace
    requires { count < 2 ^ 63 }
    ensures { result ≡ paced_by roomy count d.session d.answer }
{
    let session = d.session;
    match d.answer {
        Answer::Taken => Pace {
            ran: Ran {
                answer: Answer::Taken,
                session,
                count: count + 1,
            },
            roomy: true,
            more: true,
        },
        Answer::Held => Pace {
            ran: Ran {
                answer: Answer::Held,
                session,
                count: count + 1,
            },
            roomy,
            more: true,
        },
        Answer::Refused(kind, block, byte) => Pace {
            ran: Ran {
                answer: Answer::Refused(kind, block, byte),
                session,
                count,
            },
            roomy,
            more: false,
        },
    }
}

// The next block of a run.
fn next_block(p: Pace, number: u64, block: &[u8], scratch: &mut [i32], grid: &mut [i32]) -> Pace
    requires { Pacing (length grid.old) p × ((length block.now ≡ 1024) × ((length scratch.old ≡ 170) × (p.ran.count < 2 ^ 63))) }
    ensures { Pacing (length grid.new) result × ((standing result.ran grid.new ≡ with_block (standing p.ran grid.old) number block.now) × (result.more ≡ true → number ≤ 26626)) }
{
    let s = p.ran.session;
    let g = gate::order(s, number, p.roomy);
    let d = crate::settle(g, s, number, block, scratch, grid);
    paced(p.roomy, p.ran.count, d)
}

// All blocks, up to the first refusal.
pub(crate) fn all_blocks(s: Session, number: u64, blocks: &[u8], grid: &mut [i32]) -> Ran
    requires { sound s ≡ true }
    ensures { standing result grid.new ≡ run_to s number blocks.now (lend grid.old) (blocks_in blocks.now) }
{
    let mut scratch = [0i32; 170];
    let mut p = Pace {
        ran: set_out(s),
        roomy: frame::has_room(s.header, grid.len() as u64),
        more: true,
    };
    for (i, block) in blocks.chunks_exact(1024).enumerate() {
        p = next_block(p, number + i as u64, block, &mut scratch, grid);
        if !p.more {
            break;
        }
    }
    p.ran
}
