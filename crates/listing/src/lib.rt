#![tactic(auto)]
// What the listers have in common: the bytes that a source brings are delivered, up to the last, and then document 01's last lines are put.
// They read and write themselves.
ghost use Rattle.std.specs.Prelude.{ℕ, List, ◌≡◌, replicate};
ghost use Rattle.lines.specs.Lines.{Given};
ghost use Rattle.session.specs.Session.{fresh};
ghost use Rattle.listing.specs.declared.Stage.TheVariants.{More};
ghost use Rattle.listing.specs.Turns.{turn, turn_numbered, turn_after, last_text, ComesTo, stepped, ran, with_rest, taken_of, Listed, Fed};

use delivery::Answer;
use session::Session;

// More may follow, the input is at its end, or a block was refused, with what it was refused for.
#[derive(Clone, Copy, PartialEq, Eq)]
pub enum Stage {
    More,
    Ended,
    Refused { kind: u32, block: u64, byte: u32 },
}

// The number of the first of them.
pub const MORE: u8 = 0;

// Where a listing stands.
#[derive(Clone, Copy)]
pub struct Turn {
    pub session: Session,
    pub stage: Stage,
}

impl Turn {
    // Where a listing stands by its numbers, whatever these are: at 0 more may follow, and at 2 a block was refused.
    pub fn numbered(session: Session, stage: u8, kind: u32, block: u64, byte: u32) -> Turn
        ensures { result ≡ turn_numbered session stage kind block byte }
    {
        let stage = match stage {
            MORE => Stage::More,
            2 => Stage::Refused { kind, block, byte },
            _ => Stage::Ended,
        };
        Turn { session, stage }
    }
}

// What brings the bytes of a sheet, however a pipe cuts them up.
pub trait Source {
    // Holds of the source and the bytes lent before a call, the number answered, and the source and the bytes after it.
    ghost brings: { Self → List ℕ → ℕ → Self → List ℕ → Type 0 };

    // Fills the bytes from their start, and answers how many it filled: fewer than all only at the input's end. More than were lent counts as all.
    fn fetch(&mut self, bytes: &mut [u8]) -> usize
        ensures { brings self.old bytes.old result self.new bytes.new };
}

// Before the first block.
pub fn begin() -> Turn
    ensures { result ≡ turn fresh More }
{
    Turn {
        session: session::new(),
        stage: Stage::More,
    }
}

fn after(session: Session, answer: Answer) -> Turn
    ensures { result ≡ turn_after session answer }
{
    let stage = match answer {
        Answer::Taken | Answer::Held => Stage::More,
        Answer::Refused(kind, block, byte) => Stage::Refused { kind, block, byte },
    };
    Turn { session, stage }
}

// At most a block: none at the input's end, and a part of one is delivered as it is, and refused. Its number is that of the blocks taken.
fn take_block(s: Session, block: &[u8], grid: &mut [i32]) -> Turn
    ensures { ComesTo (stepped s block.now grid.old) grid.new result }
{
    if block.is_empty() {
        return Turn {
            session: s,
            stage: Stage::Ended,
        };
    }
    let delivered = load::deliver(s, s.taken, block, grid);
    after(delivered.session, delivered.answer)
}

// Whole blocks as one run. The first one's number is that of the blocks taken.
fn take_run(s: Session, blocks: &[u8], grid: &mut [i32]) -> Turn
    ensures { ComesTo (ran s blocks.now grid.old) grid.new result }
{
    let ran = load::deliver_run(s, s.taken, blocks, grid);
    after(ran.session, ran.answer)
}

// What is left behind a run's blocks: a short block, and only if none of those was refused.
fn take_rest(t: Turn, rest: &[u8], grid: &mut [i32]) -> Turn
    ensures { ComesTo (with_rest (record { turn = t; cells = grid.old }) rest.now) grid.new result }
{
    if t.stage != Stage::More || rest.is_empty() {
        return t;
    }
    take_block(t.session, rest, grid)
}

// The next bytes of the input: less than a block, or whole blocks as one run and what is left behind them.
pub fn take_bytes(s: Session, bytes: &[u8], grid: &mut [i32]) -> Turn
    ensures { ComesTo (taken_of s bytes.now grid.old) grid.new result }
{
    if bytes.len() < 1024 {
        return take_block(s, bytes, grid);
    }
    let whole = 1024 * (bytes.len() / 1024);
    let t = take_run(s, &bytes[..whole], grid);
    take_rest(t, &bytes[whole..], grid)
}

// The line or lines that end a listing. Answers the bytes used; none, and nothing changed, where they do not fit.
#[tactic(auto, unfolding(crate::specs::Turns::last_text))]
pub fn put_last(t: Turn, out: &mut [u8]) -> usize
    ensures { Given (last_text t) out.old out.new result }
{
    match t.stage {
        Stage::Refused { kind, block, byte } => lines::put_refusal(kind, block, byte, out),
        Stage::More | Stage::Ended => lines::put_end(t.session, out),
    }
}

// A proved loop has to end, and nothing says that the input does: but no sheet has more than 26,626 blocks, and one more is refused.
fn all_blocks<S: Source>(source: &mut S, bytes: &mut [u8], grid: &mut [i32]) -> Turn
    ensures listed { Listed grid.old grid.new result }
    ensures fed { Fed S.brings source.old bytes.old (turn fresh More) grid.old source.new result grid.new }
{
    let mut t = begin();
    while t.stage == Stage::More {
        let got = source.fetch(bytes).min(bytes.len());
        t = take_bytes(t.session, &bytes[..got], grid);
    }
    t
}

// Lists all that the source brings, 64 blocks at a time.
pub fn list<S: Source>(source: &mut S, grid: &mut [i32]) -> Turn
    ensures listed { Listed grid.old grid.new result }
    ensures fed { Fed S.brings source.old (replicate 65536 0) (turn fresh More) grid.old source.new result grid.new }
{
    let mut bytes = [0u8; 65536];
    all_blocks(source, &mut bytes, grid)
}
