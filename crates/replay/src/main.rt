#![tactic(auto)]
// Runs a recorded line of deliveries: docs/MANUAL.md, "Looking at a recorded line". Input, one call, output.
mod output;

ghost use Rattle.std.specs.Prelude.{◌≡◌, length};
ghost use Rattle.script.specs.Script.{Within};
ghost use Rattle.replay.specs.Turns.{Ready, Delivers};

use script::{BadScript, Delivery};
use session::Session;

// The open file that a program reads.
const STDIN_FILENO: i32 = 0;

// The next delivery's head, and its bytes at the front of the block; none where the script ends.
fn read_next(block: &mut [u8], cells: usize) -> Result<Option<Delivery>, BadScript>
    requires { length block.old ≡ 4096 }
    ensures { Within cells result }
{
    let mut text = [0u8; 12];
    let got = io::read_full(STDIN_FILENO, &mut text);
    let Some(next) = script::head_of(&text, got, cells)? else {
        return Ok(None);
    };
    let bytes = io::read_full(STDIN_FILENO, &mut block[..next.bytes]);
    if bytes != next.bytes {
        return Err(BadScript);
    }
    Ok(Some(next))
}

// One delivery, and the line of its answer.
fn deliver(s: Session, next: Delivery, block: &[u8], grid: &mut [i32]) -> Session
    requires { (length block.now ≡ 4096) × Ready (length grid.old) next }
    ensures { Delivers s next block.now grid.old grid.new result }
{
    let delivered = load::deliver(s, next.number, &block[..next.bytes], &mut grid[..next.lent]);
    output::write_answer(delivered.answer);
    delivered.session
}

// What is read is read apart, so a script that ends inside a delivery can change neither session nor grid. A proved loop has
// to end, and nothing says that the input does: so the turns are counted, up to a number that no run uses up.
fn deliveries(block: &mut [u8], grid: &mut [i32]) -> Result<Session, BadScript>
    requires { length block.old ≡ 4096 }
{
    let mut s = session::new();
    for _ in 0..u64::MAX {
        let Some(next) = read_next(block, grid.len())? else {
            return Ok(s);
        };
        s = deliver(s, next, block, grid);
    }
    Ok(s)
}

// Session and cells stand at the end of a script, unless it was bad.
fn run() -> Result<(), BadScript> {
    let mut text = [0u8; 4];
    let got = io::read_full(STDIN_FILENO, &mut text);
    let cells = script::cells_of(&text, got)?;
    let mut grid = [7i32; 15000];
    let mut block = [0u8; 4096];
    let s = deliveries(&mut block, &mut grid[..cells])?;
    output::write_session(s);
    output::write_cells(&grid[..cells]);
    Ok(())
}

fn main() {
    if run().is_err() {
        output::write_text("bad script\n");
    }
}
