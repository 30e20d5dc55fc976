#![tactic(auto)]
// Blocks by number into a lent grid: document 01, "What a delivery answers". A delivery is judged, which reads, then applied, which writes.
mod blocks;
mod run;
mod steps;

ghost use Rattle.std.specs.Prelude.{◌≡◌, length};
ghost use Rattle.delivery.specs.Deliver.{lend, deliver_of, lent_after, verdict_of};
ghost use Rattle.gate.specs.Gate.{room, gate_of};
ghost use Rattle.runs.specs.Run.{run_of, ran_of};
ghost use Rattle.load.specs.Steps.{Judging, told, grid_by};

use delivery::Delivered;
use gate::verdict::{Gate, Judged};
use kinds::Kind;
use runs::Ran;
use session::Session;

// A delivery judged whole, past the first tests. Of what is lent only the lengths are asked; a later block's heights stand in the scratch.
fn judge(
    g: Gate,
    s: Session,
    number: u64,
    block: &[u8],
    cells: usize,
    scratch: &mut [i32],
) -> Judged
    requires { (g ≡ gate_of s number (length block.now) (room cells)) × (length scratch.old ≡ 170) }
    ensures { Judging s (verdict_of s number block.now (room cells)) cells scratch.new result }
{
    match g {
        Gate::Stop(kind) => gate::verdict::refused_for(s, kind, number, 0),
        Gate::Again => gate::verdict::held(s),
        Gate::Begin => gate::judge_first(s, block, cells),
        Gate::Later => blocks::later_block(s, number, block, scratch),
    }
}

// What was judged, done: only here is what is lent written.
fn apply(judged: Judged, scratch: &[i32], grid: &mut [i32]) -> Delivered
    ensures { (result ≡ told judged) × (grid.new ≡ grid_by scratch.now judged grid.old) }
{
    posts::void_cells(grid, judged.voids as usize);
    posts::place(grid, judged.at as usize, scratch, judged.heights as usize);
    Delivered {
        answer: judged.answer,
        session: judged.session,
    }
}

// A delivery past the first tests: judged, then done.
pub(crate) fn settle(
    g: Gate,
    s: Session,
    number: u64,
    block: &[u8],
    scratch: &mut [i32],
    grid: &mut [i32],
) -> Delivered
    requires { (g ≡ gate_of s number (length block.now) (room (length grid.old))) × (length scratch.old ≡ 170) }
    ensures { (result ≡ deliver_of s number block.now (lend grid.old)) × (grid.new ≡ (lent_after s number block.now (lend grid.old)).grid) }
{
    let judged = judge(g, s, number, block, grid.len(), scratch);
    apply(judged, scratch, grid)
}

// One delivery: any session, number, bytes and grid are answered; a refused or held block changes nothing.
pub fn deliver(s: Session, number: u64, block: &[u8], grid: &mut [i32]) -> Delivered
    ensures { (result ≡ deliver_of s number block.now (lend grid.old)) × (grid.new ≡ (lent_after s number block.now (lend grid.old)).grid) }
{
    let mut scratch = [0i32; 170];
    let g = gate::gate(s, number, block.len(), grid.len());
    settle(g, s, number, block, &mut scratch, grid)
}

// Several blocks in one call, the first under this number: single deliveries in order, up to the first refusal.
pub fn deliver_run(s: Session, number: u64, blocks: &[u8], grid: &mut [i32]) -> Ran
    ensures { (result ≡ ran_of (run_of s number blocks.now (lend grid.old))) × (grid.new ≡ (run_of s number blocks.now (lend grid.old)).lent.grid) }
{
    if blocks.len() % 1024 != 0 {
        return run::refused(s, Kind::Length, number);
    }
    if blocks.is_empty() {
        return run::set_out(s);
    }
    if !session::is_sound(s) {
        return run::refused(s, Kind::Unsound, number);
    }
    run::all_blocks(s, number, blocks, grid)
}
