#![tactic(auto)]
// Lists a sheet as the lister does, with the cells of a whole 1201 × 1201 sheet lent: 5.8 MB of the stack's 8.
ghost use Rattle.std.specs.Prelude.{◌≡◌, ◌≤◌, length};
ghost use Rattle.listing.specs.Turns.{Listed, Lists};

use listing::{Source, Turn};

// The open files that a program is begun with.
const STDIN_FILENO: i32 = 0;

const STDOUT_FILENO: i32 = 1;

// The program's input: no contract can say more of it than how many bytes it fills.
// Kept: in both programs, since no library reads or writes.
#[derive(Drop)]
struct StandardInput;

impl Source for StandardInput {
    ghost brings = { λ _ lent got _ filled. (length filled ≡ length lent) × (got ≤ length filled) };

    fn fetch(&mut self, bytes: &mut [u8]) -> usize {
        io::read_full(STDIN_FILENO, bytes)
    }
}

// All of the input, up to its end or to a refusal.
fn all_blocks(grid: &mut [i32]) -> Turn
    ensures { Listed grid.old grid.new result }
{
    listing::list(&mut StandardInput, grid)
}

// An array, and no slice: the prover takes so long an array as a slice only behind a reference.
fn list(grid: &mut [i32; 1442401])
    ensures { Lists grid.old grid.new }
{
    let t = all_blocks(grid);
    let mut out = [0u8; 512];
    let used = listing::put_last(t, &mut out);
    io::write_all(STDOUT_FILENO, &out[..used]);
}

fn main() {
    let mut grid = [0i32; 1442401];
    list(&mut grid);
}
