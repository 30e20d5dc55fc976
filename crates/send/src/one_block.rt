// One block of a profile of a sheet that can be sent. Document 01, "Writing".
ghost use Rattle.std.specs.Prelude.{◌≡◌, true, ◌<◌, pos, ◌+ℤ◌, ◌*ℤ◌};
ghost use Rattle.frame.specs.Frame.{columns_of, rows_of};
ghost use Rattle.heading.specs.Heading.{header_obeys};
ghost use Rattle.written.specs.Blocks.{profile_block};
ghost use Rattle.send.specs.SendSteps.{ProfileAsked};
ghost use Rattle.send.specs.BlockSteps.{PlaceAsked, stake_of};

use frame::Header;
use paint::Stake;

// A column's profile: the cells of the grid that are sent of the column, from a row on.
#[derive(Clone, Copy)]
pub(crate) struct Profile {
    pub(crate) column: usize,
    pub(crate) row: usize,
    pub(crate) posts: usize,
}

// A multiple of the lattice, so many behind its first, in billionths.
fn place_at(first: i64, index: usize, step: u64) -> i64
    requires { PlaceAsked first index step }
    ensures { result ≡ (first +ℤ pos index) *ℤ pos step }
{
    (first + index as i64) * step as i64
}

// Where a profile stands, from its first row on.
fn stake_of(h: Header, p: Profile) -> Stake
    requires { (header_obeys h ≡ true) × ((p.column < columns_of h) × (p.row < rows_of h)) }
    ensures { result ≡ stake_of h p.column p.row }
{
    Stake {
        number: (p.column + 1) as u32,
        x: place_at(frame::column_lattice(h).first, p.column, h.xstep),
        y: place_at(frame::row_lattice(h).first, p.row, h.ystep),
        z: frame::z_of(h),
    }
}

// Block k of a profile, counted from 0: its cells are lent as they stand in the grid, column after column.
pub(crate) fn write_profile_block(h: Header, grid: &[i32], p: Profile, k: u64, block: &mut [u8])
    requires { ProfileAsked h grid.now p.column p.row p.posts k block.old }
    ensures { block.new ≡ profile_block h grid.now p.column k }
{
    let from = p.column * frame::rows(h) as usize + p.row;
    paint::write_part(stake_of(h, p), &grid[from..from + p.posts], k, block);
}
