#![tactic(auto)]
// The blocks of one profile: document 01, "Writing". A field is lent its stretch of the block and no more, and a number that does not fit
// leaves it as it was; the rest is blanked.
ghost use Rattle.std.specs.Prelude.{[], ◌∷◌, ◌≡◌, ◌+◌, ◌*◌, ◌-◌, ◌≤◌, leb, length};
ghost use Rattle.written.specs.Painted.Field.{integer, decimal};
ghost use Rattle.paint.specs.Fields.{blank_from, count_fields, real_fields, post_fields, first_after, further_after};
ghost use Rattle.paint.specs.FieldSteps.{Paints};
ghost use Rattle.paint.specs.Parts.{BehindAsked, cells_behind, part_by, part_after};

use columns::post_of;

// An integer in the six bytes lent for it; returns where the next field begins.
fn put_whole(value: i64, at: usize, block: &mut [u8]) -> usize
    requires { at + 6 ≤ length block.old }
    ensures { Paints block.old at (integer value ∷ []) block.new result }
{
    let end = at + 6;
    spell::write_integer(value, &mut block[at..end]);
    end
}

// A real in its 24 bytes.
fn put_real(value: i64, at: usize, block: &mut [u8]) -> usize
    requires { at + 24 ≤ length block.old }
    ensures { Paints block.old at (decimal value ∷ []) block.new result }
{
    let end = at + 24;
    spell::write_real(value, &mut block[at..end]);
    end
}

// Bytes 1-24 of record B: "the value 1", the profile's number, its posts, "the value 1".
fn write_counts(number: u32, posts: u32, block: &mut [u8]) -> usize
    requires { 24 ≤ length block.old }
    ensures { Paints block.old 0 (count_fields number posts) block.new result }
{
    let number_at = put_whole(1, 0, block);
    let posts_at = put_whole(number as i64, number_at, block);
    let last_at = put_whole(posts as i64, posts_at, block);
    put_whole(1, last_at, block)
}

// Bytes 25-144: the southern post's place, "datum zero", the stated extremes.
fn write_reals(x: i64, y: i64, least: i64, greatest: i64, at: usize, block: &mut [u8]) -> usize
    requires { at + 120 ≤ length block.old }
    ensures { Paints block.old at (real_fields x y least greatest) block.new result }
{
    let y_at = put_real(x, at, block);
    let datum_at = put_real(y, y_at, block);
    let least_at = put_real(0, datum_at, block);
    let greatest_at = put_real(least, least_at, block);
    put_real(greatest, greatest_at, block)
}

// One post a cell, six bytes each, one behind the other.
fn write_posts(z: u64, cells: &[i32], at: usize, block: &mut [u8]) -> usize
    requires { at + 6 * length cells.now ≤ length block.old }
    ensures { Paints block.old at (post_fields z cells.now) block.new result }
{
    let mut end = at;
    for &cell in cells {
        end = put_whole(post_of(z, cell), end, block);
    }
    end
}

// "All that remains of a block is blank": what the lent block held there before goes too.
fn blank_from(at: usize, block: &mut [u8])
    requires { at ≤ length block.old }
    ensures { block.new ≡ blank_from at block.old }
{
    block[at..].fill(b' ');
}

// So many posts behind the head's bytes; multiplied they might not fit a usize.
fn has_room(bytes: usize, head: usize, posts: usize) -> bool
    ensures { result ≡ leb (head + 6 * posts) bytes }
{
    head <= bytes && posts <= (bytes - head) / 6
}

// A profile's first block: its head, then "up to 146" posts. Too short a block stays as it was.
// Kept: nine parameters, since the promise `first_after` is stated of each.
pub fn write_first(
    number: u32,
    posts: u32,
    x: i64,
    y: i64,
    least: i64,
    greatest: i64,
    z: u64,
    cells: &[i32],
    block: &mut [u8],
)
    ensures { block.new ≡ first_after number posts x y least greatest z cells.now block.old }
{
    if !has_room(block.len(), 144, cells.len()) {
        return;
    }
    let x_at = write_counts(number, posts, block);
    let posts_at = write_reals(x, y, least, greatest, x_at, block);
    let end = write_posts(z, cells, posts_at, block);
    blank_from(end, block);
}

// A further block: "up to 170 posts from byte 1". Too short a block stays as it was.
pub fn write_further(z: u64, cells: &[i32], block: &mut [u8])
    ensures { block.new ≡ further_after z cells.now block.old }
{
    if !has_room(block.len(), 0, cells.len()) {
        return;
    }
    let end = write_posts(z, cells, 0, block);
    blank_from(end, block);
}

// Where a profile stands: its number, the place of its southern post in billionths, the z spacing in hundredths.
#[derive(Drop)]
pub struct Stake {
    pub number: u32,
    pub x: i64,
    pub y: i64,
    pub z: u64,
}

// The first block from all the profile's cells: their extremes, and up to 146 of them as posts.
fn write_opening(stake: Stake, cells: &[i32], block: &mut [u8])
    requires { length cells.now ≤ 2048 }
    ensures { block.new ≡ part_by stake cells.now 0 block.old }
{
    let extremes = columns::extremes_of(cells);
    let here = cells.len().min(146);
    write_first(
        stake.number,
        cells.len() as u32,
        stake.x,
        stake.y,
        extremes.least,
        extremes.greatest,
        stake.z,
        &cells[0..here],
        block,
    );
}

// A further one: up to 170 of the cells behind those of the blocks before it.
fn write_behind(z: u64, cells: &[i32], k: u64, block: &mut [u8])
    requires { BehindAsked cells.now k }
    ensures { block.new ≡ further_after z (cells_behind cells.now (k - 1)) block.old }
{
    let from = 146 + 170 * (k as usize - 1);
    let end = from + (cells.len() - from).min(170);
    write_further(z, &cells[from..end], block);
}

// Block k of a profile, counted from 0. One that it has not leaves the lent block as it was, and so do more cells than a sheet has rows.
#[tactic(auto, unfolding(crate::specs::Parts::part_after))]
pub fn write_part(stake: Stake, cells: &[i32], k: u64, block: &mut [u8])
    ensures { block.new ≡ part_after stake cells.now k block.old }
{
    if cells.len() <= 2048 && k < columns::blocks_for(cells.len()) {
        if k == 0 {
            write_opening(stake, cells, block);
        } else {
            write_behind(stake.z, cells, k, block);
        }
    }
}
