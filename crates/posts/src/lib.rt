#![tactic(auto)]
// A block's posts, judged and turned into heights in a scratch before a cell is written; and the writes to lent cells.
ghost use Rattle.std.specs.Prelude.{◌≡◌, ◌++◌, ◌+◌, ◌^◌, ◌≤◌, leb, nat_abs, length, take, drop, replicate};
ghost use Rattle.std.proofs.lemmas.List.Edits.{sets};
ghost use Rattle.ground.specs.Posts.{void, judge_post, height, tally_one, no_tally, Scaled};
ghost use Rattle.ground.specs.Extremes.{filled_only, sum_of};
ghost use Rattle.laws.specs.Sign.{same_z};
ghost use Rattle.number.specs.Reading.{said};
ghost use Rattle.posts.specs.Scan.{askable, good_posts, heights_over, scanned, scan_of, scan_told, scratch_after, summed, voided, placed};
ghost use Rattle.posts.specs.Steps.{Asked, Scanned, share};

use field::Broken;
use ground::Tally;
use kinds::Kind;
use number::Unread;

// A post of this number, and a cell of that one, is void.
const VOID_POST: i64 = -32767;

const VOID: i32 = i32::MIN; // Kept: by name in columns too, whose edit `void_written_as_zero` speaks of its own.

// Posts run -32767 to 32767.
fn in_posts(p: i64) -> bool
    ensures { result ≡ leb (nat_abs p) 32767 }
{
    matches!(p, -32767..=32767)
}

fn judge_post(r: Result<i64, Unread>) -> Result<i64, Unread>
    ensures { said result ≡ judge_post (said r) }
{
    let post = r?;
    if in_posts(post) {
        return Ok(post);
    }
    Err(Unread::of(Kind::Range))
}

// The void post is judged before any scaling.
fn height_of(z: u64, datum: i64, post: i64) -> i64
    requires { Scaled z datum post }
    ensures { result ≡ height z datum post }
{
    if post == VOID_POST {
        return VOID as i64;
    }
    post * (z as i64) + datum
}

fn is_void(h: i64) -> bool
    ensures { result ≡ same_z h void }
{
    h == VOID as i64
}

// While none is filled the extremes are not looked at: a session may hold any there.
fn tally_one(t: Tally, h: i64) -> Tally
    requires { t.filled ≤ 2 ^ 33 }
    ensures { result ≡ tally_one t h }
{
    if is_void(h) {
        return t;
    }
    if t.filled == 0 {
        return Tally {
            filled: 1,
            low: h,
            high: h,
        };
    }
    Tally {
        filled: t.filled + 1,
        low: t.low.min(h),
        high: h.max(t.high),
    }
}

// n posts from a byte: the heights go to the scratch, so that a refused block changes no cell of the grid.
fn scan_posts(
    block: &[u8],
    byte: usize,
    n: usize,
    z: u64,
    datum: i64,
    tally: Tally,
    scratch: &mut [i32],
) -> Result<Tally, Broken>
    requires { Asked block.now byte n z datum tally scratch.old }
    ensures { Scanned block.now byte n z datum tally scratch.old scratch.new (scan_told result) }
{
    let mut t = tally;
    for i in 0..n {
        let first = byte + 6 * i;
        let read = six::read_six(&block[first - 1..first + 5]);
        let post = field::placed(first as u16, judge_post(read))?;
        let h = height_of(z, datum, post);
        scratch[i] = h as i32;
        t = tally_one(t, h);
    }
    Ok(t)
}

fn no_tally() -> Tally
    ensures { result ≡ no_tally }
{
    Tally {
        filled: 0,
        low: 0,
        high: 0,
    }
}

// A block's posts, then the rest of it as one blank stretch.
fn scan_asked(
    block: &[u8],
    byte: usize,
    n: usize,
    z: u64,
    datum: i64,
    scratch: &mut [i32],
) -> Result<Tally, Broken>
    requires { Asked block.now byte n z datum no_tally scratch.old }
    ensures { (scan_told result ≡ scanned block.now byte n z datum) × (scratch.new ≡ heights_over block.now byte (good_posts n byte block.now) z datum scratch.old) }
{
    let tally = scan_posts(block, byte, n, z, datum, no_tally(), scratch)?;
    let from = byte - 1 + 6 * n;
    if field::blank_from(block, from) {
        return Ok(tally);
    }
    Err(Broken::at(Kind::Stretch, (from + 1) as u32))
}

// Whether so many posts stand in the block and have room in the scratch, and document 01 allows the z spacing and the datum.
fn can_scan(bytes: usize, byte: usize, n: usize, z: u64, datum: i64, room: usize) -> bool
    ensures { result ≡ askable bytes byte n z datum room }
{
    n <= 170
        && bytes == 1024
        && 1 <= byte
        && byte <= 1025 - 6 * n
        && n <= room
        && z <= 100
        && datum.unsigned_abs() <= 1000000
}

// A block's posts and the rest of it. The scratch holds the heights up to the first post at fault.
pub fn scan_block(
    block: &[u8],
    byte: usize,
    n: usize,
    z: u64,
    datum: i64,
    scratch: &mut [i32],
) -> Result<Tally, Broken>
    ensures { (scan_told result ≡ scan_of block.now byte n z datum (length scratch.old)) × (scratch.new ≡ scratch_after block.now byte n z datum scratch.old) }
{
    if !can_scan(block.len(), byte, n, z, datum, scratch.len()) {
        return Err(Broken::at(Kind::Length, 0));
    }
    scan_asked(block, byte, n, z, datum, scratch)
}

// What a height adds to a sum: a void nothing.
fn share_of(h: i64) -> i64
    ensures { result ≡ share h }
{
    if is_void(h) {
        return 0;
    }
    h
}

fn add_up(values: &[i32], n: usize) -> i64
    requires { (n ≤ 170) × (n ≤ length values.now) }
    ensures { (result ≡ sum_of (filled_only (take n values.now))) × (nat_abs result ≤ 2 ^ 40) }
{
    let mut sum: i64 = 0;
    for &h in &values[..n] {
        sum += share_of(h as i64);
    }
    sum
}

// The sum of the first n values, voids left out; 0 where there are not so many, or more than a block's posts.
pub fn sum_filled(values: &[i32], n: usize) -> i64
    ensures { (result ≡ summed n values.now) × (nat_abs result ≤ 2 ^ 40) }
{
    if n <= 170 && n <= values.len() {
        return add_up(values, n);
    }
    0
}

// The first n cells void, where there are so many; else nothing is written.
pub fn void_cells(grid: &mut [i32], n: usize)
    ensures { grid.new ≡ voided n grid.old }
{
    if n <= grid.len() {
        grid[..n].fill(VOID);
    }
}

// Kept: one by one, since `copy_from_slice` has the archive for C ask for `memmove`, which it did not need before.
fn put_values(grid: &mut [i32], at: usize, values: &[i32], n: usize)
    requires { (at + n ≤ length grid.old) × (n ≤ length values.now) }
    ensures { grid.new ≡ sets grid.old at (take n values.now) }
{
    for i in 0..n {
        grid[at + i] = values[i];
    }
}

// The first n values into the cells from one on, where there are so many of both; else nothing is written.
pub fn place(grid: &mut [i32], at: usize, values: &[i32], n: usize)
    ensures { grid.new ≡ placed at n values.now grid.old }
{
    let room = lattice::leaves_room(at as u64, n as u64, grid.len() as u64);
    if room && n <= values.len() {
        put_values(grid, at, values, n);
    }
}
